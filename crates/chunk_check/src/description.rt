// The rules on a function as a whole.
ghost use Rattle.std.specs.Prelude.{◌≡◌, ◌^◌, ◌≤ℤ◌, pos, Some, IfSome};
ghost use Rattle.code_core.specs.Writable.{is_writable};
ghost use Rattle.code_core.specs.Check.{is_sized, is_described, none_or_one_per, line_at};
ghost use Rattle.chunk_check.specs.Lines.{lines_fit, good_line};

use code_core::{AbsLine, Proto};

/// Whether there is code, and no more parameters than registers nor too many upvalues.
pub fn is_sized(proto: &Proto) -> bool
    ensures { result ≡ is_sized proto.now }
{
    !proto.code.is_empty() && proto.params <= proto.stack && proto.upvalues.len() <= 255
}

/// Whether a list is empty or has one entry for each of some things.
fn none_or_one_per(len: usize, each: usize) -> bool
    ensures { result ≡ none_or_one_per len each }
{
    len == 0 || len == each
}

/// The line of an instruction from that in front of it, if it is a number that a chunk can hold.
fn next_line(lines: &[AbsLine], pc: usize, line: i64, change: i8) -> Option<i64>
    requires low { pos 0 ≤ℤ line }
    requires high { line ≤ℤ pos (2 ^ 32) }
    ensures next { good_line (line_at lines.now pc (Some line) change) ≡ result }
    ensures low { IfSome result (λ next. pos 0 ≤ℤ next) }
    ensures high { IfSome result (λ next. next ≤ℤ pos (2 ^ 32)) }
{
    let next = if change == -128 {
        match code_core::given_line(lines, pc) {
            Some(given) => i64::from(given),
            None => return None,
        }
    } else {
        line + i64::from(change)
    };
    if next < 0 || next >= 1 << 31 {
        None
    } else {
        Some(next)
    }
}

/// Whether the lines of all instructions can be found and are numbers that a chunk can hold.
fn lines_fit(proto: &Proto) -> bool
    ensures { result ≡ lines_fit proto.now }
{
    let mut line = i64::from(proto.line_defined);
    for (pc, change) in proto.line_info.iter().enumerate() {
        match next_line(&proto.abs_lines, pc, line, *change) {
            Some(next) => line = next,
            None => return false,
        }
    }
    true
}

/// Whether a function's lines and names are as many as they should be, where it is known whether it can be written.
pub fn is_described(proto: &Proto, writable: bool) -> bool
    requires { writable ≡ is_writable proto.now }
    ensures { result ≡ is_described proto.now }
{
    none_or_one_per(proto.line_info.len(), proto.code.len())
        && lines_fit(proto)
        && none_or_one_per(proto.up_names.len(), proto.upvalues.len())
        && writable
}
