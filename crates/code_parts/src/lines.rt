// The lines of a function's instructions, as a prototype keeps them: each as its distance from
// the line in front of it, and the lines that are too far by the places of their instructions.
ghost use Rattle.std.specs.Prelude.{◌≡◌, ◌-ℤ◌, pos, cond, map, Some, None, IfOk};
ghost use Rattle.code_of.specs.CodeOf.{is_near, change_of, changes, far_lines};

use code_core::AbsLine;
use code_emitter::Step;
use int_core::Allocated;
use std::alloc::{AllocError, Global};

/// The distance of a line from that in front of it, where 8 bits hold it and it is not -128.
fn near(before: u32, line: u32) -> Option<i8>
    ensures { result ≡ cond (is_near (pos line -ℤ pos before)) (Some (pos line -ℤ pos before)) None }
{
    let distance = i64::from(line) - i64::from(before);
    if (-127..=127).contains(&distance) {
        Some(distance as i8)
    } else {
        None
    }
}

/// What is kept of a line: its distance from that in front of it, or -128 where it is too far.
fn change(before: u32, line: u32) -> i8
    ensures { result ≡ change_of (pos line -ℤ pos before) }
{
    near(before, line).unwrap_or(-128)
}

/// The distances from line to line, the first from a line in front.
pub fn changes(alloc: Global, from: u32, steps: &[Step]) -> Allocated<Vec<i8>>
    ensures { IfOk result (λ list. list.items ≡ changes from (map (λ s. s.line) steps.now)) }
{
    let mut list = Vec::new(alloc);
    let mut before = from;
    for step in steps {
        list.push(change(before, step.line))?;
        before = step.line;
    }
    Ok(list)
}

/// The lines that are too far from that in front of them, and that of each 128th instruction, by
/// the places of their instructions. For more instructions than 32 bits count there is no memory.
pub fn far_lines(alloc: Global, from: u32, steps: &[Step]) -> Allocated<Vec<AbsLine>>
    ensures { IfOk result (λ list. list.items ≡ far_lines 0 from (map (λ s. s.line) steps.now)) }
{
    let mut list = Vec::new(alloc);
    let mut before = from;
    for (place, step) in steps.iter().enumerate() {
        if place % 128 == 127 || near(before, step.line).is_none() {
            let pc = u32::try_from(place).map_err(|_| AllocError)?;
            list.push(AbsLine {
                pc,
                line: step.line,
            })?;
        }
        before = step.line;
    }
    Ok(list)
}
