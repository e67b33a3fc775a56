// UTF-8 as extended to numbers below 2 ^ 31.
ghost use Rattle.std.specs.Prelude.{◌≡◌, ◌+◌, ◌*◌, ◌/◌, ◌^◌, ◌<◌, ◌≤◌, ◌++◌, OnOk};
ghost use Rattle.lua_lex.specs.Utf8.{extended_utf8, sequence, continuation};

use std::alloc::AllocError;

/// Adds the UTF-8 of a number at the end.
#[tactic(auto, unfolding(crate::specs::Utf8::extended_utf8))]
pub fn push_utf8(out: &mut Vec<u8>, value: u32) -> Result<(), AllocError>
    ensures { OnOk result (out.new.items ≡ out.old.items ++ extended_utf8 value) }
{
    match value {
        0..0x80 => Ok(out.push(value as u8)?),
        0x80..0x800 => push_sequence(out, 0xc0, 1, value),
        0x800..0x1_0000 => push_sequence(out, 0xe0, 2, value),
        0x1_0000..0x20_0000 => push_sequence(out, 0xf0, 3, value),
        0x20_0000..0x400_0000 => push_sequence(out, 0xf8, 4, value),
        _ => push_sequence(out, 0xfc, 5, value),
    }
}

// Adds a first byte, which has the highest bits above its mark, and so many others.
fn push_sequence(out: &mut Vec<u8>, mark: u8, count: u32, value: u32) -> Result<(), AllocError>
    requires count { count ≤ 5 }
    requires first { mark + value / 2 ^ (6 * count) < 256 }
    ensures { OnOk result (out.new.items ≡ out.old.items ++ sequence mark count value) }
{
    out.push(mark + (value >> (6 * count)) as u8)?;
    for place in (0..count).rev() {
        out.push(0x80 + ((value >> (6 * place)) % 64) as u8)?;
    }
    Ok(())
}
