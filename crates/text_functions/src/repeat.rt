// Copies of a text (Lua 5.4 manual, 6.4, `string.rep`).
ghost use Rattle.std.specs.Prelude.{◌≡◌, ◌++◌, ◌*◌, ◌+◌, ◌≤◌, ◌<◌, ◌^◌, length, IfSome, IfNone, OnOk};
ghost use Rattle.std.specs.List.{repeat};
ghost use Rattle.int_core.specs.Value.{greatest_string};
ghost use Rattle.library_rows.specs.Strings.{copies};
ghost use Rattle.text_functions.specs.Made.{IsMade};

use crate::fault::{Bounded, StringFault};
use crate::growing::MAX_TEXT;
use std::alloc::{AllocError, Global};

/// So many copies of a text with another one between them; none where the number is not positive.
///
/// # Errors
///
/// `TooLarge` where they would have more than 16,777,216 bytes, which is looked at before memory is taken.
pub fn repeated(alloc: Global, text: &[u8], between: &[u8], count: i64) -> Bounded<Vec<u8>>
    ensures { IsMade result (copies text.now between.now count) }
{
    if count <= 0 {
        return Ok(Vec::new(alloc));
    }
    if text.len().saturating_add(between.len()) == 0 {
        return Ok(Vec::new(alloc));
    }
    let more = count as usize - 1;
    let Some(len) = len_within(text.len(), between.len(), more) else {
        return Err(StringFault::TooLarge);
    };
    let mut bytes = Vec::with_capacity(alloc, len)?;
    bytes.extend_from_slice(text)?;
    append_copies(&mut bytes, text, between, more)?;
    Ok(bytes)
}

/// How many bytes a text has with so many more copies of it, and of what stands between, where that is within the limit.
fn len_within(text: usize, between: usize, more: usize) -> Option<usize>
    requires { more < 2 ^ 63 }
    ensures len { IfSome result (λ len. len ≡ text * (more + 1) + between * more) }
    ensures within { IfSome result (λ len. len ≤ greatest_string) }
    ensures large { IfNone result (greatest_string < text * (more + 1) + between * more) }
{
    let texts = text.saturating_mul(more + 1);
    let all = texts.saturating_add(between.saturating_mul(more));
    if all <= MAX_TEXT { Some(all) } else { None }
}

/// Puts so many copies at the end, each behind what stands between.
fn append_copies(
    bytes: &mut Vec<u8>,
    text: &[u8],
    between: &[u8],
    count: usize,
) -> Result<(), AllocError>
    ensures { OnOk result (bytes.new.items ≡ bytes.old.items ++ repeat count (between.now ++ text.now)) }
{
    for _ in 0..count {
        bytes.extend_from_slice(between)?;
        bytes.extend_from_slice(text)?;
    }
    Ok(())
}
