// The text that takes a match's place (`add_s` of `lstrlib.c`).
ghost use Rattle.std.specs.Prelude.{◌≡◌, ◌≤◌, IsTrue};
ghost use Rattle.library_rows.specs.Formats.{is_decimal};
ghost use Rattle.library_rows.specs.Searches.{escaped, expansion};
ghost use Rattle.library_arguments.specs.Answers.{IsAnswer};
ghost use Rattle.library_arguments.specs.Refusals.{IsRead};
ghost use Rattle.library_arguments.specs.Shapes.{bytes_in, shapes_of};

use crate::building::push;
use library_arguments::{Fault, Refusal, Results, Shape, Text, argument, text_of};
use std::alloc::Global;
use text_functions::Builder;

/// A replacement with its captures filled in: `%0` is the whole match, which comes first, `%1` to `%9` are captures, and `%%` is a `%`.
///
/// # Errors
///
/// The first of these, from the front: a `%` before no digit and no `%`, a capture that is not there, a text that has no room; or memory
/// runs out.
pub fn expand(alloc: Global, replacement: &[u8], captures: &[Shape]) -> Result<Results, Fault>
    ensures { IsAnswer result (expansion replacement.now (shapes_of captures.now)) }
{
    let mut text = Builder::new(alloc);
    let mut rest = replacement;
    while let Some((byte, behind)) = rest.split_first() {
        if *byte != b'%' {
            push(&mut text, &[*byte])?;
            rest = behind;
            continue;
        }
        let Some((code, behind)) = behind.split_first() else {
            return Err(Fault::Refused(Refusal::Text(b"invalid use of '%' in replacement string")));
        };
        let piece = escaped(captures, *code)?;
        push(&mut text, piece.as_slice())?;
        rest = behind;
    }
    let results = Results::string(text.finish())?;
    Ok(results)
}

/// What a byte behind a `%` stands for.
fn escaped<'a>(captures: &[Shape<'a>], code: u8) -> Result<Text<'a>, Refusal>
    ensures { IsRead bytes_in result (escaped (shapes_of captures.now) code) }
{
    if code == b'%' {
        return Ok(Text::Bytes(b"%"));
    }
    if !is_decimal(code) {
        return Err(Refusal::Text(b"invalid use of '%' in replacement string"));
    }
    match text_of(argument(captures, usize::from(code - 47))) {
        Some(text) => Ok(text),
        None => Err(Refusal::Text(b"invalid capture index in replacement string")),
    }
}

fn is_decimal(byte: u8) -> bool
    ensures told { result ≡ is_decimal byte }
    ensures least { IsTrue result → 48 ≤ byte }
{
    48 <= byte && byte <= 57
}
