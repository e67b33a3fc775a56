// The texts that `load` gives beside nil (Lua 5.4 manual, 6.1).
ghost use Rattle.std.specs.Prelude.{◌≡◌, ◌++◌, IfOk, codes};
ghost use Rattle.int_core.specs.Limits.{position, source_name};
ghost use Rattle.load_rows.specs.Loading.{why_refused};

use itoa::Buffer;
use std::alloc::{AllocError, Global};

/// Why a source is refused: `NAME:LINE: source refused`, and the static rule where it breaks one.
pub fn refusal_text(
    alloc: Global,
    name: &[u8],
    line: u32,
    rule: Option<u8>,
) -> Result<Vec<u8>, AllocError>
    ensures { IfOk result (λ text. text.items ≡ why_refused name.now line rule) }
{
    let mut text = position(alloc, name, line)?;
    text.extend_from_slice(b"source refused")?;
    if let Some(rule) = rule {
        let mut buffer = Buffer::new();
        text.extend_from_slice(b" by rule ")?;
        text.extend_from_slice(buffer.format(rule).as_bytes())?;
    }
    Ok(text)
}

/// A source's name and a line of it, as they stand before the texts of errors.
fn position(alloc: Global, name: &[u8], line: u32) -> Result<Vec<u8>, AllocError>
    ensures { IfOk result (λ text. text.items ≡ position name.now line) }
{
    let mut buffer = Buffer::new();
    let mut text = source_name(name).to_vec(alloc)?;
    text.extend_from_slice(b":")?;
    text.extend_from_slice(buffer.format(line).as_bytes())?;
    text.extend_from_slice(b": ")?;
    Ok(text)
}

/// A name without a first `@` or `=`.
fn source_name(name: &[u8]) -> &[u8]
    ensures { result.now ≡ source_name name.now }
{
    match name {
        [b'@' | b'=', rest @ ..] => rest,
        _ => name,
    }
}

/// Why a mode without a `t` loads nothing.
pub fn mode_text(alloc: Global, mode: &[u8]) -> Result<Vec<u8>, AllocError>
    ensures { IfOk result (λ text. text.items ≡ codes "attempt to load a text chunk (mode is '" ++ mode.now ++ codes "')") }
{
    let mut text = Vec::new(alloc);
    text.extend_from_slice(b"attempt to load a text chunk (mode is '")?;
    text.extend_from_slice(mode)?;
    text.extend_from_slice(b"')")?;
    Ok(text)
}
