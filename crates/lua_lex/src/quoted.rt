// Literal strings between quotes.
ghost use Rattle.std.specs.Prelude.{◌≡◌, ◌≢◌, ◌≤◌, ◌<◌, ◌++◌, ℕ, List, length, drop, slice_index, IfOk, IfSome, IfNone, OnOk};
ghost use Rattle.lua_lex.specs.Strings.{element_of, meaning_bytes, Quoted};

use crate::class::is_line_end;
use crate::escape::{Meaning, escape_at};
use crate::line::behind;
use crate::utf8::push_utf8;
use std::alloc::{AllocError, Global};

/// What stands at the front of a text that is in quotes.
#[derive(Clone, Copy, Debug, PartialEq, Eq)]
pub enum Element {
    /// The closing quote.
    Close,
    /// A backslash.
    Backslash,
    /// A byte that stands for itself.
    Plain,
    /// The end of the text or of its line.
    Unfinished,
}

/// The bytes of the string that begins with the quote at the front, and how many bytes the whole
/// has, if there is one.
pub fn quoted(alloc: Global, text: &[u8]) -> Result<Option<(Vec<u8>, usize)>, AllocError>
    requires { 0 < length text.now }
    ensures found { IfOk result (λ answer. IfSome answer (λ found. Quoted (slice_index text.now 0) (drop 1 text.now) found.0.items (drop found.1 text.now))) }
    ensures bound { IfOk result (λ answer. IfSome answer (λ found. (0 < found.1) × (found.1 ≤ length text.now))) }
    ensures none { IfOk result (λ answer. IfNone answer ((content rest : List ℕ) → Quoted (slice_index text.now 0) (drop 1 text.now) content rest → ⊥)) }
{
    let quote = text[0];
    let mut content = Vec::new(alloc);
    let mut at = 1;
    loop {
        match element_of(quote, behind(text, at)) {
            Element::Close => return Ok(Some((content, at + 1))),
            Element::Unfinished => return Ok(None),
            Element::Plain => {
                content.push(text[at])?;
                at += 1;
            }
            Element::Backslash => {
                let Some((meaning, len)) = escape_at(behind(text, at + 1)) else {
                    return Ok(None);
                };
                push_meaning(&mut content, meaning)?;
                at += 1 + len;
            }
        }
    }
}

#[tactic(auto, unfolding(crate::specs::Strings::element_of))]
fn element_of(quote: u8, text: &[u8]) -> Element
    ensures value { result ≡ element_of quote text.now }
    ensures room { result ≢ Element.Unfinished → 0 < length text.now }
{
    if text.is_empty() {
        return Element::Unfinished;
    }
    let first = text[0];
    if first == quote {
        Element::Close
    } else if first == b'\\' {
        Element::Backslash
    } else if is_line_end(first) {
        Element::Unfinished
    } else {
        Element::Plain
    }
}

// Adds the bytes of a meaning at the end.
fn push_meaning(out: &mut Vec<u8>, meaning: Meaning) -> Result<(), AllocError>
    ensures { OnOk result (out.new.items ≡ out.old.items ++ meaning_bytes meaning) }
{
    match meaning {
        Meaning::Nothing => Ok(()),
        Meaning::Byte(value) => Ok(out.push(value)?),
        Meaning::Character(value) => push_utf8(out, value),
    }
}
