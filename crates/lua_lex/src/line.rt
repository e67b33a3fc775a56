// A place in a text: what is left behind it, and its line.
ghost use Rattle.std.specs.Prelude.{◌≡◌, ◌+◌, ◌≤◌, ◌<◌, ◌^◌, ◌++◌, length, take, drop, IfOk};
ghost use Rattle.std.specs.List.{position_or_len};
ghost use Rattle.lua_lex.specs.Classes.{is_line_end, line_ends, end_len, read_lines, behind_line_end};
ghost use Rattle.lua_lex.specs.Lexical.{line_of};

use crate::class::is_line_end;
use memchr::memchr2;
use std::alloc::{AllocError, Global};

/// The text behind its first bytes.
pub fn behind(text: &[u8], len: usize) -> &[u8]
    requires { len ≤ length text.now }
    ensures { result.now ≡ drop len text.now }
{
    &text[len..]
}

/// The line on which the text goes on behind its first bytes, where it begins on this line.
pub fn line_behind(line: u32, text: &[u8], len: usize) -> u32
    requires in_range { len ≤ length text.now }
    requires room { line + length text.now < 2 ^ 32 }
    ensures value { result ≡ line_of line text.now (drop len text.now) }
    ensures bound { result ≤ line + len }
{
    line + line_ends(&text[..len]) as u32
}

/// How many bytes stand in front of the first end of a line.
pub fn line_len(text: &[u8]) -> usize
    ensures value { result ≡ position_or_len is_line_end text.now }
    ensures bound { result ≤ length text.now }
{
    memchr2(b'\n', b'\r', text).unwrap_or(text.len())
}

/// How many bytes the end of a line at a place has: two different ones are one end.
pub fn end_len(text: &[u8], at: usize) -> usize
    requires { at < length text.now }
    ensures value { result ≡ end_len (drop at text.now) }
    ensures bound { at + result ≤ length text.now }
    ensures moves { 1 ≤ result }
{
    if at + 1 < text.len() && is_line_end(text[at + 1]) && text[at + 1] != text[at] {
        2
    } else {
        1
    }
}

/// The text without the end of line that it begins with, if it does.
pub fn behind_line_end(text: &[u8]) -> &[u8]
    ensures { result.now ≡ behind_line_end text.now }
{
    if !text.is_empty() && is_line_end(text[0]) {
        behind(text, end_len(text, 0))
    } else {
        text
    }
}

/// The text with each end of line read as `\n`.
pub fn read_lines(alloc: Global, text: &[u8]) -> Result<Vec<u8>, AllocError>
    ensures { IfOk result (λ read. read.items ≡ read_lines text.now) }
{
    let mut out = Vec::new(alloc);
    let mut at = push_line(&mut out, text)?;
    while at < text.len() {
        out.push(b'\n')?;
        at += end_len(text, at);
        at += push_line(&mut out, behind(text, at))?;
    }
    Ok(out)
}

// Adds what stands in front of the first end of line, and says how many bytes that is.
fn push_line(out: &mut Vec<u8>, text: &[u8]) -> Result<usize, AllocError>
    ensures value { IfOk result (λ len. len ≡ position_or_len is_line_end text.now) }
    ensures bound { IfOk result (λ len. len ≤ length text.now) }
    ensures pushed { IfOk result (λ len. out.new.items ≡ out.old.items ++ take len text.now) }
{
    let len = line_len(text);
    out.extend_from_slice(&text[..len])?;
    Ok(len)
}

// How many ends of lines the text has. Most texts that stand between tokens have one byte or none.
fn line_ends(text: &[u8]) -> usize
    ensures count { result ≡ line_ends text.now }
    ensures bound { result ≤ length text.now }
{
    match text {
        [] => 0,
        [byte] => usize::from(is_line_end(*byte)),
        _ => found_line_ends(text),
    }
}

// How many ends of lines the text has, found one after another.
fn found_line_ends(text: &[u8]) -> usize
    ensures count { result ≡ line_ends text.now }
    ensures bound { result ≤ length text.now }
{
    let mut count = 0;
    let mut at = line_len(text);
    while at < text.len() {
        count += 1;
        at += end_len(text, at);
        at += line_len(behind(text, at));
    }
    count
}
