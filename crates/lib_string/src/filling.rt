// The text of a format, for `string.format`, which is Lua text.
ghost use Rattle.std.specs.Prelude.{◌≡◌, ◌<◌, ◌≤◌, ◌+◌, ◌-◌, ◌^◌, ◌++◌, length, IfOk, OnOk};
ghost use Rattle.int_core.specs.Value.{greatest_string};
ghost use Rattle.library_rows.specs.Formats.{filled_in, kinds_row, layout_row, letters, pieces};
ghost use Rattle.library_arguments.specs.Answers.{IsAnswer};
ghost use Rattle.library_arguments.specs.Shapes.{shapes_of};
ghost use Rattle.lib_string.specs.Pieces.{IsFilled, IsShort, IsText, letter_in, next_place, piece_text, with_more};

use crate::format_reading::{Piece, next_piece};
use crate::formatting::{append_converted, invalid};
use library_arguments::{Fault, Refusal, Results, Shape, argument, text_argument};
use std::alloc::{AllocError, Global};
use text_functions::MAX_TEXT;

/// A format, which is the first argument, filled in from the others. It is private to the libraries' Lua text.
///
/// # Errors
///
/// The first of these, from the front: a conversion that is none, an argument of another type, a piece that has no room; or memory runs
/// out.
pub fn layout(alloc: Global, shapes: &[Shape]) -> Result<Results, Fault>
    ensures { IsAnswer result (layout_row (shapes_of shapes.now)) }
{
    let format = text_argument(b"format", 1, argument(shapes, 1))?;
    let text = filled_in(alloc, format.as_slice(), shapes)?;
    let results = Results::string(text)?;
    Ok(results)
}

/// The letters of a format's conversions. It is private to the libraries' Lua text.
///
/// # Errors
///
/// The argument is no text; or memory runs out.
pub fn kinds(alloc: Global, shapes: &[Shape]) -> Result<Results, Fault>
    ensures { IsAnswer result (kinds_row (shapes_of shapes.now)) }
{
    let format = text_argument(b"format", 1, argument(shapes, 1))?;
    let letters = letters(alloc, format.as_slice())?;
    let results = Results::string(letters)?;
    Ok(results)
}

fn letters(alloc: Global, format: &[u8]) -> Result<Vec<u8>, AllocError>
    ensures { IfOk result (λ text. text.items ≡ letters (pieces 0 format.now)) }
{
    let mut text = Vec::with_capacity(alloc, 8)?;
    let mut rest = format;
    while let Some(next) = next_piece(rest) {
        append_letter(&mut text, &next.piece)?;
        rest = next.rest;
    }
    Ok(text)
}

/// Puts the letter of a conversion at the end.
fn append_letter(text: &mut Vec<u8>, piece: &Piece) -> Result<(), AllocError>
    ensures { OnOk result (text.new.items ≡ text.old.items ++ letter_in piece.now) }
{
    match piece {
        Piece::Conversion(conversion) => {
            text.push(conversion.letter)?;
            Ok(())
        }
        _ => Ok(()),
    }
}

fn filled_in(alloc: Global, format: &[u8], shapes: &[Shape]) -> Result<Vec<u8>, Fault>
    ensures { IsFilled result (filled_in (pieces 0 format.now) (shapes_of shapes.now) 2 greatest_string) }
{
    let mut text = Vec::with_capacity(alloc, format.len().saturating_add(16))?;
    let mut place = 2;
    let mut rest = format;
    while let Some(next) = next_piece(rest) {
        append_piece(&mut text, &next.piece, place, shapes)?;
        check_length(&text)?;
        place = next_place(&next.piece, place);
        rest = next.rest;
    }
    Ok(text)
}

/// The number of the argument that comes next behind a piece.
fn next_place(piece: &Piece, place: usize) -> usize
    requires { place < 2 ^ 64 - 1 }
    ensures value { result ≡ next_place piece.now place }
    ensures least { place ≤ result }
    ensures most { result ≤ place + 1 }
{
    match piece {
        Piece::Conversion(_) => place + 1,
        _ => place,
    }
}

/// Puts a piece at the end of a text.
fn append_piece(
    text: &mut Vec<u8>,
    piece: &Piece,
    place: usize,
    shapes: &[Shape],
) -> Result<(), Fault>
    requires { 0 < place }
    ensures { IsText result text.new.items (with_more text.old.items (piece_text piece.now (shapes_of shapes.now) place)) }
{
    match piece {
        Piece::Literal(byte) => {
            text.push(*byte)?;
            Ok(())
        }
        Piece::Literals(bytes) => {
            text.extend_from_slice(bytes)?;
            Ok(())
        }
        Piece::Conversion(conversion) => {
            append_converted(text, conversion, place, argument(shapes, place))?;
            Ok(())
        }
        Piece::Broken => Err(Fault::Refused(invalid())),
    }
}

/// Whether a text is within the limit on strings.
fn check_length(text: &[u8]) -> Result<(), Refusal>
    ensures { IsShort result (length text.now) }
{
    if text.len() <= MAX_TEXT {
        Ok(())
    } else {
        Err(Refusal::Text(b"resulting string too large"))
    }
}
