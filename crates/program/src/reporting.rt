// The line of a fault.
ghost use Rattle.std.specs.Prelude.{◌≡◌, ◌++◌, codes, decimal, flat_map, OnErr, OnOk, is_err};
ghost use Rattle.std.specs.Option.{option_map};
ghost use Rattle.io_edge.specs.Causes.{HasCause};
ghost use Rattle.io_edge.specs.Content.{GrowsByFront};
ghost use Rattle.program.specs.Lines.{part_text};
ghost use Rattle.program.specs.Report.{line_of_fault};

use crate::fault::Fault;
use graph_core::{PermanentKey, item_at};
use io_edge::{Failed, Sink, write_all};
use itoa::Buffer;

/// A part of a line.
#[derive(Clone, Copy)]
enum Part<'a> {
    Text(&'a [u8]),
    Number(u32),
    Key(&'a PermanentKey),
}

/// No part.
const NONE: Part<'static> = Part::Text(b"");

/// The end of a line.
const END: Part<'static> = Part::Text(b"\n");

/// Writes the line of a fault, without taking memory. A failed write leaves a prefix of the line.
pub fn report<E: Sink>(err: &mut E, fault: &Fault) -> Result<(), Failed>
    ensures cause { HasCause (E.faults err.old) (E.faults err.new) (is_err result) }
    ensures written { OnOk result (E.written err.new ≡ option_map (λ text. text ++ line_of_fault fault.now) (E.written err.old)) }
    ensures front { OnErr result (GrowsByFront (line_of_fault fault.now) (E.written err.old) (E.written err.new)) }
{
    let parts = parts_of(fault);
    write_parts(err, &parts)
}

/// The parts of the line of a fault, of which the last ones may be empty.
fn parts_of(fault: &Fault) -> [Part<'_>; 7]
    ensures { line_of_fault fault.now ≡ flat_map part_text result }
{
    match fault {
        Fault::Words => alone(b"luaris: wrong words\n"),
        Fault::Refused { line } => numbered(b"luaris: source refused at line ", *line),
        Fault::Rule { rule, line } => [
            Part::Text(b"luaris: source refused by rule "),
            Part::Number(u32::from(*rule)),
            Part::Text(b" at line "),
            Part::Number(*line),
            END,
            NONE,
            NONE,
        ],
        Fault::Spent => alone(b"luaris: budget spent\n"),
        Fault::Device => alone(b"luaris: device fault\n"),
        Fault::InputLimit => alone(b"luaris: input limit\n"),
        Fault::TooLarge => alone(b"luaris: image too large\n"),
        Fault::NoChunk { kind } => numbered(b"luaris: chunk refused: kind ", u32::from(*kind)),
        Fault::BrokenRule { function, pc, rule } => [
            Part::Text(b"luaris: chunk refused: rule "),
            Part::Number(u32::from(*rule)),
            Part::Text(b" at function "),
            Part::Number(*function),
            Part::Text(b" pc "),
            Part::Number(*pc),
            END,
        ],
        Fault::NoImage { kind } => numbered(b"luaris: image refused: kind ", u32::from(*kind)),
        Fault::NoPermanent { kind, key } => [
            Part::Text(b"luaris: image refused: kind "),
            Part::Number(u32::from(*kind)),
            Part::Text(b" key "),
            Part::Key(key),
            END,
            NONE,
            NONE,
        ],
        Fault::Memory => alone(b"luaris: out of memory\n"),
        Fault::Absent => alone(b"luaris: no such file\n"),
        Fault::Prelude => alone(b"luaris: prelude refused\n"),
    }
}

/// A line that is one text.
fn alone(line: &[u8]) -> [Part<'_>; 7]
    ensures { line.now ≡ flat_map part_text result }
{
    [Part::Text(line), NONE, NONE, NONE, NONE, NONE, NONE]
}

/// A line of a text and a number.
fn numbered(text: &[u8], number: u32) -> [Part<'_>; 7]
    ensures { text.now ++ (decimal number ++ codes "\n") ≡ flat_map part_text result }
{
    [
        Part::Text(text),
        Part::Number(number),
        END,
        NONE,
        NONE,
        NONE,
        NONE,
    ]
}

/// Writes parts one after another.
fn write_parts<E: Sink>(err: &mut E, parts: &[Part<'_>]) -> Result<(), Failed>
    ensures cause { HasCause (E.faults err.old) (E.faults err.new) (is_err result) }
    ensures written { OnOk result (E.written err.new ≡ option_map (λ text. text ++ flat_map part_text parts.now) (E.written err.old)) }
    ensures front { OnErr result (GrowsByFront (flat_map part_text parts.now) (E.written err.old) (E.written err.new)) }
{
    for at in 0..parts.len() {
        write_part(err, item_at(parts, at))?;
    }
    Ok(())
}

/// Writes a part.
fn write_part<E: Sink>(err: &mut E, part: Part<'_>) -> Result<(), Failed>
    ensures cause { HasCause (E.faults err.old) (E.faults err.new) (is_err result) }
    ensures written { OnOk result (E.written err.new ≡ option_map (λ text. text ++ part_text part.entry) (E.written err.old)) }
    ensures front { OnErr result (GrowsByFront (part_text part.entry) (E.written err.old) (E.written err.new)) }
{
    match part {
        Part::Text(text) => write_all(err, text),
        Part::Number(number) => write_all(err, Buffer::new().format(number).as_bytes()),
        Part::Key(PermanentKey::Number(number)) => {
            write_all(err, Buffer::new().format(*number).as_bytes())
        }
        Part::Key(PermanentKey::Text(text)) => write_all(err, text.as_slice()),
    }
}
