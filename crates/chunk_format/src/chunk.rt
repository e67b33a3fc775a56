// Whole chunks and functions, read and written.
ghost use Rattle.std.specs.Prelude.{◌≡◌, ◌++◌, ℕ, None, IfOk, OnOk};
ghost use Rattle.code_core.specs.Prototype.{Prototype};
ghost use Rattle.code_core.specs.Writable.{Writable};
ghost use Rattle.chunk_format.specs.Grammar.{ChunkOf, WholeOf, BeginsWith};
ghost use Rattle.chunk_format.specs.Reading.{Says, chunk_kind, function_kind};
ghost use Rattle.chunk_format.specs.Reading as reading;
ghost use Rattle.chunk_format.specs.Spelling.{kept};
ghost use Rattle.chunk_format.specs.Spelling as spelled;
ghost use Rattle.chunk_format.specs.Views.{KindIs, Answers};

use crate::dump::write;
use crate::fault::ChunkFault;
use crate::function::function;
use crate::input::Input;
use code_core::Proto;
use int_core::Allocated;
use std::alloc::Global;

/// The first four bytes of a chunk.
const SIGNATURE: [u8; 4] = [0x1b, 0x4c, 0x75, 0x61];

/// The version, 5.4.
const VERSION: [u8; 1] = [0x54];

/// The format, 0, and the data bytes.
const FORMAT: [u8; 7] = [0, 0x19, 0x93, 0x0d, 0x0a, 0x1a, 0x0a];

/// The sizes of an instruction, an integer and a float, and the test numbers 0x5678 and 370.5.
const SIZES: [u8; 19] = [
    4, 8, 8, 0x78, 0x56, 0, 0, 0, 0, 0, 0, 0, 0, 0, 0, 0, 0x28, 0x77, 0x40,
];

/// How deep functions can be nested.
const GREATEST_DEPTH: u32 = 500;

/// How many functions a chunk can have.
const MOST_FUNCTIONS: u32 = 0x7fff_ffff;

/// Reads the chunk with which the bytes begin (`lundump.c` of Lua 5.4). Bytes behind it are not read.
pub fn read_chunk(alloc: Global, bytes: &[u8]) -> Result<Proto, ChunkFault>
    ensures found { IfOk result (λ proto. (n : ℕ) × BeginsWith ChunkOf proto n bytes.now) }
    ensures only { (proto : Prototype) (n : ℕ) → BeginsWith ChunkOf proto n bytes.now → Answers proto result }
    ensures kind { KindIs (chunk_kind bytes.now) result }
{
    let mut input = Input::new(bytes);
    read_main(alloc, &mut input)
}

/// Reads the function with which the bytes begin, laid out as in a chunk without its header, and counts the bytes that it takes.
pub fn read_function(alloc: Global, bytes: &[u8]) -> Result<(Proto, usize), ChunkFault>
    ensures found { IfOk result (λ found. BeginsWith WholeOf found.0 found.1 bytes.now) }
    ensures only { (proto : Prototype) (n : ℕ) → BeginsWith WholeOf proto n bytes.now → Answers (proto, n) result }
    ensures kind { KindIs (function_kind bytes.now) result }
{
    let mut input = Input::new(bytes);
    match read_whole(alloc, &mut input) {
        Ok(proto) => Ok((proto, bytes.len() - input.len())),
        Err(fault) => Err(fault),
    }
}

/// Writes a chunk (`ldump.c` of Lua 5.4), without its source, lines and names where it is stripped.
pub fn write_chunk(alloc: Global, proto: &Proto, strip: bool) -> Allocated<Vec<u8>>
    requires { Writable proto.now }
    ensures spelling { IfOk result (λ bytes. bytes.items ≡ spelled.chunk (kept strip proto.now)) }
    ensures in_grammar { IfOk result (λ bytes. ChunkOf (kept strip proto.now) bytes.items) }
{
    let mut out = Vec::new(alloc);
    write_header(&mut out, proto)?;
    write(&mut out, &None, proto, strip)?;
    Ok(out)
}

/// Writes a function as in a chunk, without a header.
pub fn write_function(alloc: Global, proto: &Proto) -> Allocated<Vec<u8>>
    requires { Writable proto.now }
    ensures spelling { IfOk result (λ bytes. bytes.items ≡ spelled.function None proto.now) }
    ensures in_grammar { IfOk result (λ bytes. WholeOf proto.now bytes.items) }
{
    let mut out = Vec::new(alloc);
    write(&mut out, &None, proto, false)?;
    Ok(out)
}

/// Reads a header and the function behind it.
fn read_main(alloc: Global, input: &mut Input) -> Result<Proto, ChunkFault>
    ensures reads { Says (reading.read_chunk input.old) result input.new }
{
    read_header(input)?;
    read_whole(alloc, input)
}

/// Reads a function that stands in no other.
fn read_whole(alloc: Global, input: &mut Input) -> Result<Proto, ChunkFault>
    ensures reads { Says (reading.read_whole input.old) result input.new }
{
    let mut left = MOST_FUNCTIONS;
    function(alloc, input, GREATEST_DEPTH, &mut left, &None)
}

/// Reads a header and gives its last byte.
fn read_header(input: &mut Input) -> Result<u8, ChunkFault>
    ensures reads { Says (reading.read_header input.old) result input.new }
{
    read_exactly(input, &SIGNATURE, 1)?;
    read_exactly(input, &VERSION, 2)?;
    read_exactly(input, &FORMAT, 3)?;
    read_exactly(input, &SIZES, 4)?;
    input.byte()
}

/// Reads these very bytes, and refuses others by a kind.
fn read_exactly(input: &mut Input, text: &[u8], kind: u8) -> Result<(), ChunkFault>
    ensures reads { Says (reading.read_exactly text.now kind input.old) result input.new }
{
    for byte in text {
        match input.byte() {
            Ok(found) => {
                if found != *byte {
                    return Err(ChunkFault::Refused { kind });
                }
            }
            Err(fault) => return Err(fault),
        }
    }
    Ok(())
}

/// Writes a header, with the number of main's upvalues at its end.
fn write_header(out: &mut Vec<u8>, main: &Proto) -> Allocated<()>
    requires { Writable main.now }
    ensures { OnOk result (out.new.items ≡ out.old.items ++ spelled.header main.now) }
{
    out.extend_from_slice(&SIGNATURE)?;
    out.extend_from_slice(&VERSION)?;
    out.extend_from_slice(&FORMAT)?;
    out.extend_from_slice(&SIZES)?;
    out.push(main.upvalues.len() as u8)?;
    Ok(())
}
