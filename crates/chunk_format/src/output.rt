// The smallest things in a chunk, written at the end of a vector.
ghost use Rattle.std.specs.Prelude.{◌≡◌, ◌<◌, ◌++◌, OnOk};
ghost use Rattle.std.specs.Int.{w64, cast_unsigned};
ghost use Rattle.byteorder.specs.Endian.{little_bytes};
ghost use Rattle.chunk_format.specs.Spelling.{group, number, name};

use byteorder::{ByteOrder, LittleEndian};
use int_core::{Allocated, Bytes};

/// Writes a group of a number, unless it and all groups above it are zero.
fn write_group(out: &mut Vec<u8>, low: u32, n: usize) -> Allocated<()>
    requires { low < 64 }
    ensures { OnOk result (out.new.items ≡ out.old.items ++ group low n) }
{
    let rest = n >> low;
    if rest != 0 {
        out.push((rest & 0x7f) as u8)?;
    }
    Ok(())
}

/// Writes a number by groups of seven bits, the last of which has its high bit set.
pub fn write_number(out: &mut Vec<u8>, n: usize) -> Allocated<()>
    ensures { OnOk result (out.new.items ≡ out.old.items ++ number n) }
{
    write_group(out, 28, n)?;
    write_group(out, 21, n)?;
    write_group(out, 14, n)?;
    write_group(out, 7, n)?;
    out.push((n & 0x7f | 0x80) as u8)?;
    Ok(())
}

/// Writes a string, or none.
pub fn write_name(out: &mut Vec<u8>, text: &Option<Bytes>) -> Allocated<()>
    ensures { OnOk result (out.new.items ≡ out.old.items ++ name text.now) }
{
    match text {
        None => write_number(out, 0),
        Some(text) => write_text(out, text),
    }
}

/// Writes a string.
pub fn write_text(out: &mut Vec<u8>, text: &Bytes) -> Allocated<()>
    ensures { OnOk result (out.new.items ≡ out.old.items ++ name (Some text.now)) }
{
    let bytes = text.as_slice();
    write_number(out, bytes.len() + 1)?;
    out.extend_from_slice(bytes)?;
    Ok(())
}

/// Writes a number of 32 bits.
pub fn write_word(out: &mut Vec<u8>, word: u32) -> Allocated<()>
    ensures { OnOk result (out.new.items ≡ out.old.items ++ little_bytes 4 word) }
{
    let mut bytes = [0; 4];
    LittleEndian::write_u32(&mut bytes, word);
    out.extend_from_slice(&bytes)?;
    Ok(())
}

/// Writes an integer of 64 bits.
pub fn write_integer(out: &mut Vec<u8>, n: i64) -> Allocated<()>
    ensures { OnOk result (out.new.items ≡ out.old.items ++ little_bytes 8 (cast_unsigned w64 n)) }
{
    let mut bytes = [0; 8];
    LittleEndian::write_i64(&mut bytes, n);
    out.extend_from_slice(&bytes)?;
    Ok(())
}
