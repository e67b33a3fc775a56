// Texts of as many bytes as another one, and single bytes (Lua 5.4 manual, 6.4).
ghost use Rattle.std.specs.Prelude.{◌≡◌, IfOk, map, reverse};
ghost use Rattle.library_rows.specs.Strings.{lower_byte, upper_byte};
ghost use Rattle.text_functions.specs.Made.{IsByteOf};

use std::alloc::{AllocError, Global};

/// The text with small letters in place of capitals, in ASCII.
pub fn lowered(alloc: Global, text: &[u8]) -> Result<Vec<u8>, AllocError>
    ensures { IfOk result (λ bytes. bytes.items ≡ map lower_byte text.now) }
{
    text.iter().map(|byte| lower_byte(*byte)).collect(alloc)
}

/// The text with capitals in place of small letters, in ASCII.
pub fn uppered(alloc: Global, text: &[u8]) -> Result<Vec<u8>, AllocError>
    ensures { IfOk result (λ bytes. bytes.items ≡ map upper_byte text.now) }
{
    text.iter().map(|byte| upper_byte(*byte)).collect(alloc)
}

/// The bytes of a text from the last to the first.
pub fn reversed(alloc: Global, text: &[u8]) -> Result<Vec<u8>, AllocError>
    ensures { IfOk result (λ bytes. bytes.items ≡ reverse text.now) }
{
    let mut bytes = text.to_vec(alloc)?;
    bytes.reverse();
    Ok(bytes)
}

/// The byte of an integer, where it is one from 0 to 255.
pub fn byte_of(value: i64) -> Option<u8>
    ensures { IsByteOf value result }
{
    if 0 <= value && value < 256 {
        Some(value as u8)
    } else {
        None
    }
}

fn lower_byte(byte: u8) -> u8
    ensures { result ≡ lower_byte byte }
{
    if 65 <= byte && byte <= 90 {
        byte + 32
    } else {
        byte
    }
}

fn upper_byte(byte: u8) -> u8
    ensures { result ≡ upper_byte byte }
{
    if 97 <= byte && byte <= 122 {
        byte - 32
    } else {
        byte
    }
}
