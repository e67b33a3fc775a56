// A script of many small functions, each of which is made and called once.
ghost use Rattle.std.specs.Prelude.{◌≡◌, ◌++◌, ◌<◌, IfOk, OnOk};
ghost use Rattle.work_script.specs.Script.{work_line, work_lines, work_script as text_of};

use itoa::Buffer;
use std::alloc::{AllocError, Global};

/// The script with so many functions. It prints the sum of the numbers from 1 to `count`.
pub fn work_script(alloc: Global, count: u32) -> Result<Vec<u8>, AllocError>
    ensures { IfOk result (λ text. text.items ≡ text_of count) }
{
    let mut text = Vec::from_slice(alloc, b"local s=0\n")?;
    append_lines(&mut text, count)?;
    text.extend_from_slice(b"print(s)\n")?;
    Ok(text)
}

/// Puts a line for each function at the end.
fn append_lines(text: &mut Vec<u8>, count: u32) -> Result<(), AllocError>
    ensures { OnOk result (text.new.items ≡ text.old.items ++ work_lines count) }
{
    for before in 0..count {
        append_line(text, before + 1)?;
    }
    Ok(())
}

/// Puts the line at the end that makes a function which adds a number, and calls it.
fn append_line(text: &mut Vec<u8>, number: u32) -> Result<(), AllocError>
    ensures { OnOk result (text.new.items ≡ text.old.items ++ work_line number) }
{
    text.extend_from_slice(b"do local function f(x) return x+")?;
    text.extend_from_slice(Buffer::new().format(number).as_bytes())?;
    text.extend_from_slice(b" end s=f(s) end\n")?;
    Ok(())
}
