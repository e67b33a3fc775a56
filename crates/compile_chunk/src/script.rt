// The script in a file.
ghost use Rattle.std.specs.Prelude.{◌≡◌, ◌≤◌, drop, length};
ghost use Rattle.std.specs.List.{prefix_len};
ghost use Rattle.compile_chunk.specs.Chunk.{begins_with_hash, is_in_line, script_in};

/// The script that a file holds: where its first byte is `#`, what stands from the end of the first line on
/// (Lua 5.4 manual, 7), so lines count as in the file.
pub fn script_in(content: &[u8]) -> &[u8]
    ensures { result.now ≡ script_in content.now }
{
    if begins_with_hash(content) {
        after(content, line_len(content))
    } else {
        content
    }
}

fn begins_with_hash(content: &[u8]) -> bool
    ensures { result ≡ begins_with_hash content.now }
{
    match content {
        [first, ..] => *first == b'#',
        [] => false,
    }
}

/// How many bytes stand before the first end of line.
fn line_len(content: &[u8]) -> usize
    ensures len { result ≡ prefix_len is_in_line content.now }
    ensures within { result ≤ length content.now }
{
    content.iter().take_while(|byte| is_in_line(**byte)).count()
}

fn is_in_line(byte: u8) -> bool
    ensures { result ≡ is_in_line byte }
{
    byte != b'\n' && byte != b'\r'
}

/// What stands after so many bytes.
fn after(content: &[u8], count: usize) -> &[u8]
    requires { count ≤ length content.now }
    ensures { result.now ≡ drop count content.now }
{
    &content[count..]
}
