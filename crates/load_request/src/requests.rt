// What the arguments of `load` ask for (Lua 5.4 manual, 6.1).
ghost use Rattle.std.specs.Prelude.{◌≡◌};
ghost use Rattle.code_core.specs.Prototype.{Prototype};
ghost use Rattle.load_rows.specs.Loading.{Builds, admits_sources, builds_source, fitted, is_binary};
ghost use Rattle.library_arguments.specs.Shapes.{bytes_in, shape_of};
ghost use Rattle.load_request.specs.Requests.{IsRequest, loaded_as};

use library_arguments::{Refusal, Shape, Text, text_argument, text_or};

/// What is to be done.
#[derive(Debug, Drop)]
pub enum Request<'a> {
    /// A source is to be built, under this name.
    Build {
        /// The name, which is `[string]` where none is given.
        name: Text<'a>,
        /// The source.
        source: Text<'a>,
    },
    /// Nothing is loaded, as this mode admits no sources.
    Mode(Text<'a>),
    /// Nothing is loaded, as the bytes are those of a binary chunk.
    Binary,
}

/// What the first three arguments ask for: a source, its name, and the mode.
///
/// # Errors
///
/// The first of them in this order that is no string and no integer, where the second and the third may be nil.
pub fn asked<'a>(chunk: Shape<'a>, name: Shape<'a>, mode: Shape<'a>) -> Result<Request<'a>, Refusal>
    ensures { IsRequest result (shape_of chunk.entry) (shape_of name.entry) (shape_of mode.entry) }
{
    let source = text_argument(b"load", 1, chunk)?;
    let name = text_or(b"[string]", b"load", 2, name)?;
    let mode = text_or(b"bt", b"load", 3, mode)?;
    Ok(admitted(name, mode, source))
}

/// What is to be done with a source by the mode: the mode is looked at first.
fn admitted<'a>(name: Text<'a>, mode: Text<'a>, source: Text<'a>) -> Request<'a>
    ensures { (builds : Builds Prototype) → builds_source builds (fitted (bytes_in name.entry)) (bytes_in mode.entry) (bytes_in source.entry) ≡ loaded_as builds result }
{
    if !admits_sources(mode.as_slice()) {
        return Request::Mode(mode);
    }
    if is_binary(source.as_slice()) {
        return Request::Binary;
    }
    Request::Build { name, source }
}

/// Whether a mode admits sources.
fn admits_sources(mode: &[u8]) -> bool
    ensures { result ≡ admits_sources mode.now }
{
    mode.iter().any(|byte| *byte == b't')
}

/// Whether bytes are those of a binary chunk.
fn is_binary(source: &[u8]) -> bool
    ensures { result ≡ is_binary source.now }
{
    match source {
        [first, ..] => *first == 0x1b,
        [] => false,
    }
}
