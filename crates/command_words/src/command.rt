// The commands, and the words that ask for each.
ghost use Rattle.std.specs.Prelude.{◌≡◌, IfSome, None, map, string_bytes};
ghost use Rattle.std.specs.Option.{option_map};
ghost use Rattle.command_words.specs.Kept.{arguments_of, asked};
ghost use Rattle.command_words.specs.Reading.{command_of, command_with};
ghost use Rattle.command_words.specs.Words.{AreShort, AreWrong, IsCommand};

use crate::arguments::Arguments;

/// What words ask for. Each file's name has at most 65,536 bytes.
#[derive(Clone, Copy, Debug, PartialEq, Eq)]
pub enum Command<'a> {
    /// To run the script or the chunk in a file.
    Run {
        /// The file.
        file: &'a str,
        /// How many calls and jumps back each turn may do.
        budget: u64,
        /// The file that the session is saved in where it waits at the end of the input.
        save: Option<&'a str>,
    },
    /// To go on with the session in an image.
    Resume {
        /// The file with the image.
        image: &'a str,
        /// How many calls and jumps back each turn may do.
        budget: u64,
        /// The file that the session is saved in where it waits at the end of the input.
        save: Option<&'a str>,
    },
    /// To check the chunk in a file.
    Check {
        /// The file.
        file: &'a str,
    },
    /// To compile a script into a chunk.
    Compile {
        /// The file with the script.
        script: &'a str,
        /// The file that the chunk is put into.
        chunk: &'a str,
        /// Whether lines and names are left out.
        strip: bool,
    },
    /// To run a script that is work alone.
    Work {
        /// How many functions it makes and calls, from 1 to 10,000.
        count: u32,
    },
}

/// What words ask for, unless they are wrong. The first word names the command: `run FILE [--budget N] [--save IMG]`,
/// `resume IMG [--budget N] [--save IMG2]`, `check FILE`, `compile FILE OUT [--strip]` or `work N`.
/// Options stand before or after the files, each once at most; behind `--` every word is a file.
pub fn read_words(words: &[String]) -> Option<Command<'_>>
    ensures command { IfSome result (λ command. IsCommand (map string_bytes words.now) (asked command)) }
    ensures wrong { result ≡ None → AreWrong (map string_bytes words.now) }
    ensures short { IfSome result (λ command. AreShort (asked command)) }
{
    command_in(words)
}

fn command_in(words: &[String]) -> Option<Command<'_>>
    ensures { option_map asked result ≡ command_of (map string_bytes words.now) }
{
    let (name, rest) = words.split_first()?;
    let arguments = Arguments::read(rest)?;
    command_named(name.as_str(), arguments)
}

fn command_named<'a>(name: &str, arguments: Arguments<'a>) -> Option<Command<'a>>
    ensures { option_map asked result ≡ command_with name.now (arguments_of arguments.entry) }
{
    match name {
        "run" => arguments.to_run(),
        "resume" => arguments.to_resume(),
        "check" => arguments.to_check(),
        "compile" => arguments.to_compile(),
        "work" => arguments.to_work(),
        _ => None,
    }
}
