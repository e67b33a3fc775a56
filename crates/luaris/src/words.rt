// The arguments that the system starts the program with.
use program::Fault;
use std::env;
use std::io::ErrorKind;

/// The arguments after the program's name. One that is no UTF-8 text is wrong.
pub fn program_words(rt: &HostRuntime) -> Result<Vec<String>, Fault> {
    let args = match env::args(rt) {
        Ok(args) => args,
        Err(error) if error.kind() == ErrorKind::OutOfMemory => return Err(Fault::Memory),
        Err(_) => return Err(Fault::Words),
    };
    let mut words = Vec::new(rt.alloc());
    for word in args.skip(1) {
        words.push(word)?;
    }
    Ok(words)
}
