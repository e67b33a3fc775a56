// The input of a script that reads none.
use io_edge::{Failed, Source};

/// An input without bytes.
#[derive(Drop)]
pub struct NoInput;

impl Source for NoInput {
    ghost use Rattle.std.specs.Prelude.{[], Some};

    ghost faults = { λ _. 0 };

    ghost left = { λ _. Some [] };

    fn read(&mut self, _buf: &mut [u8]) -> Result<usize, Failed> {
        Ok(0)
    }
}
