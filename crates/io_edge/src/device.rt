// The devices as traits: each counts its faults, and may tell what it holds.
ghost use Rattle.std.specs.Prelude.{◌≡◌, ◌<◌, ◌≤◌, ◌++◌, ◌⊎◌, ℕ, List, Option, [], None, Some, IfOk, IfSome, IsErrOf, OnErr, OnOk, length, is_err, take};
ghost use Rattle.std.specs.Bool.{OnFalse, OnTrue};
ghost use Rattle.std.specs.Option.{option_map};
ghost use Rattle.io_edge.specs.Causes.{HasCause, is_failed};
ghost use Rattle.io_edge.specs.Content.{FileMap, KeepsOtherFiles, MayEndTelling, with_file};

use crate::fault::{Failed, FileFault};
use std::alloc::Global;

/// What a program reads its input from.
///
/// A device may tell what it holds, as `Some`. Whether it does changes in no call that succeeds, and a call
/// that answers `Failed` may end it.
pub trait Source {
    /// How many times the source failed, which stops at 2^64 - 1.
    ghost faults: { Self → ℕ };

    /// The bytes that are left to read, where the source tells them.
    ghost left: { Self → Option (List ℕ) };

    /// Reads the next bytes into the front of `buf`, and answers their number. Into a buffer that isn't empty
    /// that is 0 only at the end of the input.
    ///
    /// # Errors
    ///
    /// `Failed` where the source fails, which takes no byte.
    fn read(&mut self, buf: &mut [u8]) -> Result<usize, Failed>
        ensures cause { HasCause (faults self.old) (faults self.new) (is_err result) }
        ensures within { IfOk result (λ count. count ≤ length buf.new) }
        ensures taken { IfOk result (λ count. left self.old ≡ option_map (λ rest. take count buf.new ++ rest) (left self.new)) }
        ensures end { IfOk result (λ count. count ≡ 0 → 0 < length buf.new → IfSome (left self.old) (λ rest. rest ≡ [])) }
        ensures failed { OnErr result (MayEndTelling (left self.old) (left self.new)) };
}

/// What a program writes its output to.
pub trait Sink {
    /// How many times the sink failed, which stops at 2^64 - 1.
    ghost faults: { Self → ℕ };

    /// The bytes written so far, where the sink tells them.
    ghost written: { Self → Option (List ℕ) };

    /// Appends a front of `bytes`, and answers its length, which is 0 only where there are no bytes.
    ///
    /// # Errors
    ///
    /// `Failed` where the sink fails, which appends no byte.
    fn write(&mut self, bytes: &[u8]) -> Result<usize, Failed>
        ensures cause { HasCause (faults self.old) (faults self.new) (is_err result) }
        ensures within { IfOk result (λ count. count ≤ length bytes.now) }
        ensures some { IfOk result (λ count. 0 < length bytes.now → 0 < count) }
        ensures appended { IfOk result (λ count. written self.new ≡ option_map (λ text. text ++ take count bytes.now) (written self.old)) }
        ensures failed { OnErr result (MayEndTelling (written self.old) (written self.new)) };
}

/// The files of a program, by their names.
pub trait Files {
    /// How many times the files failed, which stops at 2^64 - 1.
    ghost faults: { Self → ℕ };

    /// The bytes of each file, by the bytes of its name, where the files tell them.
    ghost held: { Self → Option FileMap };

    /// Reads a whole file.
    ///
    /// # Errors
    ///
    /// `Failed` where the device fails, `Absent` where there is no file of that name, and `Memory` where there
    /// is no memory for its bytes. Only `Failed` counts.
    fn get(&mut self, alloc: Global, name: &str) -> Result<Vec<u8>, FileFault>
        ensures cause { HasCause (faults self.old) (faults self.new) (is_failed result) }
        ensures found { IfOk result (λ file. IfSome (held self.old) (λ files. files name.now ≡ Some file.items)) }
        ensures absent { IsErrOf result FileFault.Absent → IfSome (held self.old) (λ files. files name.now ≡ None) }
        ensures lacking { IfSome (held self.old) (λ files. files name.now ≡ None → IsErrOf result FileFault.Absent ⊎ IsErrOf result FileFault.Failed) }
        ensures kept { OnFalse (is_failed result) (held self.new ≡ held self.old) }
        ensures failed { OnTrue (is_failed result) (MayEndTelling (held self.old) (held self.new)) };

    /// Makes these bytes the whole file of that name, whether or not there was one.
    ///
    /// # Errors
    ///
    /// `Failed` where the device fails. Of that one file nothing is known then; the others are as before.
    fn put(&mut self, name: &str, bytes: &[u8]) -> Result<(), Failed>
        ensures cause { HasCause (faults self.old) (faults self.new) (is_err result) }
        ensures replaced { OnOk result (held self.new ≡ option_map (λ files. with_file files name.now bytes.now) (held self.old)) }
        ensures failed { OnErr result (KeepsOtherFiles name.now (held self.old) (held self.new)) };
}
