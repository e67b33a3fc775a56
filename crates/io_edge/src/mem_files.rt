// Files in memory, for tests.
use crate::device::Files;
use crate::fault::{Failed, FileFault};
use crate::schedule::Schedule;
use int_core::Numbers;
use std::alloc::{AllocError, Global};
use std::collections::BTreeMap;

/// Files that tell what they hold, and of which the listed calls of `get` and `put`, counted together, fail.
#[derive(Debug, Drop)]
pub struct MemFiles {
    files: BTreeMap<String, Vec<u8>>,
    alloc: Global,
    schedule: Schedule,
}

impl MemFiles {
    ghost use Rattle.std.specs.Prelude.{◌≡◌, None, OnErr, OnOk, ℕ, List};
    ghost use Rattle.std.specs.Option.{option_map};
    ghost use Rattle.io_edge.specs.Schedules.{files_held, files_schedule, untouched};
    ghost use Rattle.io_edge.specs.Content.{with_file};

    /// No files. `failing` lists the numbers of the calls that are to fail, from 0.
    pub fn new(alloc: Global, failing: Numbers) -> MemFiles
        ensures held { (name : List ℕ) → files_held result name ≡ None }
        ensures schedule { files_schedule result ≡ untouched failing }
    {
        MemFiles {
            files: BTreeMap::new(alloc),
            alloc,
            schedule: Schedule::new(failing),
        }
    }

    /// The bytes of a file.
    pub fn file(&self, name: &str) -> Option<&[u8]>
        ensures { option_map (λ file. file.now) result ≡ files_held self.now name.now }
    {
        self.files.get(name).map(|file| file.as_slice())
    }

    /// How many calls of `get` and `put` there have been, which stops at 2^64 - 1.
    pub fn calls(&self) -> u64
        ensures { result ≡ (files_schedule self.now).calls }
    {
        self.schedule.calls()
    }

    /// Puts a copy of the bytes into the map.
    fn keep(&mut self, name: &str, bytes: &[u8]) -> Result<(), AllocError>
        ensures replaced { OnOk result (files_held self.new ≡ with_file (files_held self.old) name.now bytes.now) }
        ensures failed { OnErr result (files_held self.new ≡ files_held self.old) }
        ensures schedule { files_schedule self.new ≡ files_schedule self.old }
    {
        let name = String::from_str(self.alloc, name)?;
        let file = Vec::from_slice(self.alloc, bytes)?;
        self.files.insert(name, file)?;
        Ok(())
    }
}

impl Files for MemFiles {
    ghost use Rattle.std.specs.Prelude.{◌≡◌, ◌↔◌, ◌⊎◌, Some, None, IfOk, IsErr, IsErrOf, IsTrue, OnErr, OnOk, is_err};
    ghost use Rattle.std.specs.Bool.{OnTrue, OnFalse};
    ghost use Rattle.io_edge.specs.Causes.{HasCause, is_failed};
    ghost use Rattle.io_edge.specs.Content.{KeepsOtherFiles, with_file};
    ghost use Rattle.io_edge.specs.Schedules.{Counted, files_held, files_schedule, is_listed};

    ghost faults = { λ files. (files_schedule files).faults };

    ghost held = { λ files. Some (files_held files) };

    fn get(&mut self, alloc: Global, name: &str) -> Result<Vec<u8>, FileFault>
        ensures cause { HasCause (files_schedule self.old).faults (files_schedule self.new).faults (is_failed result) }
        ensures found { IfOk result (λ file. files_held self.old name.now ≡ Some file.items) }
        ensures absent { IsErrOf result FileFault.Absent → files_held self.old name.now ≡ None }
        ensures lacking { files_held self.old name.now ≡ None → IsErrOf result FileFault.Absent ⊎ IsErrOf result FileFault.Failed }
        ensures kept { files_held self.new ≡ files_held self.old }
        ensures listed { is_failed result ≡ is_listed (files_schedule self.old) }
        ensures counted { Counted (files_schedule self.old) (files_schedule self.new) }
    {
        self.schedule.begin_call()?;
        match self.files.get(name) {
            Some(file) => Ok(Vec::from_slice(alloc, file.as_slice())?),
            None => Err(FileFault::Absent),
        }
    }

    /// Also fails, as a counted fault, where there is no memory for the file; the files are as before then.
    fn put(&mut self, name: &str, bytes: &[u8]) -> Result<(), Failed>
        ensures cause { HasCause (files_schedule self.old).faults (files_schedule self.new).faults (is_err result) }
        ensures replaced { OnOk result (files_held self.new ≡ with_file (files_held self.old) name.now bytes.now) }
        ensures failed { OnErr result (KeepsOtherFiles name.now (Some (files_held self.old)) (Some (files_held self.new))) }
        ensures kept { OnErr result (files_held self.new ≡ files_held self.old) }
        ensures listed { IsTrue (is_listed (files_schedule self.old)) → IsErr result }
        ensures counted { Counted (files_schedule self.old) (files_schedule self.new) }
    {
        self.schedule.begin_call()?;
        match self.keep(name, bytes) {
            Ok(()) => Ok(()),
            Err(AllocError) => Err(self.schedule.fail()),
        }
    }
}
