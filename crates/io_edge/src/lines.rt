// Reading a source line by line.
ghost use Rattle.std.specs.Prelude.{◌≡◌, ◌+◌, ◌^◌, ◌<◌, ◌≤◌, ◌++◌, ◌∷◌, ◌⊎◌, [], false, IfOk, IfSome, IsErrOf, MatchBool, OnOk, drop, is_err, length, take};
ghost use Rattle.std.specs.Bool.{OnFalse, OnTrue};
ghost use Rattle.std.specs.Option.{option_map};
ghost use Rattle.io_edge.specs.Causes.{HasCause};
ghost use Rattle.io_edge.specs.Lines.{BeginsPastLimits, IsUnbroken, IsWithinLimits, TakesLine, Unread, ahead, is_line_failed, taken_with};
ghost use Rattle.io_edge.specs.Parts.{GrowsPastLimits, TakesPart, line_feed};

use crate::device::Source;
use crate::fault::Failed;
use int_core::Bytes;
use memchr::memchr;
use std::alloc::{AllocError, Global};
use std::marker::Model;

/// The greatest number of bytes of a line.
const MAX_LINE_BYTES: usize = 1 << 20;

/// The greatest number of bytes of the input up to the end of a line.
const MAX_INPUT_BYTES: usize = 1 << 30;

/// How many bytes are read ahead at most.
const BUFFER_BYTES: usize = 4096;

/// Why the next line wasn't read.
#[derive(Clone, Copy, Debug, PartialEq, Eq)]
pub enum LineFault {
    /// The source failed, and counted it.
    Failed,
    /// The line has more than 1,048,576 bytes, or the input up to its end more than 2^30.
    Limit,
    /// There is no memory for the line.
    Memory,
}

impl From<Failed> for LineFault {
    ghost use Rattle.io_edge.specs.declared.lines.LineFault.TheVariants.{Failed as failed};

    ghost from_gives = { λ _ fault. fault ≡ failed };

    fn from(_: Failed) -> LineFault {
        LineFault::Failed
    }
}

impl From<AllocError> for LineFault {
    ghost use Rattle.io_edge.specs.declared.lines.LineFault.TheVariants.{Memory as memory};

    ghost from_gives = { λ _ fault. fault ≡ memory };

    fn from(_: AllocError) -> LineFault {
        LineFault::Memory
    }
}

/// A reader of lines, which reads ahead of them. Contracts see the bytes read ahead and how many bytes stand
/// before the next line.
#[derive(Debug, Drop)]
pub struct LineReader {
    buffer: Vec<u8>,
    start: usize,
    end: usize,
    taken: usize,
    alloc: Global,
}

impl Model for LineReader {
    ghost use Rattle.std.specs.Prelude.{◌+◌, ◌^◌, ◌<◌, ◌≤◌, slice_range, vec_len};
    ghost use Rattle.io_edge.specs.Lines.{Unread};

    ghost Value = { Unread };

    ghost view = { λ reader. record { pending = slice_range reader.buffer.items reader.start reader.end; taken = reader.taken } };

    ghost invariant = { λ reader. (reader.start ≤ reader.end) × (reader.end ≤ vec_len reader.buffer) × (0 < vec_len reader.buffer) × (reader.taken ≤ 2 ^ 30 + 1) };
}

impl LineReader {
    /// A reader that stands at the beginning of an input.
    pub fn new(alloc: Global) -> Result<LineReader, AllocError>
        ensures { IfOk result (λ reader. reader ≡ record { pending = []; taken = 0 }) }
    {
        Ok(LineReader {
            buffer: vec![in alloc; 0; BUFFER_BYTES]?,
            start: 0,
            end: 0,
            taken: 0,
            alloc,
        })
    }

    /// Reads the next line, without its line feed. At the end of the input there is none.
    ///
    /// # Errors
    ///
    /// `Failed` where the source fails, `Limit` where the line or the input up to its end is too long, and `Memory`
    /// where there is no memory for the line. After an error the reader is of no use.
    pub fn next_line<S: Source>(&mut self, source: &mut S) -> Result<Option<Bytes>, LineFault>
        ensures cause { HasCause (S.faults source.old) (S.faults source.new) (is_line_failed result) }
        ensures line { IfOk result (λ found. TakesLine found (ahead self.old (S.left source.old)) (ahead self.new (S.left source.new))) }
        ensures within { IfOk result (λ found. IfSome found (λ line. IsWithinLimits self.old.taken line)) }
        ensures taken { IfOk result (λ found. self.new.taken ≡ taken_with self.old.taken found) }
        ensures limit { IsErrOf result LineFault.Limit → IfSome (ahead self.old (S.left source.old)) (λ text. BeginsPastLimits self.old.taken text) }
    {
        let mut line = Vec::new(self.alloc);
        let ended = self.collect_line(source, &mut line)?;
        if !ended && line.is_empty() {
            return Ok(None);
        }
        self.taken += line.len() + 1;
        Ok(Some(Bytes::of(line)))
    }

    /// Reads into `line` up to the next line feed or the end of the input, and answers whether there was a line feed.
    fn collect_line<S: Source>(
        &mut self,
        source: &mut S,
        line: &mut Vec<u8>,
    ) -> Result<bool, LineFault>
        requires { line.old.items ≡ [] }
        ensures cause { HasCause (S.faults source.old) (S.faults source.new) (is_line_failed result) }
        ensures read { IfOk result (λ ended. ahead self.old (S.left source.old) ≡ option_map (λ text. line.new.items ++ (line_feed ended ++ text)) (ahead self.new (S.left source.new))) }
        ensures unbroken { OnOk result (IsUnbroken line.new.items) }
        ensures end { IfOk result (λ ended. ended ≡ false → IfSome (ahead self.new (S.left source.new)) (λ text. text ≡ [])) }
        ensures within { IfOk result (λ ended. (ended ≡ false × line.new.items ≡ []) ⊎ IsWithinLimits self.old.taken line.new.items) }
        ensures taken { self.new.taken ≡ self.old.taken }
        ensures limit { IsErrOf result LineFault.Limit → IfSome (ahead self.old (S.left source.old)) (λ text. BeginsPastLimits self.old.taken text) }
    {
        while self.fill(source)? {
            if self.take_part(line)? {
                return Ok(true);
            }
        }
        Ok(false)
    }

    /// Reads ahead where nothing is pending, and answers whether a byte is pending then.
    fn fill<S: Source>(&mut self, source: &mut S) -> Result<bool, Failed>
        ensures cause { HasCause (S.faults source.old) (S.faults source.new) (is_err result) }
        ensures read { OnOk result (ahead self.new (S.left source.new) ≡ ahead self.old (S.left source.old)) }
        ensures some { IfOk result (λ some. OnTrue some (0 < length self.new.pending)) }
        ensures end { IfOk result (λ some. OnFalse some (IfSome (ahead self.new (S.left source.new)) (λ text. text ≡ []))) }
        ensures taken { self.new.taken ≡ self.old.taken }
    {
        if self.start < self.end {
            return Ok(true);
        }
        let count = source.read(self.buffer.as_mut_slice())?;
        self.start = 0;
        self.end = count;
        Ok(count > 0)
    }

    /// Moves pending bytes to the end of `line`, up to a line feed, which is dropped, and answers whether there is one.
    fn take_part(&mut self, line: &mut Vec<u8>) -> Result<bool, LineFault>
        requires { length line.old.items ≤ 2 ^ 20 }
        ensures part { IfOk result (λ ended. TakesPart self.old.pending self.new.pending line.old.items line.new.items ended) }
        ensures within { OnOk result (IsWithinLimits self.old.taken line.new.items) }
        ensures taken { self.new.taken ≡ self.old.taken }
        ensures limit { IsErrOf result LineFault.Limit → GrowsPastLimits self.old.taken self.old.pending line.old.items }
        ensures not_failed { IsErrOf result LineFault.Failed → ⊥ }
    {
        let (count, ended) = self.next_part();
        let length = line.len() + count;
        if length > MAX_LINE_BYTES {
            return Err(LineFault::Limit);
        }
        if self.taken + length > MAX_INPUT_BYTES {
            return Err(LineFault::Limit);
        }
        line.extend_from_slice(&self.buffer[self.start..self.start + count])?;
        self.start += count + usize::from(ended);
        Ok(ended)
    }

    /// How many pending bytes stand before the first line feed, or how many there are, and whether there is one.
    fn next_part(&self) -> (usize, bool)
        ensures within { result.0 ≤ length self.now.pending }
        ensures unbroken { IsUnbroken (take result.0 self.now.pending) }
        ensures ended { MatchBool result.1 (drop result.0 self.now.pending ≡ 10 ∷ drop (result.0 + 1) self.now.pending) (result.0 ≡ length self.now.pending) }
    {
        let pending = &self.buffer[self.start..self.end];
        match memchr(b'\n', pending) {
            Some(place) => (place, true),
            None => (pending.len(), false),
        }
    }
}
