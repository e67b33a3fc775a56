// The captures that a pattern has opened so far while it is read.
use std::alloc::{AllocError, Global};
use std::marker::Model;

/// How many captures were opened, and which are open. Contracts see both.
#[derive(Drop)]
pub(crate) struct Scope {
    opened: usize,
    unclosed: Vec<usize>,
}

impl Model for Scope {
    ghost use Rattle.lua_pattern.specs.Scope.{Scope as Shown};

    ghost Value = { Shown };

    ghost view = { λ scope. record { opened = scope.opened; unclosed = scope.unclosed.items } };
}

impl Scope {
    ghost use Rattle.std.specs.Prelude.{◌≡◌, ◌<◌, ◌^◌, ◌+◌, not, is_some, IfSome, IfNone, OnSome, OnOk};
    ghost use Rattle.lua_pattern.specs.Scope.{closes, empty_scope, ended_before, innermost, is_closed, opens, with_place};

    /// No capture.
    pub fn new(alloc: Global) -> Scope
        ensures { result ≡ empty_scope }
    {
        Scope {
            opened: 0,
            unclosed: Vec::new(alloc),
        }
    }

    /// How many captures were opened.
    pub fn opened(&self) -> usize
        ensures { result ≡ self.now.opened }
    {
        self.opened
    }

    /// Whether no capture is open.
    pub fn is_closed(&self) -> bool
        ensures { result ≡ is_closed self.now }
    {
        self.unclosed.is_empty()
    }

    /// Opens the next capture.
    pub fn open(&mut self) -> Result<(), AllocError>
        requires { self.old.opened < 2 ^ 32 }
        ensures { OnOk result (self.new ≡ opens self.old) }
    {
        self.unclosed.push(self.opened)?;
        self.opened += 1;
        Ok(())
    }

    /// Counts a capture that is a place, which is never open.
    pub fn place(&mut self)
        requires { self.old.opened < 2 ^ 32 }
        ensures { self.new ≡ with_place self.old }
    {
        self.opened += 1;
    }

    /// Closes the capture that was opened last, and gives its number.
    pub fn close(&mut self) -> Option<usize>
        ensures told { is_some result ≡ not (is_closed self.old) }
        ensures number { IfSome result (λ number. number ≡ innermost self.old) }
        ensures closed { OnSome result (self.new ≡ closes self.old) }
        ensures kept { IfNone result (self.new ≡ self.old) }
    {
        self.unclosed.pop()
    }

    /// Whether the capture of a number was opened and has ended.
    pub fn has_ended(&self, number: usize) -> bool
        ensures { result ≡ ended_before self.now number }
    {
        number < self.opened && !self.unclosed.contains(&number)
    }
}
