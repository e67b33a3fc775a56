// The code of a function while it is written.
ghost use Rattle.std.specs.Prelude.{◌≡◌, ◌+◌, ◌-◌, ℕ, List, false, [], ◌∷◌, OnOk, IfOk, length, slice_index_or};
ghost use Rattle.code_core.specs.declared.opcode.Opcode.TheVariants.{Closure};
ghost use Rattle.code_core.specs.Instruction.{abc, op_ax};
ghost use Rattle.code_of.specs.Coded.{Coded, with_abc, with_abx, jump_over, jump_back};
ghost use Rattle.code_emitter.specs.Listing.{Listing, listed, followed, put};
ghost use Rattle.code_emitter.specs.Patches.{set, replaced, jump_to};
ghost use Rattle.code_emitter.specs.Leading.{no_step, led_on};

use crate::word::{word_abc, word_abx, word_ax};
use code_constants::Constants;
use code_core::{Instruction, Opcode};
use int_core::Allocated;
use std::alloc::{AllocError, Global};
use std::marker::Model;

/// An instruction and the line of the source that it belongs to.
#[derive(Clone, Copy, Debug, PartialEq, Eq)]
pub struct Step {
    /// The instruction.
    pub instruction: Instruction,
    /// Its line.
    pub line: u32,
}

/// The code of a function as far as it is written. Contracts see a listing.
#[derive(Drop)]
pub struct Emitter {
    constants: Constants,
    steps: Vec<Step>,
    /// How many functions the code makes.
    made: usize,
    alloc: Global,
}

impl Model for Emitter {
    ghost use Rattle.code_emitter.specs.Listing.{Listing};

    ghost Value = { Listing };

    ghost view = { λ emitter. record { constants = emitter.constants; steps = emitter.steps.items; made = emitter.made } };
}

/// What is written of a function when its code is whole.
#[derive(Drop)]
pub struct Emitted {
    /// The code.
    pub steps: Vec<Step>,
    /// The constants.
    pub constants: Constants,
}

/// The number behind another. For as many things as `usize` counts there is no memory.
pub fn next(number: usize) -> Allocated<usize>
    ensures { IfOk result (λ n. n ≡ number + 1) }
{
    number.checked_add(1).ok_or(AllocError)
}

impl Emitter {
    /// No code yet, for a function with these constants.
    pub fn new(alloc: Global, constants: Constants) -> Emitter
        ensures { result ≡ record { constants = constants; steps = []; made = 0 } }
    {
        Emitter {
            constants,
            steps: Vec::new(alloc),
            made: 0,
            alloc,
        }
    }

    /// The constants of the function.
    pub fn constants(&self) -> &Constants
        ensures { result.now ≡ self.now.constants }
    {
        &self.constants
    }

    /// The allocator of the code.
    pub fn alloc(&self) -> Global {
        self.alloc
    }

    /// The code so far.
    pub fn steps(&self) -> &Vec<Step>
        ensures { result.now.items ≡ self.now.steps }
    {
        &self.steps
    }

    /// How many functions it makes.
    pub fn made(&self) -> usize
        ensures { result ≡ self.now.made }
    {
        self.made
    }

    /// The code with the constants that it names.
    pub fn finish(self) -> Emitted
        ensures steps { result.steps.items ≡ self.steps }
        ensures constants { result.constants ≡ self.constants }
    {
        let Emitter {
            constants,
            steps,
            ..
        } = self;
        Emitted { steps, constants }
    }

    /// Puts an instruction last.
    fn put(&mut self, instruction: Instruction, line: u32) -> Allocated<()>
        ensures { OnOk result (self.new ≡ put self.old (record { instruction = instruction; line = line })) }
    {
        self.steps.push(Step { instruction, line })?;
        Ok(())
    }

    /// Puts a step last.
    pub fn put_step(&mut self, step: Step) -> Allocated<()>
        ensures { OnOk result (self.new ≡ put self.old step) }
    {
        self.steps.push(step)?;
        Ok(())
    }

    /// Puts an instruction with three fields last.
    pub fn put_abc(&mut self, op: Opcode, a: usize, b: usize, c: usize, line: u32) -> Allocated<()>
        ensures { OnOk result (self.new ≡ listed self.old (with_abc op a b c line ∷ [])) }
    {
        self.put(word_abc(op, a, b, c, false), line)
    }

    /// Puts an instruction with three fields and the flag k last.
    pub fn put_flagged(
        &mut self,
        op: Opcode,
        a: usize,
        b: usize,
        c: usize,
        k: bool,
        line: u32,
    ) -> Allocated<()>
        ensures { OnOk result (self.new ≡ listed self.old ((abc op a b c k, line) ∷ [])) }
    {
        self.put(word_abc(op, a, b, c, k), line)
    }

    /// Puts an instruction with a field Bx last.
    pub fn put_abx(&mut self, op: Opcode, a: usize, bx: usize, line: u32) -> Allocated<()>
        ensures { OnOk result (self.new ≡ listed self.old (with_abx op a bx line ∷ [])) }
    {
        self.put(word_abx(op, a, bx), line)
    }

    /// Puts an instruction with a field Ax last.
    pub fn put_ax(&mut self, op: Opcode, ax: usize, line: u32) -> Allocated<()>
        ensures { OnOk result (self.new ≡ listed self.old ((op_ax op ax, line) ∷ [])) }
    {
        self.put(word_ax(op, ax), line)
    }

    /// Puts a jump over some instructions behind it last.
    pub fn put_jump_over(&mut self, places: u32, line: u32) -> Allocated<()>
        ensures { OnOk result (self.new ≡ listed self.old (jump_over places line ∷ [])) }
    {
        self.put_ax(Opcode::Jmp, 16777215 + places as usize, line)
    }

    /// Puts a jump last whose end is not known yet, and answers its place.
    pub fn put_open_jump(&mut self, line: u32) -> Allocated<usize>
        ensures jump { OnOk result (self.new ≡ listed self.old (jump_over 0 line ∷ [])) }
        ensures place { IfOk result (λ place. place ≡ length self.old.steps) }
    {
        let place = self.steps.len();
        self.put_jump_over(0, line)?;
        Ok(place)
    }

    /// Lets the jump at a place lead to the end of the code.
    pub fn land(&mut self, place: usize)
        ensures { (before : Listing) (line : ℕ) (code : List Coded) (made : ℕ) → place ≡ length before.steps → self.old ≡ followed (listed before (jump_over 0 line ∷ [])) code made → self.new ≡ followed before (jump_over (length code) line ∷ code) made }
    {
        if place < self.steps.len() {
            let places = self.steps.len() - place - 1;
            self.steps[place].instruction = word_ax(Opcode::Jmp, 16777215 + places);
        }
    }

    /// Takes back the code from a place on. The functions that it makes stay counted.
    pub fn cut(&mut self, place: usize)
        ensures { (before : Listing) (code : List Coded) (made : ℕ) → place ≡ length before.steps → self.old ≡ followed before code made → self.new ≡ followed before [] made }
    {
        self.steps.truncate(place);
    }

    /// Puts a jump back to an earlier place last.
    pub fn put_jump_back(&mut self, to: usize, line: u32) -> Allocated<()>
        ensures { OnOk result (self.new ≡ listed self.old (jump_back (length self.old.steps + 1 - to) line ∷ [])) }
    {
        let places = (self.steps.len() + 1).saturating_sub(to);
        self.put_ax(Opcode::Jmp, 16777215usize.saturating_sub(places), line)
    }

    /// Puts another instruction at a place.
    fn set(&mut self, place: usize, instruction: Instruction, line: u32)
        ensures { self.new ≡ set self.old place (record { instruction = instruction; line = line }) }
    {
        if place < self.steps.len() {
            self.steps[place] = Step { instruction, line };
        }
    }

    /// Puts another instruction with three fields at a place.
    pub fn set_abc(&mut self, place: usize, op: Opcode, a: usize, b: usize, c: usize, line: u32)
        ensures { self.new ≡ replaced self.old place (with_abc op a b c line) }
    {
        self.set(place, word_abc(op, a, b, c, false), line);
    }

    /// Puts another instruction with a field Bx at a place.
    pub fn set_abx(&mut self, place: usize, op: Opcode, a: usize, bx: usize, line: u32)
        ensures { self.new ≡ replaced self.old place (with_abx op a bx line) }
    {
        self.set(place, word_abx(op, a, bx), line);
    }

    /// Puts a jump to some place at another.
    pub fn set_jump(&mut self, place: usize, to: usize, line: u32) -> Allocated<()>
        ensures { OnOk result (self.new ≡ replaced self.old place (jump_to place to line)) }
    {
        let behind = next(place)?;
        if behind <= to {
            let places = (to - behind).checked_add(16777215).ok_or(AllocError)?;
            self.set(place, word_ax(Opcode::Jmp, places), line);
            return Ok(());
        }
        let places = 16777215usize.saturating_sub(behind - to);
        self.set(place, word_ax(Opcode::Jmp, places), line);
        Ok(())
    }

    /// The line of the instruction at a place, or 0 where none stands.
    fn line_at(&self, place: usize) -> u32
        ensures { result ≡ (slice_index_or self.now.steps place no_step).line }
    {
        if place < self.steps.len() {
            return self.steps[place].line;
        }
        0
    }

    /// Lets the jump at a place lead to another one further on.
    fn lead_one(&mut self, place: usize, to: usize) -> Allocated<()>
        ensures { OnOk result (self.new ≡ led_on self.old (place ∷ []) to) }
    {
        let line = self.line_at(place);
        let places = to.saturating_sub(next(place)?);
        let field = places.checked_add(16777215).ok_or(AllocError)?;
        self.set(place, word_ax(Opcode::Jmp, field), line);
        Ok(())
    }

    /// Lets the jumps at some places lead to another one further on.
    pub fn lead(&mut self, places: &Vec<usize>, to: usize) -> Allocated<()>
        ensures { OnOk result (self.new ≡ led_on self.old places.now.items to) }
    {
        for place in places.iter() {
            self.lead_one(*place, to)?;
        }
        Ok(())
    }

    /// Puts the making of the next inner function last.
    pub fn put_closure(&mut self, target: usize, line: u32) -> Allocated<()>
        ensures { OnOk result (self.new ≡ followed self.old (with_abx Closure target self.old.made line ∷ []) 1) }
    {
        let number = self.made;
        self.put_abx(Opcode::Closure, target, number, line)?;
        self.made = next(number)?;
        Ok(())
    }
}
