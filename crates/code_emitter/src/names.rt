// Constants and variables, whose values go to a register.
ghost use Rattle.std.specs.Prelude.{◌≡◌, ◌+◌, OnOk};
ghost use Rattle.code_core.specs.declared.proto.Const.TheVariants.{Str};
ghost use Rattle.code_of.specs.Constants.{loads, loads_integer, loads_numbered, number_in};
ghost use Rattle.code_of.specs.Operators.{global_code, local_global_code, name_into, self_code};
ghost use Rattle.code_emitter.specs.Listing.{listed};

use crate::emitter::{Emitter, next};
use code_constants::is_small;
use code_core::Opcode;
use int_core::{Allocated, Bytes};
use tree_core::{Name, Place};

impl Emitter {
    /// Loads the constant of a number.
    fn load_numbered(&mut self, number: usize, target: usize, line: u32) -> Allocated<()>
        ensures { OnOk result (self.new ≡ listed self.old (loads_numbered number target line)) }
    {
        if number < 131072 {
            return self.put_abx(Opcode::LoadK, target, number, line);
        }
        self.put_abx(Opcode::LoadKx, target, 0, line)?;
        self.put_ax(Opcode::ExtraArg, number, line)
    }

    /// Loads a string.
    pub fn load_text(&mut self, text: &Bytes, target: usize, line: u32) -> Allocated<()>
        ensures { OnOk result (self.new ≡ listed self.old (loads self.old.constants (Str text.now) target line)) }
    {
        let number = self.constants().number_of_text(text);
        self.load_numbered(number, target, line)
    }

    /// Loads an integer, which is no constant where LOADI holds it.
    pub fn load_integer(&mut self, integer: i64, target: usize, line: u32) -> Allocated<()>
        ensures { OnOk result (self.new ≡ listed self.old (loads_integer self.old.constants integer target line)) }
    {
        if is_small(integer) {
            return self.put_abx(Opcode::LoadI, target, (integer + 65535) as usize, line);
        }
        let number = self.constants().number_of_integer(integer);
        self.load_numbered(number, target, line)
    }

    /// Looks a method up by its name, whose object stands in a register.
    pub fn look_up_method(
        &mut self,
        text: &Bytes,
        object: usize,
        target: usize,
        line: u32,
    ) -> Allocated<()>
        ensures { OnOk result (self.new ≡ listed self.old (self_code self.old.constants text.now object target line)) }
    {
        let number = self.constants().number_of_text(text);
        if number > 255 {
            let key = next(next(target)?)?;
            self.load_text(text, key, line)?;
            return self.put_abc(Opcode::OpSelf, target, object, key, line);
        }
        self.put_flagged(Opcode::OpSelf, target, object, number, true, line)
    }

    /// Reads a variable, whose value goes to one register, where the registers from another one on are free.
    pub fn read_name(&mut self, name: &Name, target: usize, free: usize, line: u32) -> Allocated<()>
        ensures { OnOk result (self.new ≡ listed self.old (name_into self.old.constants name.now.place name.now.text target free line)) }
    {
        let text = &name.text;
        match name.place {
            Place::Unset => self.put_abc(Opcode::LoadNil, target, 0, 0, line),
            Place::Local(register) => {
                self.put_abc(Opcode::Move, target, usize::from(register), 0, line)
            }
            Place::Upvalue(number) => {
                self.put_abc(Opcode::GetUpval, target, usize::from(number), 0, line)
            }
            Place::GlobalIn(register) => {
                self.read_local_global(usize::from(register), text, target, free, line)
            }
            Place::GlobalOf(number) => {
                self.read_global(usize::from(number), text, target, free, line)
            }
        }
    }

    /// Reads a global variable, whose `_ENV` is a local.
    fn read_local_global(
        &mut self,
        environment: usize,
        text: &Bytes,
        target: usize,
        free: usize,
        line: u32,
    ) -> Allocated<()>
        ensures { OnOk result (self.new ≡ listed self.old (local_global_code (number_in self.old.constants (Str text.now)) environment (loads self.old.constants (Str text.now) free line) target free line)) }
    {
        let number = self.constants().number_of_text(text);
        if number > 255 {
            self.load_text(text, free, line)?;
            return self.put_abc(Opcode::GetTable, target, environment, free, line);
        }
        self.put_abc(Opcode::GetField, target, environment, number, line)
    }

    /// Reads a global variable, whose `_ENV` is an upvalue.
    fn read_global(
        &mut self,
        upvalue: usize,
        text: &Bytes,
        target: usize,
        free: usize,
        line: u32,
    ) -> Allocated<()>
        ensures { OnOk result (self.new ≡ listed self.old (global_code (number_in self.old.constants (Str text.now)) upvalue (loads self.old.constants (Str text.now) (free + 1) line) target free line)) }
    {
        let number = self.constants().number_of_text(text);
        if number < 256 {
            return self.put_abc(Opcode::GetTabUp, target, upvalue, number, line);
        }
        let key = next(free)?;
        self.put_abc(Opcode::GetUpval, free, upvalue, 0, line)?;
        self.load_text(text, key, line)?;
        self.put_abc(Opcode::GetTable, target, free, key, line)
    }
}
