// The registers of a list: those of values that are not there, and values that are stored in a table.
ghost use Rattle.std.specs.Prelude.{◌≡◌, OnOk};
ghost use Rattle.code_of.specs.Expressions.{nils_code, set_list};
ghost use Rattle.code_emitter.specs.Listing.{listed};

use crate::emitter::Emitter;
use code_core::Opcode;
use int_core::Allocated;

impl Emitter {
    /// Sets the registers of values that are wanted and not there to nil.
    pub fn nils(&mut self, wanted: Option<usize>, target: usize, line: u32) -> Allocated<()>
        ensures { OnOk result (self.new ≡ listed self.old (nils_code wanted target line)) }
    {
        match wanted {
            Some(count) if count > 0 => self.put_abc(Opcode::LoadNil, target, count - 1, 0, line),
            _ => Ok(()),
        }
    }

    /// Stores values from behind a table's register in it, behind some items.
    pub fn set_list(
        &mut self,
        target: usize,
        count: usize,
        items: usize,
        line: u32,
    ) -> Allocated<()>
        ensures { OnOk result (self.new ≡ listed self.old (set_list target count items line)) }
    {
        if items < 256 {
            return self.put_abc(Opcode::SetList, target, count, items, line);
        }
        self.put_flagged(Opcode::SetList, target, count, items % 256, true, line)?;
        self.put_ax(Opcode::ExtraArg, items / 256, line)
    }
}
