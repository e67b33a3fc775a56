// The laws, each with what it speaks of in `specs/`.
ghost use Rattle.machine_call_rows.specs.Law.{CallsKeepRegisters};

/// A frame that runs and is at a call keeps registers of its code for it.
pub fn calls_keep_registers()
    ensures { CallsKeepRegisters }
{}
