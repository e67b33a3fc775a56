// The laws of the machine's definition.
ghost use Rattle.machine_core.specs.Laws.{EachRestFits, EachRestMakesNone, EachRowFits, EachRowOpens};

/// The text with which an operation goes on at once is what the instruction's wait says, and each call waits:
/// in the row of each instruction, and in what is left of it when an answer comes.
pub fn rows_fit()
    ensures rows { EachRowFits }
    ensures rests { EachRestFits }
{}

/// A row makes a function at most once, and opens in front of it what the function shares of the frame's own registers;
/// what is left of an instruction when an answer comes makes none.
pub fn rows_open()
    ensures rows { EachRowOpens }
    ensures rests { EachRestMakesNone }
{}
