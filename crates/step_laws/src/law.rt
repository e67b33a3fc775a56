// The laws, each with what it speaks of in `specs/`.
ghost use Rattle.step_laws.specs.Law.{AnswerHasForm, AnswerIsSafe, AnswerIsStep, AskedIsSafe, AskedIsStep, AsksHasStack, CallHasStack, EndStays, ErrorIsSafe, ErrorIsStep, GoHasFrame, InstructionIsSafe, InstructionIsStep, JoinIsSound, PrimitiveIsSafe, PrimitiveIsStep, RaisedHasStack, RaisedIsSafe, RaisedIsStep, ReadyByFuel, ReadyIsSound, ResultsAreSafe, ResultsAreStep, ReturnedHasStack, ReturnedIsSafe, ReturnedIsStep, RunningIsAt, StepsStayReady, UnwindingHasStack, UnwindingIsSafe, UnwindingIsStep, WaitingIsAt};
ghost use Rattle.step_laws.specs.Small.{FormsAreSmall, FormsAreWithin};

/// What follows an ending is so whatever the budget is, and a step leads to a world that is ready for the next one.
pub fn steps_stay_ready()
    ensures budget { ReadyByFuel }
    ensures sound { ReadyIsSound }
    ensures steps { StepsStayReady }
    ensures end { EndStays }
{}

/// Where a step begins, what it looks at is there: a Lua frame on top, which is at an instruction of its code where it runs, or a coroutine that runs.
pub fn steps_have_frames()
    ensures go { GoHasFrame }
    ensures running { RunningIsAt }
    ensures waiting { WaitingIsAt }
    ensures returned { ReturnedHasStack }
    ensures asks { AsksHasStack }
    ensures raised { RaisedHasStack }
    ensures unwinding { UnwindingHasStack }
    ensures calls { CallHasStack }
{}

/// The rows with which a step begins do not trap.
pub fn rows_of_steps_are_safe()
    ensures instruction { InstructionIsSafe }
    ensures answer { AnswerIsSafe }
    ensures joins { JoinIsSound }
    ensures results { ResultsAreSafe }
    ensures error { ErrorIsSafe }
    ensures returned { ReturnedIsSafe }
    ensures unwinding { UnwindingIsSafe }
    ensures raised { RaisedIsSafe }
    ensures asked { AskedIsSafe }
    ensures primitive { PrimitiveIsSafe }
{}

/// What is left of an instruction goes by its form; the numbers that forms name are small, and registers that rows name late are those of the code.
pub fn forms_are_known()
    ensures answer { AnswerHasForm }
    ensures small { FormsAreSmall }
    ensures within { FormsAreWithin }
{}

/// What such a row does is the machine's step.
pub fn rows_are_steps()
    ensures instruction { InstructionIsStep }
    ensures answer { AnswerIsStep }
    ensures results { ResultsAreStep }
    ensures error { ErrorIsStep }
    ensures returned { ReturnedIsStep }
    ensures unwinding { UnwindingIsStep }
    ensures raised { RaisedIsStep }
    ensures asked { AskedIsStep }
    ensures primitive { PrimitiveIsStep }
{}
