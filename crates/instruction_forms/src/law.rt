// What is left of instructions that wait.
ghost use Rattle.instruction_forms.specs.Waiting.{RestsHaveForms};

/// What is left of an instruction when the answer comes for which its frame waits, by its form.
pub fn rests_have_forms()
    ensures { RestsHaveForms }
{}
