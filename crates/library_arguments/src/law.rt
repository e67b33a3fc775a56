// What answers say of the rows.
ghost use Rattle.library_arguments.specs.Answers.{AnswersAreDone, RefusalsAreDone};

/// A row whose function has these results within the limit gives them, and leaves all tables as they are. None of them is a string
/// beyond the limit.
pub fn answers_are_done()
    ensures { AnswersAreDone }
{}

/// A row whose function has this error within the limit raises it.
pub fn refusals_are_done()
    ensures { RefusalsAreDone }
{}
