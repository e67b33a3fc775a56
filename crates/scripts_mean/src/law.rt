// The laws, with what they speak of in `specs/`.
ghost use Rattle.scripts_mean.specs.Broken.{SourcesAreNeverBroken};
ghost use Rattle.scripts_mean.specs.Scripts.{PreludeIsAlike, ScriptsDo, ScriptsMean};

use library_sound::law::library_is_safe;

/// For each source that the grammar reads as a tree without violations of the static rules, in the world of the libraries, on all lines of
/// input and every budget: the machine, which runs the source's code, prints the bytes that the tree prints by the letter of the manual, and
/// both return, fail, have spent a turn's budget, or wait alike for the next line. What the machine does the tree means, and what the tree
/// means the machine does.
pub fn scripts_do_as_they_mean()
    ensures does { ScriptsDo }
    ensures means { ScriptsMean }
{
    library_is_safe();
}

/// The functions that the text of the prelude defines, and their code, make the world of the libraries in both: so the law above holds of the
/// prelude that is there.
pub fn prelude_is_alike()
    ensures { PreludeIsAlike }
{}

/// Nothing that such a source means is broken: each step of its run is one that the manual defines. So it is of the tree, whether its locals get
/// their cells as they are declared or as they are captured, and of its code, on all lines of input and every budget. (That the machine never traps
/// on it is `turns_do_not_trap`, since its code is checked.)
pub fn sources_are_never_broken()
    ensures { SourcesAreNeverBroken }
{
    library_is_safe();
}
