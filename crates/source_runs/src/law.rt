// The law of whole runs of compiled sources.
ghost use Rattle.source_runs.specs.Law.{CompiledPreludesAreAlike, CompiledSourcesRunAlike};

/// On all lines of input and every budget, the code of a source prints what the source's tree prints
/// by the letter of the manual, and ends as it does: what the one means, the other means as well.
pub fn compiled_sources_run_alike()
    ensures { CompiledSourcesRunAlike }
{}

/// A prelude whose functions fit is alike to the prelude of their codes.
pub fn compiled_preludes_are_alike()
    ensures { CompiledPreludesAreAlike }
{}
