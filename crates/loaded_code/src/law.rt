// What is proved of functions of loaded code.
ghost use Rattle.loaded_code.specs.Laws.{LoadedCodeIsOk, LoadingFalls, LoadingIsSafe, LoadingNeverYields};

use library_sound::law::library_is_safe;
use machine_ends::primitives_fall;
use machine_runs::loads_never_yield;

/// Where sources alone are built, whatever they are built to is checked code with one outer variable. So no function of the libraries traps, turns come
/// to their ends, and `load` ends none with a yield.
pub fn loading_is_safe()
    ensures code { LoadedCodeIsOk }
    ensures safe { LoadingIsSafe }
    ensures falls { LoadingFalls }
    ensures silent { LoadingNeverYields }
{
    library_is_safe();
    primitives_fall();
    loads_never_yield();
}
