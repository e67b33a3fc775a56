// What is proved of the library's rows.
ghost use Rattle.library_sound.specs.Laws.{LibraryIsSafe, LibraryThatLoadsIsSafe};

use library_rows::plain_rows_are_functions;
use machine_sound::library_rows_do_not_trap;

/// No row of the library traps or leaves a world unsound, whatever its arguments are, where that of the prelude's `build` does neither; so it is
/// where `build` loads sources that are built to checked code.
pub fn library_is_safe()
    ensures all { LibraryIsSafe }
    ensures loads { LibraryThatLoadsIsSafe }
{
    plain_rows_are_functions();
    library_rows_do_not_trap();
}
