// The laws of the values that are kept.
ghost use Rattle.lua_heap.specs.Law.{EqualityIsRaw, TablesAreRead, StringsAreThere, NewStringsKeep, CheckedCodeIsThere, NewWorldsAreSound, CellsStayListed};

/// Kept values are equal exactly where the values that they stand for are.
pub fn equality_is_raw()
    ensures { EqualityIsRaw }
{}

/// A table is read and written alike, whether its values are kept or what they stand for.
pub fn tables_are_read()
    ensures { TablesAreRead }
{}

/// A valid value names a string that is there.
pub fn strings_are_there()
    ensures { StringsAreThere }
{}

/// A new string changes no valid value.
pub fn new_strings_keep()
    ensures { NewStringsKeep }
{}

/// Code that is checked is there.
pub fn checked_code_is_there()
    ensures { CheckedCodeIsThere }
{}

/// A new world is sound.
pub fn new_worlds_are_sound()
    ensures { NewWorldsAreSound }
{}

/// Stacks list what is open where a closed cell comes last, or a coroutine without a stack.
pub fn cells_stay_listed()
    ensures { CellsStayListed }
{}
