// Laws for those who call operations on parts of a world.
ghost use Rattle.meta_ops.specs.Law.{OperandsAreThere, HeapStays};

/// The valid values of a sound world name strings and tables that are there.
pub fn operands_are_there()
    ensures { OperandsAreThere }
{
    lua_heap::law::strings_are_there();
}

/// A string that is added changes nothing of a heap whose tables are sound.
pub fn heap_stays()
    ensures { HeapStays }
{
    lua_heap::law::new_strings_keep();
}
