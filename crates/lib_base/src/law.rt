// The law of the rows behind a key.
ghost use Rattle.lib_base.specs.Raw.{RowsAreFollowedAlike};

/// The row behind a key is the same, whether the values are kept or what they stand for.
pub fn rows_are_followed_alike()
    ensures { RowsAreFollowedAlike }
{}
