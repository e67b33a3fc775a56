// How many levels may still be opened.
ghost use Rattle.std.specs.Prelude.{◌≤◌};

/// What there is room for at a place: a tree has at most 400 levels.
#[derive(Clone, Copy)]
pub struct Room {
    /// The most levels that what is read there may have.
    pub max: u32,
    pub ghost bounded: { max ≤ 400 },
}
