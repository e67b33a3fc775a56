// Texts one after another (Lua 5.4 manual, 6.6, `table.concat`).
ghost use Rattle.std.specs.Prelude.{◌≡◌, map};
ghost use Rattle.library_rows.specs.Base.{joined};
ghost use Rattle.text_functions.specs.Made.{IsMade, text_shape};

use crate::fault::Bounded;
use crate::growing::Builder;
use std::alloc::Global;

/// The pieces one after another.
///
/// # Errors
///
/// `TooLarge` where they have more than 16,777,216 bytes.
pub fn join(alloc: Global, pieces: &[&[u8]]) -> Bounded<Vec<u8>>
    ensures { IsMade result (joined (map (λ piece. text_shape piece.now) pieces.now)) }
{
    let mut text = Builder::new(alloc);
    for piece in pieces {
        text.push(*piece)?;
    }
    Ok(text.finish())
}
