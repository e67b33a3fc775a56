//! What the grammar gives of the tree of a source: its forms, and that it is no greater than the tokens.
//! The crate has no code that runs. Its public functions state what is proved.
#![tactic(auto)]

mod law;

pub use law::{
    places_keep_forms, places_weigh_nothing, trees_are_formed, trees_have_few_lines,
    trees_take_bytes, trees_weigh_their_tokens,
};
