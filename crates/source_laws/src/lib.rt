//! What a source is compiled to means the source and keeps the rules on code.
//! The crate has no code that runs. Its public functions state what is proved.
#![tactic(auto)]

mod law;

pub use law::{
    bodies_are_near, bodies_fit, code_fits_its_fields, code_means_source,
    code_of_sources_is_checked,
};
