//! The law of statements and of whole functions: their code talks as they do.
//! The crate has no code that runs. Its public function states the law.
#![tactic(auto)]

mod law;

pub use law::code_means_body;
