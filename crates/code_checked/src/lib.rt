//! The law of rules on code: what a resolved tree is compiled to keeps them.
//! The crate has no code that runs. Its public function states the law.
#![tactic(auto)]

mod law;

pub use law::code_is_checked;
