//! A session that waits for a line is saved as an image, and goes on in another process from it (Eris's manual, `eris.persist` and `eris.unpersist`). Its
//! permanents are the functions of the libraries.
#![tactic(auto)]

mod fault;
mod loading;
mod permanents;
mod prelude;
mod roots;
mod saving;

pub use fault::SaveFault;
pub use loading::load_session;
pub use permanents::base_permanents;
pub use saving::save_session;
