//! The command line of pbfrow: its commands and their arguments as `clap` defines them, and the command that a list of
//! words names. It opens no file and runs no command.
#![tactic(auto)]

mod arguments;
mod asking;
mod element;
mod filling;
pub mod laws;
mod ranges;
mod reading;
mod verifying;
mod words;

pub use asking::Question;
pub use element::read_element;
pub use filling::Start;
pub use reading::Reading;
pub use words::{Words, read_words};
