//! Streams of frames, imported.

mod fault;
mod line;
mod run;
mod summary;
mod teller;

pub use fault::{ImportFault, ImportStop};
pub use run::import_stream;
pub use summary::Summary;
pub use teller::{Teller, Told};
