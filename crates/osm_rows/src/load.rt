//! What rows of the tables stand for: extents, the elements of one blob, and those of one kind and id.

mod bodies;
mod extents;
mod found;
mod loaded;
mod rows;
mod tables;
mod values;

pub use bodies::BodyRows;
pub use extents::{are_apart, read_apart};
pub use found::Found;
pub use loaded::Loaded;
pub use rows::ElementRows;
pub use tables::{PartRow, TableRows};
pub use values::{are_numbered, number_at};
