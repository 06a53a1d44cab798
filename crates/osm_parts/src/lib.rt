//! One map in several stores, of which one at a time is open: what they hold together, and exports of it.
#![tactic(auto)]

mod exporting;
mod fault;
pub mod laws;
mod openings;
mod past;
mod pieces;
mod reading;
mod runs;
mod shelf;
mod turns;

pub use exporting::{export_parts_as_lines, export_parts_as_pbf};
pub use fault::PartsFault;
pub use openings::Openings;
pub use reading::{extents_of_parts, gaps_of_parts, parts_of, read_parts};
pub use runs::Part;
pub use shelf::Shelf;
pub use turns::{InTurn, OpensNamed, Several};
