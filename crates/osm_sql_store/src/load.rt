//! What is read of the held blobs: their extents, the elements of one, those of one kind and id, and whether any element
//! has a flag.

mod asking;
mod extents;
mod tables;

pub(crate) use asking::ask;
pub use asking::{answer, integer, number};
pub use extents::all_extents;
pub(crate) use extents::touched_extents;
pub(crate) use tables::{any_flag_in_tables, find_tables, load_tables};
