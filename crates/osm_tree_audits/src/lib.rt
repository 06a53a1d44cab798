//! The rows of a store's trees, whatever these have: those that an index finds, and whether rows and indexes are those of
//! certain blobs.
#![tactic(auto)]

mod added;
mod counts;
mod in_order;
mod indexes;
mod keyed;
pub mod laws;
mod look;
mod matching;
mod rows;
mod strays;
mod tables;
mod values;
mod walk;
mod ways;

pub use added::faulty_added_index;
pub use counts::has_row_counts;
pub use indexes::StoreIndex;
pub use keyed::rows_with;
pub use look::{Look, Looked, TableLook, look_at_indexes};
pub use rows::has_rows_of;
pub use strays::{Stray, stray_row};
pub use tables::ElementTable;
