//! A store of blobs below SQL, over the trees of its database; and one that is read alone, each index of which was checked.
#![tactic(auto)]

mod checked_store;
mod extents;
mod history;
pub mod laws;
mod load;
mod parts;
mod row;
mod search;
mod tree_store;

pub use checked_store::CheckedStore;
pub use tree_store::TreeStore;
