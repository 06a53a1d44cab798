//! The rows of a store of blobs: which rows a finite map from offsets stands for, in either layout of its tables, what is read
//! back from them, what is asked of a store that keeps them, and why a call of one fails.
#![tactic(auto)]

mod audit;
mod fault;
mod keeper;
pub mod laws;
mod load;
mod put;
mod schema;
pub mod trees;
pub mod unreadable;

pub use audit::{Audited, Counts};
pub use fault::{StoreFault, fault_over_unknown};
pub use keeper::{BlobKeeper, BlobReader, Extent};
pub use load::{
    BodyRows, ElementRows, Found, Loaded, PartRow, TableRows, are_apart, are_numbered, number_at,
    read_apart,
};
pub use put::{ElementRow, LinkRow, TableRow, TagRow, element_rows, link_rows, tag_rows};
pub use schema::codes::{blob_code, element_code};
pub use schema::sql::{
    CREATE_BLOB, CREATE_ELEMENT, CREATE_ELEMENT_INDEX, CREATE_LINK, CREATE_META, CREATE_TAG,
    TABLE_VERSION,
};
pub use schema::{Layout, StoreLayout, Tables};
