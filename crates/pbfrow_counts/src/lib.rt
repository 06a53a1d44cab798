//! How many elements one store holds, or several that hold parts of one file: their kinds, their tags and links, and the
//! times of the oldest and the newest.
#![tactic(auto)]

mod blobs;
mod elements;
mod fault;
mod lines;
mod parts;

pub use blobs::count_blobs;
pub use elements::ElementCounts;
pub use fault::CountFault;
pub use lines::put_element_counts;
pub use parts::count_parts;
