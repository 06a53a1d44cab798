//! Databases that are damaged or not yet made, and what people are told of them. How a database in a file of this machine is opened,
//! what stands in the way and which store it is, the end-to-end checks see.

mod added_indexes;
mod databases;
mod openings;
mod reasons;
mod shared;
