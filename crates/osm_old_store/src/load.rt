//! What is read of the held blobs.

mod bodies;

pub(crate) use bodies::{any_flag_in_bodies, find_bodies, load_bodies};
