//! What a put writes of a blob's elements.

mod bodies;

pub(crate) use bodies::add_bodies;
