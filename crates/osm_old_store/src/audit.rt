//! Whether the table of bodies has the rows of a blob, and how many it has, asked by SQL.

mod bodies;
mod counts;

pub(crate) use bodies::shows_bodies;
pub(crate) use counts::has_body_count;
