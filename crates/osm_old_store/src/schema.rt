//! The table of bodies: every statement on it, and how it is made and known again.

mod create;
pub(crate) mod sql;
mod tables;

pub(crate) use create::make_body_layout;
pub(crate) use tables::has_body_tables;
