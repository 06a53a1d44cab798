//! The commands of the program over its databases: each opens those that it names, calls what the command does over their
//! stores, writes the answer to standard output and closes them again. What the databases lie in is named by whoever calls.
#![tactic(auto)]

pub mod commands;
mod copying;
mod database;
mod merging;
pub mod named;
mod parts;
pub mod questions;
pub mod starting;
mod verifying;
