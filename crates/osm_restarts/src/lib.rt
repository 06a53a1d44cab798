//! Laws of a restart: what a crash may leave of a store in files can be opened, and holds a map that the crash may leave, and what
//! was begun goes on over it, crash after crash. And what `verify` passes holds the map of an import, and a store of the first
//! layout is copied into one of the second.
#![tactic(auto)]

pub mod beside;
pub mod copying;
pub mod creation;
pub mod history;
pub mod memory;
pub mod merging;
pub mod migration;
pub mod premise;
pub mod restart;
pub mod verified;
