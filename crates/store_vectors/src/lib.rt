//! What the tests of stores, of the importer and of databases in files share: frames and blocks and where they stand, new
//! stores, calls with what they have to answer, and changes below SQL. It has no tests, so it is proved once.
#![tactic(auto)]

pub mod damage;
pub mod deliveries;
pub mod files;
pub mod fixtures;
pub mod memory;
pub mod steps;
