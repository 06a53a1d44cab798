//! Exports of what is held, as lines or as a PBF file.

mod blobs;
mod fault;
mod lines;
mod pbf;
mod refusal;

pub use blobs::{BlobStep, write_blobs};
pub use fault::ExportFault;
pub use lines::{Lines, export_lines};
pub use pbf::{Blocks, export_pbf, write_header};
pub use refusal::{export_refusal, greatest_end};
