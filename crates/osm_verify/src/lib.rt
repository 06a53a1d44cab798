//! Whether a store holds exactly what an import of a file gives; and whether several stores, of which one at a time is open, do:
//! each of them blobs of the file, and together all.
#![tactic(auto)]

mod auditing;
mod comparing;
mod fault;
mod file_bytes;
pub mod laws;
mod part_audit;
mod together;

pub use auditing::{has_frame, has_rows};
pub use comparing::{Agreement, Depth, compare, extents_beginning};
pub use fault::AuditFault;
pub use file_bytes::{FileBytes, MemoryFile};
pub use part_audit::{Audit, Finding, audit_part};
pub use together::{Verdict, audit_parts};
