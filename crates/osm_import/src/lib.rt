//! The importer, over any store of blobs: one delivery, any list of them, gaps, exports and streams; copies of one store
//! into another.
#![tactic(auto)]

mod answer;
mod copy;
mod deliveries;
mod delivery;
mod export;
mod few_texts;
mod gap;
pub mod laws;
mod place;
mod stream;

pub use answer::{Answer, Conflict};
pub use copy::{BlobCopy, CopyCounts, CopyFault, CopyStop, copy_held};
pub use deliveries::{Delivery, deliver_all};
pub use delivery::deliver;
pub use export::{
    BlobStep, Blocks, ExportFault, Lines, export_lines, export_pbf, export_refusal, greatest_end,
    write_blobs, write_header,
};
pub use gap::{gaps, gaps_between};
pub use osm_reading::{
    ExamineFault, Fault, FrameReader, Good, Inlet, Source, SourceFailed, Stop, StreamFault,
    examine, examine_frame, put_fault_at, put_plain_fault,
};
pub use stream::{ImportFault, ImportStop, Summary, Teller, Told, import_stream};
