//! What can be asked of a store, with what it tells as bytes.

use osm_import::{ExportFault, gaps};
use osm_rows::{BlobReader, StoreFault};
use osm_value::{Form, MemberKind};
use std::alloc::Global;
use store_vectors::deliveries::exported;
use store_vectors::steps::{found_lines, loaded_lines};

/// What is asked of a store.
#[derive(Clone, Copy, Debug)]
pub(crate) enum Question {
    /// Where each blob begins and ends.
    Extents,
    /// What isn't held of 300 bytes.
    Gaps,
    /// The elements of the blob at 84.
    Load,
    /// The relations 9.
    Find,
    /// Whether an element has a flag.
    History,
    /// An export as lines.
    Lines,
    /// An export as PBF.
    Pbf,
}

/// Whether an element has a flag, as a line.
fn history_line<K: BlobReader>(alloc: Global, store: &mut K) -> Result<Vec<u8>, StoreFault> {
    let found = store.history(alloc)?;
    let line = format!(in alloc; "{found}\n")?;
    let mut text = Vec::new(alloc);
    text.extend_from_slice(line.as_bytes())?;
    Ok(text)
}

/// What is told to a question other than for an export. Two offsets stand in a line.
fn told<K: BlobReader>(
    alloc: Global,
    store: &mut K,
    question: Question,
) -> Result<Vec<u8>, StoreFault> {
    let mut ranges = Vec::new(alloc);
    match question {
        Question::Load => return loaded_lines(alloc, store, 84),
        Question::Find => return found_lines(alloc, store, MemberKind::Relation, 9),
        Question::History => return history_line(alloc, store),
        Question::Gaps => ranges = gaps(alloc, store, 300)?,
        _ => {
            for extent in &store.extents(alloc)? {
                ranges.push((extent.off, extent.fin))?;
            }
        }
    }
    let mut text = Vec::new(alloc);
    for range in &ranges {
        let line = format!(in alloc; "{} {}\n", range.0, range.1)?;
        text.extend_from_slice(line.as_bytes())?;
    }
    Ok(text)
}

/// The answer to a question, and what was told.
pub(crate) fn answer_to<K: BlobReader>(
    alloc: Global,
    store: &mut K,
    question: Question,
) -> (Result<(), ExportFault>, Vec<u8>) {
    match question {
        Question::Lines => exported(alloc, store, Form::Lines, None, false),
        Question::Pbf => exported(alloc, store, Form::Pbf, None, false),
        _ => match told(alloc, store, question) {
            Ok(text) => (Ok(()), text),
            Err(fault) => (Err(ExportFault::Store(fault)), Vec::new(alloc)),
        },
    }
}
