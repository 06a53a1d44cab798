//! What each question calls: of one store, and of several in turn.

ghost use Rattle.std.specs.Prelude.{◌≡◌, ◌≤◌, List, length};
ghost use Rattle.osm_rows.specs.Calls.{OfHeld};
ghost use Rattle.osm_rows.specs.Held.{HeldMap};
ghost use Rattle.osm_import.specs.Stores.{Stays};
ghost use Rattle.osm_parts.specs.Opening.{KeepsMaps};
ghost use Rattle.pbfrow_commands.specs.Telling.{telling};
ghost use Rattle.pbfrow_databases.specs.Questions.{AnswersQuery, AnswersTogether, goes_by_blobs};

use osm_parts::Openings;
use osm_rows::BlobReader;
use osm_value::{MemberKind, Sink};
use pbfrow_commands::counts::{status_parts_with_counts, status_with_counts};
use pbfrow_commands::export::export;
use pbfrow_commands::find::find;
use pbfrow_commands::parts::{export_parts, status_parts};
use pbfrow_commands::status::status;
use pbfrow_words::Question;
use std::alloc::Global;

/// What is asked of one database.
#[derive(Clone, Copy)]
pub enum Query {
    /// What several can be asked as well.
    Whole(Question),
    /// Where the element of this kind and id is held.
    Element(MemberKind, i64),
}

/// Whether the answer goes from blob to blob, so that a progress line can say how far it has come.
pub fn goes_by_blobs(question: Question) -> bool
    ensures { result ≡ goes_by_blobs question }
{
    matches!(question, Question::Counts { .. } | Question::Export { .. })
}

/// Asks a store, and answers the exit status. What it holds stays.
pub fn ask_one<K: BlobReader, S: Sink>(
    alloc: Global,
    store: &mut K,
    query: Query,
    out: &mut S,
) -> u8
    ensures told { OfHeld K.BlobReader store.old store.new (λ held. AnswersQuery query held (telling K.failures S.Sink store.old store.new out.old out.new result)) }
    ensures stays { Stays K.BlobReader store.old store.new }
    ensures bound { result ≤ 1 }
{
    match query {
        Query::Whole(Question::Status { size }) => status(alloc, store, size, out),
        Query::Whole(Question::Counts { size }) => status_with_counts(alloc, store, size, out),
        Query::Whole(
            Question::Export {
                size,
                partial,
                form,
            },
        ) => export(alloc, store, size, partial, form, out),
        Query::Element(kind, id) => find(alloc, store, kind, id, out),
    }
}

/// Asks `count` stores, which are opened one after the other, and answers the exit status. What they hold stays.
pub fn ask_in_turn<K: BlobReader + Drop, O: Openings<K>, S: Sink>(
    alloc: Global,
    openings: &mut O,
    count: u64,
    question: Question,
    out: &mut S,
) -> u8
    ensures told { (maps : List HeldMap) → O.holds openings.old maps → O.is_honest openings.new → length maps ≡ count
        → AnswersTogether question maps (telling O.failures S.Sink openings.old openings.new out.old out.new result) }
    ensures keeps { KeepsMaps O.holds O.is_honest O.is_open openings.old openings.new }
    ensures bound { result ≤ 1 }
{
    match question {
        Question::Status { size } => status_parts(alloc, openings, count, size, out),
        Question::Counts { size } => status_parts_with_counts(alloc, openings, count, size, out),
        Question::Export {
            size,
            partial,
            form,
        } => export_parts(alloc, openings, count, size, partial, form, out),
    }
}
