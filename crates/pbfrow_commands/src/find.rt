//! The command `find`: the occurrences of an element in a store.

ghost use Rattle.std.specs.Prelude.{◌≡◌, ◌≤◌, List, OnOk, OnErr, filter};
ghost use Rattle.osm_value.specs.Printing.{Prints};
ghost use Rattle.osm_rows.specs.Load.Finding.{AreMatches};
ghost use Rattle.osm_rows.specs.Calls.{OfHeld};
ghost use Rattle.osm_rows.specs.Rows.{Placed, is_of, placed_in};
ghost use Rattle.osm_import.specs.Stores.{Stays};
ghost use Rattle.pbfrow_commands.specs.CommandLines.{match_line, match_lines};
ghost use Rattle.pbfrow_commands.specs.Finding.{TellsMatches};
ghost use Rattle.pbfrow_commands.specs.Telling.{telling};

use crate::report::put_store_fault;
use osm_rows::{BlobReader, Found, StoreFault};
use osm_value::{Element, MemberKind, Sink, put, put_digits, write_line};
use std::alloc::{AllocError, Global};

/// Writes `OFFSET POSITION LINE`.
fn put_match<S: Sink>(out: &mut S, off: u64, position: u64, element: &Element)
    ensures { Prints S.Sink out.old out.new (match_line (off, position, element.now)) }
{
    put_digits(out, off);
    put(out, b" ");
    put_digits(out, position);
    put(out, b" ");
    let _written = write_line(element, out);
}

/// Writes a line for each element.
fn put_matches<S: Sink>(out: &mut S, matches: &[(u64, u64, Element)])
    ensures { Prints S.Sink out.old out.new (match_lines matches.now) }
{
    for (off, position, element) in matches {
        put_match(out, *off, *position, element);
    }
}

/// Writes a line for each element that was found.
fn write_found<S: Sink>(alloc: Global, found: &Found, out: &mut S) -> Result<(), AllocError>
    ensures lines { (matches : List Placed) → AreMatches found.now matches
        → OnOk result (Prints S.Sink out.old out.new (match_lines matches)) }
    ensures none { OnErr result (out.new ≡ out.old) }
{
    let matches = found.matches(alloc)?;
    put_matches(out, &matches);
    Ok(())
}

/// Writes a line for each occurrence of the element, by offset and position, or the line of a fault of the store, which over
/// a held map is never 66.
/// Answers the exit status: 0 if everything was written, even if nothing was found, and 1 if there was a fault or the
/// output failed.
pub fn find<K: BlobReader, S: Sink>(
    alloc: Global,
    store: &mut K,
    kind: MemberKind,
    id: i64,
    out: &mut S,
) -> u8
    ensures told { OfHeld K.BlobReader store.old store.new (λ held. TellsMatches (filter (is_of kind id) (placed_in held)) (telling K.failures S.Sink store.old store.new out.old out.new result)) }
    ensures stays { Stays K.BlobReader store.old store.new }
    ensures bound { result ≤ 1 }
{
    let found = match store.find(alloc, kind, id) {
        Ok(found) => found,
        Err(fault) => {
            put_store_fault(out, fault);
            return 1;
        }
    };
    match write_found(alloc, &found, out) {
        Ok(()) => {}
        Err(_) => {
            put_store_fault(out, StoreFault::Memory);
            return 1;
        }
    }
    if out.failed() { 1 } else { 0 }
}
