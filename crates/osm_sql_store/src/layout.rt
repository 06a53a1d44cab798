//! What a store does with the tables of elements, in its own way in each layout. The tables `meta` and `blob`, which all
//! layouts have, are those of the store itself.

ghost use Rattle.std.specs.Prelude.{◌≡◌, ◌<◌, ◌≤◌, ◌^◌, Some, filter, IsTrue, IfOk, IfErr, OnOk};
ghost use Rattle.std.specs.FinMap as map;
ghost use Rattle.std.specs.List.{AllByRecursion};
ghost use Rattle.sqlite.specs.State.{HasCleanDisk};
ghost use Rattle.sqlite.specs.Held.{state};
ghost use Rattle.osm_rows.specs.Audit.{ShowElementsAt};
ghost use Rattle.osm_rows.specs.Flags.{has_flags};
ghost use Rattle.osm_rows.specs.Held.{Blob, HeldMap};
ghost use Rattle.osm_rows.specs.Keeping.{IsForeign};
ghost use Rattle.osm_rows.specs.Load.Finding.{AreMatches};
ghost use Rattle.osm_rows.specs.Load.Loading.{HasRowsOf, IsInPlace};
ghost use Rattle.osm_rows.specs.Rows.{is_of, placed, placed_in, CanStore};
ghost use Rattle.osm_rows.specs.Schema.Layouts.{schema_of};
ghost use Rattle.osm_sql_store.specs.ElementCounts.{ShowsElementCounts};
ghost use Rattle.osm_sql_store.specs.Inside.{GoesOn, WorksInside};
ghost use Rattle.osm_sql_store.specs.Load.Asking.{JustAsks};
ghost use Rattle.osm_sql_store.specs.Load.Telling.{TellsOf, TellsWhether};
ghost use Rattle.osm_sql_store.specs.Put.Steps.{AddsElements};
ghost use Rattle.osm_sql_store.specs.Schema.Making.{MakesElements};
ghost use Rattle.osm_sql_store.specs.Schema.Named.{HasTables};
ghost use Rattle.osm_sql_store.specs.Schema.Over.{IsOver, IsWriting};
ghost use Rattle.osm_sql_store.specs.Schema.Stages.{two_tables};

use crate::audit::{has_table_counts, shows_tables};
use crate::load::{any_flag_in_tables, find_tables, load_tables};
use crate::put::add_table_rows;
use crate::schema::{has_tables, make_table_layout};
use osm_rows::{Counts, Extent, Found, Loaded, StoreFault, StoreLayout, Tables};
use osm_value::{Element, MemberKind};
use pbf_frame::MAX_OFFSET;
use sqlite::{Alter, Connection, Error, Transaction};
use sqlite_schema::schema::Schema;
use std::alloc::Global;

/// A layout whose tables of elements are made, filled and asked by SQL.
pub trait SqlLayout: StoreLayout {
    /// Makes the tables of elements and their index, over `meta` and `blob`.
    fn make_layout<S: Alter>(transaction: &mut Transaction<'_, S>) -> Result<(), Error>
        requires { HasCleanDisk (state S.Store transaction.old.conn.now) → IsOver two_tables (state S.Store transaction.old.conn.now) }
        ensures goes_on { GoesOn S.Store transaction.old.conn transaction.new.conn }
        ensures made { HasCleanDisk (state S.Store transaction.new.conn.now) → OnOk result (MakesElements Self.LAYOUT (state S.Store transaction.old.conn.now) (state S.Store transaction.new.conn.now)) };

    /// Whether a database has each table of the layout, with each of its columns, under these names in any case, as SQLite
    /// finds them.
    fn has_tables(schema: &Schema) -> bool
        ensures has { IsTrue result → HasTables Self.LAYOUT schema.now }
        ensures own { schema.now ≡ schema_of Self.LAYOUT → IsTrue result };

    /// Writes the elements of a blob, each at its position.
    fn write_elements<S: Alter>(
        alloc: Global,
        transaction: &mut Transaction<'_, S>,
        off: u64,
        elements: &[Element],
    ) -> Result<(), StoreFault>
        requires bounds { off ≤ MAX_OFFSET }
        ensures step { WorksInside S.Store transaction.old.conn result transaction.new.conn }
        ensures added { HasCleanDisk (state S.Store transaction.new.conn.now) → IsWriting Self.LAYOUT (state S.Store transaction.old.conn.now)
            → OnOk result (AddsElements Self.LAYOUT (state S.Store transaction.old.conn.now) (state S.Store transaction.new.conn.now) (placed off 0 elements.now)) }
        ensures can_store { OnOk result (AllByRecursion (CanStore Self.LAYOUT) elements.now) };

    /// The rows of the blob at this offset, at the positions 0, 1, 2, ..; none where no blob is held there.
    fn load_held<S: Alter>(
        alloc: Global,
        connection: &mut Connection<S>,
        off: u64,
    ) -> Result<Loaded, StoreFault>
        ensures held { (held : HeldMap) → TellsOf Self.LAYOUT held (state S.Store connection.old) result (state S.Store connection.new) (λ loaded. (blob : Blob) → map.get held off ≡ Some blob → HasRowsOf loaded blob.elements) }
        ensures positions { IfOk result IsInPlace }
        ensures asks { JustAsks (state S.Store connection.old) (state S.Store connection.new) };

    /// The rows of all held elements of this kind and id, by offset and position.
    fn find_held<S: Alter>(
        alloc: Global,
        connection: &mut Connection<S>,
        kind: MemberKind,
        id: i64,
    ) -> Result<Found, StoreFault>
        ensures held { (held : HeldMap) → TellsOf Self.LAYOUT held (state S.Store connection.old) result (state S.Store connection.new) (λ found. AreMatches found (filter (is_of kind id) (placed_in held))) }
        ensures asks { JustAsks (state S.Store connection.old) (state S.Store connection.new) };

    /// Whether any held element has a flag of visibility.
    fn any_flag_held<S: Alter>(
        alloc: Global,
        connection: &mut Connection<S>,
    ) -> Result<bool, StoreFault>
        ensures held { (held : HeldMap) → TellsOf Self.LAYOUT held (state S.Store connection.old) result (state S.Store connection.new) (λ found. found ≡ has_flags held) }
        ensures asks { JustAsks (state S.Store connection.old) (state S.Store connection.new) };

    /// Whether the rows of a blob's elements are at its offset, and no others, whatever rows the tables have.
    fn shows_elements<S: Alter>(
        alloc: Global,
        connection: &mut Connection<S>,
        extent: &Extent,
        elements: &[Element],
    ) -> Result<bool, StoreFault>
        requires bounds { (extent.now.off ≤ MAX_OFFSET) × (extent.now.fin ≤ MAX_OFFSET) × (extent.now.n < 2 ^ 63) }
        ensures told { TellsWhether (schema_of Self.LAYOUT) (state S.Store connection.old) result (state S.Store connection.new) (ShowElementsAt Self.LAYOUT extent.now.off (placed extent.now.off 0 elements.now)) }
        ensures opened { HasCleanDisk (state S.Store connection.new) → IfOk result (λ _. IsTrue (state S.Store connection.new).is_open) }
        ensures ours { IfErr result (λ fault. ¬ (IsForeign fault)) }
        ensures asks { JustAsks (state S.Store connection.old) (state S.Store connection.new) };

    /// Whether the tables of elements have so many rows, whatever rows these are.
    fn has_element_counts<S: Alter>(
        connection: &mut Connection<S>,
        counts: &Counts,
    ) -> Result<bool, StoreFault>
        ensures told { TellsWhether (schema_of Self.LAYOUT) (state S.Store connection.old) result (state S.Store connection.new) (λ trees. ShowsElementCounts Self.LAYOUT trees counts.now) }
        ensures opened { HasCleanDisk (state S.Store connection.new) → IfOk result (λ _. IsTrue (state S.Store connection.new).is_open) }
        ensures ours { IfErr result (λ fault. ¬ (IsForeign fault)) }
        ensures asks { JustAsks (state S.Store connection.old) (state S.Store connection.new) };
}

impl SqlLayout for Tables {
    fn make_layout<S: Alter>(transaction: &mut Transaction<'_, S>) -> Result<(), Error> {
        make_table_layout(transaction)
    }

    fn has_tables(schema: &Schema) -> bool {
        has_tables(schema)
    }

    fn write_elements<S: Alter>(
        alloc: Global,
        transaction: &mut Transaction<'_, S>,
        off: u64,
        elements: &[Element],
    ) -> Result<(), StoreFault> {
        add_table_rows(alloc, transaction, off, elements)
    }

    fn load_held<S: Alter>(
        alloc: Global,
        connection: &mut Connection<S>,
        off: u64,
    ) -> Result<Loaded, StoreFault> {
        load_tables(alloc, connection, off)
    }

    fn find_held<S: Alter>(
        alloc: Global,
        connection: &mut Connection<S>,
        kind: MemberKind,
        id: i64,
    ) -> Result<Found, StoreFault> {
        find_tables(alloc, connection, kind, id)
    }

    fn any_flag_held<S: Alter>(
        _alloc: Global,
        connection: &mut Connection<S>,
    ) -> Result<bool, StoreFault> {
        any_flag_in_tables(connection)
    }

    fn shows_elements<S: Alter>(
        alloc: Global,
        connection: &mut Connection<S>,
        extent: &Extent,
        elements: &[Element],
    ) -> Result<bool, StoreFault> {
        shows_tables(alloc, connection, extent, elements)
    }

    fn has_element_counts<S: Alter>(
        connection: &mut Connection<S>,
        counts: &Counts,
    ) -> Result<bool, StoreFault> {
        has_table_counts(connection, counts)
    }
}
