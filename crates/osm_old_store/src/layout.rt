//! The first layout of pbfrow's databases: each element is a row with a block of its own.

use crate::audit::{has_body_count, shows_bodies};
use crate::load::{any_flag_in_bodies, find_bodies, load_bodies};
use crate::put::add_bodies;
use crate::schema::{has_body_tables, make_body_layout};
use osm_rows::{Counts, Extent, Found, Layout, Loaded, StoreFault, StoreLayout};
use osm_sql_store::{BlobStore, SqlLayout};
use osm_value::{Element, MemberKind};
use sqlite::{Alter, Connection, Error, Transaction};
use sqlite_schema::schema::Schema;
use std::alloc::Global;

/// Each element is a row with a block of its own.
pub struct Bodies;

/// A store that keeps each element as a row with a block of its own.
pub type BodyStore<S> = BlobStore<S, Bodies>;

impl StoreLayout for Bodies {
    ghost use Rattle.osm_rows.specs.declared.schema.layout.Layout.TheVariants as layouts;

    ghost LAYOUT = { layouts.Bodies };

    const LAYOUT: Layout = Layout::Bodies;
}

impl SqlLayout for Bodies {
    fn make_layout<S: Alter>(transaction: &mut Transaction<'_, S>) -> Result<(), Error> {
        make_body_layout(transaction)
    }

    fn has_tables(schema: &Schema) -> bool {
        has_body_tables(schema)
    }

    fn write_elements<S: Alter>(
        alloc: Global,
        transaction: &mut Transaction<'_, S>,
        off: u64,
        elements: &[Element],
    ) -> Result<(), StoreFault> {
        add_bodies(alloc, transaction, off, elements)
    }

    fn load_held<S: Alter>(
        alloc: Global,
        connection: &mut Connection<S>,
        off: u64,
    ) -> Result<Loaded, StoreFault> {
        load_bodies(alloc, connection, off)
    }

    fn find_held<S: Alter>(
        alloc: Global,
        connection: &mut Connection<S>,
        kind: MemberKind,
        id: i64,
    ) -> Result<Found, StoreFault> {
        find_bodies(alloc, connection, kind, id)
    }

    fn any_flag_held<S: Alter>(
        alloc: Global,
        connection: &mut Connection<S>,
    ) -> Result<bool, StoreFault> {
        any_flag_in_bodies(alloc, connection)
    }

    fn shows_elements<S: Alter>(
        alloc: Global,
        connection: &mut Connection<S>,
        extent: &Extent,
        elements: &[Element],
    ) -> Result<bool, StoreFault> {
        shows_bodies(alloc, connection, extent.off, elements)
    }

    fn has_element_counts<S: Alter>(
        connection: &mut Connection<S>,
        counts: &Counts,
    ) -> Result<bool, StoreFault> {
        has_body_count(connection, counts.elements)
    }
}
