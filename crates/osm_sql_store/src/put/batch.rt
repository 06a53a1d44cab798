//! Rows of `element`, `tag` and `link`, the layout of tables, several written by one statement.

ghost use Rattle.std.specs.Prelude.{◌≡◌, ℕ, ◌<◌, ◌≤◌, map, length, OnOk};
ghost use Rattle.sqlite.specs.Values.{bound};
ghost use Rattle.sqlite.specs.State.{HasCleanDisk};
ghost use Rattle.sqlite.specs.Held.{state};
ghost use Rattle.osm_sql_store.specs.Inside.{WorksInside};
ghost use Rattle.osm_sql_store.specs.Schema.Over.{IsWriting};
ghost use Rattle.osm_sql_store.specs.Put.Steps.{AddsRows, AddsGivenRows};
ghost use Rattle.osm_sql_store.specs.Put.Batches.{rows_of, statement_of};

use crate::put::statement::execute;
use crate::schema::sql::{
    INSERT_ELEMENT, INSERT_ELEMENTS, INSERT_LINK, INSERT_LINKS, INSERT_TAG, INSERT_TAGS,
};
use osm_rows::{ElementRow, Layout, LinkRow, StoreFault, TableRow, TagRow};
use sqlite::types::ValueRef;
use sqlite::{Alter, Transaction};
use std::alloc::Global;

/// How many rows one statement writes.
#[derive(Clone, Copy)]
pub(crate) enum Batch {
    One,
    /// To run a statement costs more than to write a row, and 32 rows share that; the text is still short enough to be
    /// proved within seconds.
    ThirtyTwo,
}

impl Batch {
    /// The largest that so many rows fill.
    fn filled_by(rows: usize) -> Batch
        requires { 0 < rows }
        ensures { rows_of result ≤ rows }
    {
        if rows >= 32 {
            Batch::ThirtyTwo
        } else {
            Batch::One
        }
    }

    fn rows(self) -> usize
        ensures { result ≡ rows_of self }
    {
        match self {
            Batch::One => 1,
            Batch::ThirtyTwo => 32,
        }
    }

    /// Of two statements, which write one row and 32, the one for so many rows.
    fn statement(self, one: &'static str, thirty_two: &'static str) -> &'static str
        ensures { result.now ≡ statement_of self one.now thirty_two.now }
    {
        match self {
            Batch::One => one,
            Batch::ThirtyTwo => thirty_two,
        }
    }
}

/// A row that a statement adds to its table. `sqlite` chooses the rowid.
pub(crate) trait InsertedRow: TableRow {
    /// The tree of its table.
    ghost tree: { ℕ };

    /// Adds as many rows as the batch has, whose values are the parameters. It is called on any of them: an `impl` takes
    /// the clauses of a trait over only for a method with a receiver.
    fn insert<S: Alter>(
        &self,
        transaction: &mut Transaction<'_, S>,
        batch: Batch,
        values: &[ValueRef<'_>],
    ) -> Result<(), StoreFault>
        ensures step { WorksInside S.Store transaction.old.conn result transaction.new.conn }
        ensures added { HasCleanDisk (state S.Store transaction.new.conn.now) → IsWriting Layout.Tables (state S.Store transaction.old.conn.now)
            → OnOk result (AddsGivenRows Self.TableRow.columns tree (rows_of batch) (bound values.now) (state S.Store transaction.old.conn.now) (state S.Store transaction.new.conn.now)) };
}

impl<'a> InsertedRow for ElementRow<'a> {
    ghost tree = { 2 };

    fn insert<S: Alter>(
        &self,
        transaction: &mut Transaction<'_, S>,
        batch: Batch,
        values: &[ValueRef<'_>],
    ) -> Result<(), StoreFault> {
        execute(
            transaction,
            batch.statement(INSERT_ELEMENT, INSERT_ELEMENTS),
            values,
        )
    }
}

impl<'a> InsertedRow for TagRow<'a> {
    ghost tree = { 4 };

    fn insert<S: Alter>(
        &self,
        transaction: &mut Transaction<'_, S>,
        batch: Batch,
        values: &[ValueRef<'_>],
    ) -> Result<(), StoreFault> {
        execute(
            transaction,
            batch.statement(INSERT_TAG, INSERT_TAGS),
            values,
        )
    }
}

impl<'a> InsertedRow for LinkRow<'a> {
    ghost tree = { 6 };

    fn insert<S: Alter>(
        &self,
        transaction: &mut Transaction<'_, S>,
        batch: Batch,
        values: &[ValueRef<'_>],
    ) -> Result<(), StoreFault> {
        execute(
            transaction,
            batch.statement(INSERT_LINK, INSERT_LINKS),
            values,
        )
    }
}

/// Adds as many rows as the batch has.
fn add_batch<S: Alter, R: InsertedRow>(
    alloc: Global,
    transaction: &mut Transaction<'_, S>,
    batch: Batch,
    rows: &[R],
) -> Result<(), StoreFault>
    requires { length rows.now ≡ rows_of batch }
    ensures step { WorksInside S.Store transaction.old.conn result transaction.new.conn }
    ensures added { HasCleanDisk (state S.Store transaction.new.conn.now) → IsWriting Layout.Tables (state S.Store transaction.old.conn.now)
        → OnOk result (AddsRows Layout.Tables R.InsertedRow.tree (state S.Store transaction.old.conn.now) (state S.Store transaction.new.conn.now) (map R.TableRow.columns rows.now)) }
{
    let mut values = Vec::new(alloc);
    for row in rows {
        row.push_values(&mut values)?;
    }
    match rows.first() {
        Some(row) => row.insert(transaction, batch, &values),
        None => Ok(()),
    }
}

/// Adds all rows of a table.
pub(crate) fn add_rows<S: Alter, R: InsertedRow>(
    alloc: Global,
    transaction: &mut Transaction<'_, S>,
    rows: &[R],
) -> Result<(), StoreFault>
    ensures step { WorksInside S.Store transaction.old.conn result transaction.new.conn }
    ensures added { HasCleanDisk (state S.Store transaction.new.conn.now) → IsWriting Layout.Tables (state S.Store transaction.old.conn.now)
        → OnOk result (AddsRows Layout.Tables R.InsertedRow.tree (state S.Store transaction.old.conn.now) (state S.Store transaction.new.conn.now) (map R.TableRow.columns rows.now)) }
{
    let mut rest = rows;
    while !rest.is_empty() {
        let batch = Batch::filled_by(rest.len());
        let (chunk, after) = rest.split_at(batch.rows());
        add_batch(alloc, transaction, batch, chunk)?;
        rest = after;
    }
    Ok(())
}
