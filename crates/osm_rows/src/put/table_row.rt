//! Rows of `element`, `tag` and `link`, the layout of tables.

ghost use Rattle.std.specs.Prelude.{◌≡◌, ◌++◌, OnOk, IfErr};
ghost use Rattle.sqlite.specs.Order.{Row};
ghost use Rattle.sqlite.specs.Values.{bound};
ghost use Rattle.osm_rows.specs.Keeping.{IsForeign};

use crate::StoreFault;
use crate::schema::codes::element_code;
use osm_value::MemberKind;
use sqlite::params;
use sqlite::types::ValueRef;

/// A row of one of the tables of elements.
pub trait TableRow {
    /// What it writes there, without the rowid.
    ghost columns: { Self → Row };

    /// Adds the columns, in their order, to values that are to be written. `sqlite` writes a NaN as NULL.
    fn push_values<'v>(&'v self, values: &mut Vec<ValueRef<'v>>) -> Result<(), StoreFault>
        ensures pushed { OnOk result (bound values.new.items ≡ bound values.old.items ++ columns self.now) }
        ensures ours { IfErr result (λ fault. ¬ (IsForeign fault)) };
}

/// A row of the table `element`: places are in nanodegrees, times in milliseconds since 1970. What is absent is
/// None.
#[derive(Drop)]
pub struct ElementRow<'a> {
    pub off: i64,
    pub position: i64,
    pub kind: MemberKind,
    pub id: i64,
    pub lat: Option<i64>,
    pub lon: Option<i64>,
    pub version: Option<i32>,
    pub time: Option<i64>,
    pub changeset: Option<i64>,
    pub uid: Option<i32>,
    pub user: Option<&'a str>,
    pub visible: Option<bool>,
}

/// A row of the table `tag`; `number` counts the tags of the element, from 0.
#[derive(Drop)]
pub struct TagRow<'a> {
    pub off: i64,
    pub position: i64,
    pub number: i64,
    pub key: &'a str,
    pub val: &'a str,
}

/// A row of the table `link`: a node of a way, or a member of a relation; `number` counts those of the element,
/// from 0.
#[derive(Drop)]
pub struct LinkRow<'a> {
    pub off: i64,
    pub position: i64,
    pub number: i64,
    pub kind: MemberKind,
    pub id: i64,
    pub role: &'a str,
}

impl<'a> TableRow for ElementRow<'a> {
    ghost use Rattle.osm_rows.specs.Put.WrittenRows.{element_columns};

    ghost columns = { element_columns };

    fn push_values<'v>(&'v self, values: &mut Vec<ValueRef<'v>>) -> Result<(), StoreFault> {
        values.extend_from_slice(params![
            self.off,
            self.position,
            element_code(self.kind),
            self.id,
            self.lat,
            self.lon,
            self.version,
            self.time,
            self.changeset,
            self.uid,
            self.user,
            self.visible,
        ])?;
        Ok(())
    }
}

impl<'a> TableRow for TagRow<'a> {
    ghost use Rattle.osm_rows.specs.Put.WrittenRows.{tag_columns};

    ghost columns = { tag_columns };

    fn push_values<'v>(&'v self, values: &mut Vec<ValueRef<'v>>) -> Result<(), StoreFault> {
        values.extend_from_slice(params![
            self.off,
            self.position,
            self.number,
            self.key,
            self.val,
        ])?;
        Ok(())
    }
}

impl<'a> TableRow for LinkRow<'a> {
    ghost use Rattle.osm_rows.specs.Put.WrittenRows.{link_columns};

    ghost columns = { link_columns };

    fn push_values<'v>(&'v self, values: &mut Vec<ValueRef<'v>>) -> Result<(), StoreFault> {
        values.extend_from_slice(params![
            self.off,
            self.position,
            self.number,
            element_code(self.kind),
            self.id,
            self.role,
        ])?;
        Ok(())
    }
}
