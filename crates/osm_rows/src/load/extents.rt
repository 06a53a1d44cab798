//! Extents, read from rows of the table `blob`.

ghost use Rattle.std.specs.Prelude.{◌≡◌, ◌↔◌, List, map, IsTrue, MatchResult, IfOk, All};
ghost use Rattle.osm_rows.specs.LayoutHolding.{IsKeptExtent};
ghost use Rattle.osm_rows.specs.Keeping.{IsRange, AscendApart};
ghost use Rattle.osm_rows.specs.Rows.{extent_columns};

use crate::StoreFault;
use crate::keeper::Extent;
use crate::schema::codes::blob_kind;
use crate::unreadable::unread;
use pbf_frame::MAX_OFFSET;
use sqlite::Row;
use std::alloc::Global;

/// The extent that a row stands for.
fn extent_of(row: &Row) -> Result<Extent, StoreFault>
    ensures exact { (extent : Extent) → IsKeptExtent extent → row.now ≡ extent_columns extent → MatchResult result (λ found. found ≡ extent) (λ fault. fault ≡ StoreFault.Memory) }
    ensures range { IfOk result IsRange }
{
    let off: u64 = row.get(0).map_err(unread)?;
    let fin: u64 = row.get(1).map_err(unread)?;
    let digest: Vec<u8> = row.get(2).map_err(unread)?;
    let code: u64 = row.get(3).map_err(unread)?;
    let n: u64 = row.get(4).map_err(unread)?;
    let (Some(digest), Some(kind)) = (digest.as_array(), blob_kind(code)) else {
        return Err(StoreFault::NotThisStore(None));
    };
    if off >= fin || fin > MAX_OFFSET {
        return Err(StoreFault::NotThisStore(None));
    }
    Ok(Extent {
        off,
        fin,
        digest: *digest,
        kind,
        n,
    })
}

/// The extents that the rows stand for.
fn read_extents(alloc: Global, rows: &[Row]) -> Result<Vec<Extent>, StoreFault>
    ensures exact { (extents : List Extent) → All IsKeptExtent extents → rows.now ≡ map extent_columns extents → MatchResult result (λ found. found.items ≡ extents) (λ fault. fault ≡ StoreFault.Memory) }
    ensures ranges { IfOk result (λ found. All IsRange found.items) }
{
    let mut extents = Vec::new(alloc);
    for row in rows {
        extents.push(extent_of(row)?)?;
    }
    Ok(extents)
}

/// Whether each extent ends where the next one begins, or before.
pub fn are_apart(extents: &[Extent]) -> bool
    requires { All IsRange extents.now }
    ensures { IsTrue result ↔ (AscendApart extents.now) }
{
    let mut end = 0;
    for extent in extents {
        if extent.off < end {
            return false;
        }
        end = extent.fin;
    }
    true
}

/// The extents that the rows stand for, which ascend and don't meet.
pub fn read_apart(alloc: Global, rows: &[Row]) -> Result<Vec<Extent>, StoreFault>
    ensures exact { (extents : List Extent) → All IsKeptExtent extents → AscendApart extents → rows.now ≡ map extent_columns extents → MatchResult result (λ found. found.items ≡ extents) (λ fault. fault ≡ StoreFault.Memory) }
    ensures ranges { IfOk result (λ found. All IsRange found.items) }
    ensures apart { IfOk result (λ found. AscendApart found.items) }
{
    let extents = read_extents(alloc, rows)?;
    if are_apart(&extents) {
        Ok(extents)
    } else {
        Err(StoreFault::NotThisStore(None))
    }
}
