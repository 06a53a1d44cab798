//! Whether a row is that of an extent.

ghost use Rattle.std.specs.Prelude.{◌≡◌, ◌↔◌, ◌<◌, ◌≤◌, ◌^◌, ◌∷◌, [], IsTrue};
ghost use Rattle.osm_rows.specs.Rows.{extent_columns};

use crate::audit::same::has_values;
use osm_rows::{Extent, blob_code};
use pbf_frame::MAX_OFFSET;
use sqlite::{Row, params};

/// Whether a row is that of an extent.
fn is_extent(row: &Row, extent: &Extent) -> bool
    requires bounds { (extent.now.off ≤ MAX_OFFSET) × (extent.now.fin ≤ MAX_OFFSET) × (extent.now.n < 2 ^ 63) }
    ensures { IsTrue result ↔ (row.now ≡ extent_columns extent.now) }
{
    let kind = blob_code(extent.kind);
    has_values(
        row,
        params![
            extent.off as i64,
            extent.fin as i64,
            extent.digest.as_slice(),
            kind,
            extent.n as i64,
        ],
    )
}

/// Whether there is one row, that of an extent.
pub(crate) fn are_extent(rows: &[Row], extent: &Extent) -> bool
    requires bounds { (extent.now.off ≤ MAX_OFFSET) × (extent.now.fin ≤ MAX_OFFSET) × (extent.now.n < 2 ^ 63) }
    ensures { IsTrue result ↔ (rows.now ≡ extent_columns extent.now ∷ []) }
{
    rows.len() == 1 && is_extent(&rows[0], extent)
}
