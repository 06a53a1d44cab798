//! Why what is held isn't a whole file.

ghost use Rattle.std.specs.Prelude.{◌≡◌, slice_get, MatchOption};
ghost use Rattle.osm_import.specs.Gaps.{ranges_between};
ghost use Rattle.osm_import.specs.Exports.{greatest_end, size_of, IsRefusalOf, AreTiling};

use super::ExportFault;
use crate::gap::gap_before;
use osm_rows::Extent;

fn first_gap(extents: &[Extent], size: u64) -> Option<(u64, u64)>
    ensures { result ≡ slice_get (ranges_between 0 size extents.now) 0 }
{
    let mut end = 0;
    for extent in extents {
        let gap = gap_before(end, extent.off, size);
        if gap.is_some() {
            return gap;
        }
        end = end.max(extent.fin);
    }
    gap_before(end, size, size)
}

/// The greatest end of extents, 0 where there is none.
pub fn greatest_end(extents: &[Extent]) -> u64
    ensures { result ≡ greatest_end extents.now }
{
    let mut end = 0;
    for extent in extents {
        end = end.max(extent.fin);
    }
    end
}

/// Why extents, which ascend, don't tile the size in bytes, which is their greatest end where none is given: `Incomplete`
/// with the first gap, or (0, 0) where there are none and the size is 0; else `PastEnd`.
pub fn export_refusal(extents: &[Extent], size: Option<u64>) -> Option<ExportFault>
    ensures { MatchOption result (AreTiling extents.now (size_of size extents.now)) (IsRefusalOf extents.now (size_of size extents.now)) }
{
    let greatest = greatest_end(extents);
    let size = size.unwrap_or(greatest);
    if let Some((from, to)) = first_gap(extents, size) {
        return Some(ExportFault::Incomplete(from, to));
    }
    if extents.is_empty() {
        return Some(ExportFault::Incomplete(0, 0));
    }
    if size < greatest {
        return Some(ExportFault::PastEnd(greatest));
    }
    None
}
