//! Several stores and the file of which they ought to hold all.

ghost use Rattle.std.specs.Prelude.{◌≡◌, ◌↔◌, ◌≤◌, [], ℕ, Some, IsTrue, false, All, List, length, slice_get, IfOk, IfErr, IfSome};
ghost use Rattle.osm_rows.specs.Held.{HeldMap};
ghost use Rattle.osm_rows.specs.Keeping.{IsRange};
ghost use Rattle.osm_reading.specs.Framings.{Known};
ghost use Rattle.osm_parts.specs.Opening.{OnlyOpens};
ghost use Rattle.osm_parts.specs.Reading.{AreRead};
ghost use Rattle.osm_verify.specs.declared.comparing.Depth.{Depth as DepthValue};
ghost use Rattle.osm_verify.specs.Calls.{OfMaps};
ghost use Rattle.osm_verify.specs.Faults.{AuditHasCause, IsOfParts, IsOwnFault};
ghost use Rattle.osm_verify.specs.Judging.{IsAuditOf};
ghost use Rattle.osm_verify.specs.Showing.{AreShownParts, HasTablesThere, HaveTables, IsShownAt, ShowTogether, ShowsExtents};
ghost use Rattle.osm_verify.specs.Together.{AreAllAudited, AreAllJudged, Covers, HoldFile, IsClean, IsVerdict};

use crate::Depth;
use crate::fault::AuditFault;
use crate::file_bytes::FileBytes;
use crate::part_audit::{Audit, Finding, audit_part};
use osm_import::gaps_between;
use osm_parts::{Openings, Part, extents_of_parts, parts_of};
use osm_rows::Audited;
use std::alloc::Global;

/// What is found where stores are compared with a file.
#[derive(Debug, Drop)]
pub struct Verdict {
    /// How many blobs they hold together, each counted once.
    pub blobs: u64,
    /// The ranges of the file that none of these covers, ascending, each as its first offset and the one behind its last byte.
    pub gaps: Vec<(u64, u64)>,
    /// The held blobs that aren't of the file, store after store, of each by offset.
    pub findings: Vec<Finding>,
}

impl Verdict {
    /// Whether there is a blob, each is of the file, and none is missing.
    pub fn agrees(&self) -> bool
        ensures { IsTrue result ↔ IsClean self.now }
    {
        self.blobs > 0 && self.findings.is_empty() && self.gaps.is_empty()
    }
}

/// What was read of stores, by their places, and found at their blobs.
#[derive(Drop)]
struct Gathered {
    stores: Vec<Part>,
    findings: Vec<Finding>,
}

/// How many bytes a file has.
fn size_of<F: FileBytes>(file: &mut F) -> Result<u64, AuditFault>
    ensures told { IfSome (F.bytes file.old) (λ whole. IfOk result (λ size. size ≡ length whole)) }
    ensures fault { (maps : List HeldMap) → IfErr result (IsOfParts maps) }
    ensures cause { (before : ℕ) (now : ℕ) → IfErr result (AuditHasCause before now) }
    ensures kept { F.bytes file.new ≡ F.bytes file.old }
{
    match file.size() {
        Ok(size) => Ok(size),
        Err(_) => Err(AuditFault::Unread(0)),
    }
}

/// The audit of the store at a place, which is opened and closed.
fn audit_at<K: Audited + Drop, O: Openings<K>, F: FileBytes>(
    alloc: Global,
    openings: &mut O,
    file: &mut F,
    place: u64,
    depth: Depth,
) -> Result<Audit, AuditFault>
    ensures audited { OfMaps O.holds O.is_honest openings.old openings.new (λ maps. (held : HeldMap) → slice_get maps place ≡ Some held
        → IfOk result (IsAuditOf depth held (F.bytes file.old))) }
    ensures ranges { IfOk result (λ audit. All IsRange audit.extents.items) }
    ensures shown { O.is_honest openings.new → depth ≡ Depth.Elements → HasTablesThere K.BlobReader K.has_tables (O.lies openings.old place)
        → IfOk result (λ audit. audit.findings.items ≡ [] → IsShownAt (O.lies openings.old place) (ShowsExtents K.has_rows K.layout K.trees (F.bytes file.old)) audit.extents.items) }
    ensures still { (at : ℕ) (store : K) → O.lies openings.new at store → O.lies openings.old at store }
    ensures fault { OfMaps O.holds O.is_honest openings.old openings.new (λ _. IfErr result (IsOwnFault (O.failures openings.old) (O.failures openings.new))) }
    ensures opens { OnlyOpens O.holds O.is_honest O.is_open openings.old result openings.new }
    ensures counted { O.failures openings.old ≤ O.failures openings.new }
    ensures kept { F.bytes file.new ≡ F.bytes file.old }
{
    let mut store = openings.open(place)?;
    let answer = audit_part(alloc, &mut store, file, depth);
    openings.close(store);
    answer
}

/// The audits of the stores at `count` places, one after the other.
fn gather<K: Audited + Drop, O: Openings<K>, F: FileBytes>(
    alloc: Global,
    openings: &mut O,
    count: u64,
    file: &mut F,
    depth: Depth,
) -> Result<Gathered, AuditFault>
    ensures audited { OfMaps O.holds O.is_honest openings.old openings.new (λ maps. length maps ≡ count → IfOk result (AreAllAudited depth (F.bytes file.old) maps)) }
    ensures many { IfOk result (λ all. length all.stores.items ≡ count) }
    ensures shown { O.is_honest openings.new → depth ≡ Depth.Elements → HaveTables K.BlobReader K.has_tables (O.lies openings.old)
        → IfOk result (λ all. all.findings.items ≡ [] → AreShownParts (O.lies openings.old) (ShowsExtents K.has_rows K.layout K.trees (F.bytes file.old)) 0 all.stores.items) }
    ensures fault { OfMaps O.holds O.is_honest openings.old openings.new (λ _. IfErr result (IsOwnFault (O.failures openings.old) (O.failures openings.new))) }
    ensures opens { OnlyOpens O.holds O.is_honest O.is_open openings.old result openings.new }
    ensures counted { O.failures openings.old ≤ O.failures openings.new }
    ensures kept { F.bytes file.new ≡ F.bytes file.old }
{
    let mut stores = Vec::new(alloc);
    let mut findings = Vec::new(alloc);
    for place in 0..count {
        let audit = audit_at(alloc, openings, file, place, depth)?;
        findings.extend_from_slice(&audit.findings)?;
        stores.push(Part {
            place,
            extents: audit.extents,
            history: false,
        })?;
    }
    Ok(Gathered { stores, findings })
}

/// The verdict on the stores of these parts, at whose blobs this was found.
fn verdict_of(
    alloc: Global,
    parts: &[Part],
    size: u64,
    findings: Vec<Finding>,
) -> Result<Verdict, AuditFault>
    ensures verdict { (maps : List HeldMap) (depth : DepthValue) (known : Known) → AreRead maps false parts.now → AreAllJudged depth known maps findings.items → IfSome known (λ file. size ≡ length file)
        → IfOk result (IsVerdict depth known maps) }
    ensures covers { (maps : List HeldMap) (known : Known) → AreRead maps false parts.now → IfSome known (λ file. size ≡ length file) → IfOk result (Covers known maps) }
    ensures findings { IfOk result (λ verdict. verdict.findings.items ≡ findings.items) }
    ensures fault { (maps : List HeldMap) → IfErr result (IsOfParts maps) }
    ensures cause { (before : ℕ) (now : ℕ) → IfErr result (AuditHasCause before now) }
{
    let extents = extents_of_parts(alloc, parts)?;
    let gaps = gaps_between(alloc, &extents, size)?;
    Ok(Verdict {
        blobs: extents.len() as u64,
        gaps,
        findings,
    })
}

/// Compares what `count` stores hold, which are opened one after the other, with a file: each of their blobs with what the
/// file has there, from its offset to its end, and what they hold together with the file's size. So of a file in which each
/// of the stores holds one range it reads each byte once.
///
/// An error is `Unread` with the offset at which a read of the file has failed, 0 where its size can't be told; or `Parts`,
/// with what keeps the stores from being read as one (`read_parts`), the fault of an opening or of a read, or refused memory.
/// By `Depth::Elements` it is `NotThisStore` where at the blobs of a store nothing was found, and its tables have yet more rows.
pub fn audit_parts<K: Audited + Drop, O: Openings<K>, F: FileBytes>(
    alloc: Global,
    openings: &mut O,
    count: u64,
    file: &mut F,
    depth: Depth,
) -> Result<Verdict, AuditFault>
    ensures told { (maps : List HeldMap) → O.holds openings.old maps → O.is_honest openings.new → length maps ≡ count → IfOk result (IsVerdict depth (F.bytes file.old) maps) }
    // Where it agrees, the stores hold the file: each blobs of its frames, and together what an import of it comes to.
    ensures exact { (maps : List HeldMap) → O.holds openings.old maps → O.is_honest openings.new → length maps ≡ count
        → IfOk result (λ verdict. IsClean verdict → IfSome (F.bytes file.old) (λ bytes. HoldFile depth bytes maps)) }
    // Whatever rows the tables have had: where by elements it agrees, the rows of each store are those of the frames of the file
    // that its extents name, and no others, and each frame of the file is named. That leaves out more rows than SQL can count.
    ensures shown { O.is_honest openings.new → depth ≡ Depth.Elements → HaveTables K.BlobReader K.has_tables (O.lies openings.old)
        → IfOk result (λ verdict. IsClean verdict → IfSome (F.bytes file.old) (λ bytes. ShowTogether (O.lies openings.old) (ShowsExtents K.has_rows K.layout K.trees (Some bytes)) count bytes)) }
    ensures fault { (maps : List HeldMap) → O.holds openings.old maps → O.is_honest openings.new → length maps ≡ count → IfErr result (IsOfParts maps) }
    ensures opens { OnlyOpens O.holds O.is_honest O.is_open openings.old result openings.new }
    ensures cause { (maps : List HeldMap) → O.holds openings.old maps → O.is_honest openings.new → IfErr result (AuditHasCause (O.failures openings.old) (O.failures openings.new)) }
    ensures counted { O.failures openings.old ≤ O.failures openings.new }
    ensures kept { F.bytes file.new ≡ F.bytes file.old }
{
    let size = size_of(file)?;
    let all = gather(alloc, openings, count, file, depth)?;
    let parts = parts_of(alloc, &all.stores)?;
    verdict_of(alloc, &parts, size, all.findings)
}
