//! One store and a file of whose blobs it ought to hold some.

ghost use Rattle.std.specs.Prelude.{◌≡◌, ◌+◌, ◌++◌, ◌≤◌, ℕ, [], All, length, IfOk, IfErr, IfSome, IsNone, OnOk};
ghost use Rattle.std.specs.List.{cons_option};
ghost use Rattle.osm_rows.specs.Audit.{AreCountable, ShowsCounts, counts_of, elements_held};
ghost use Rattle.osm_rows.specs.Calls.{KeepsTables, OfHeld};
ghost use Rattle.osm_rows.specs.Keeping.{IsRange};
ghost use Rattle.osm_import.specs.Stores.{Rereads};
ghost use Rattle.osm_verify.specs.Calls.{RereadsTables};
ghost use Rattle.osm_verify.specs.Faults.{AuditHasCause, IsOwnAudit, IsOwnFault};
ghost use Rattle.osm_verify.specs.InFile.{IsIn};
ghost use Rattle.osm_verify.specs.Judging.{AreJudged, IsAuditOf, IsFound, IsJudged, IsStray, ShowsPart, finding_of};
ghost use Rattle.osm_verify.specs.Seeing.{SeesExtent, SeesExtents, SeesFrame};

use crate::fault::AuditFault;
use crate::file_bytes::FileBytes;
use crate::{Agreement, Depth, compare, has_rows};
use osm_import::{ExamineFault, SourceFailed, examine};
use osm_rows::{Audited, Counts, Extent, StoreFault};
use std::alloc::{AllocError, Global};

/// How many bytes a frame has at most.
const MOST_BYTES: u64 = 33_685_507;

/// A held blob that isn't one of the file, by the offset at which it begins.
#[derive(Clone, Copy, Debug, PartialEq, Eq)]
pub enum Finding {
    /// From there to where it ends the file has a good blob, and this is another one, or has other rows.
    Differs(u64),
    /// The file has no good blob from there to where it ends.
    Extra(u64),
}

/// What was read of a store, and found at its blobs.
#[derive(Debug, Drop)]
pub struct Audit {
    /// The extents of all its blobs, by offset.
    pub extents: Vec<Extent>,
    /// Those that aren't of the file, by offset.
    pub findings: Vec<Finding>,
}

/// The bytes of the file from the offset of an extent to its end; none where the file has not so many, or a frame.
fn read_blob<F: FileBytes>(
    alloc: Global,
    file: &mut F,
    extent: &Extent,
) -> Result<Option<Vec<u8>>, AuditFault>
    requires { IsRange extent.now }
    ensures some { IfOk result (λ read. IfSome read (λ bytes. IsIn (F.bytes file.old) extent.now.off bytes.items × (extent.now.fin ≡ extent.now.off + length bytes.items))) }
    ensures none { IfOk result (λ read. IsNone read → IfSome (F.bytes file.old) (λ whole. IsStray whole extent.now)) }
    ensures own { IfErr result IsOwnAudit }
    ensures cause { IfErr result (λ fault. (before : ℕ) (now : ℕ) → AuditHasCause before now fault) }
    ensures kept { F.bytes file.new ≡ F.bytes file.old }
{
    let length = extent.fin - extent.off;
    if length > MOST_BYTES {
        return Ok(None);
    }
    let mut bytes = Vec::new(alloc);
    bytes.resize(length as usize, 0)?;
    match file.read_at(extent.off, &mut bytes) {
        Ok(true) => Ok(Some(bytes)),
        Ok(false) => Ok(None),
        Err(SourceFailed) => Err(AuditFault::Unread(extent.off)),
    }
}

/// What is found of a blob that is held at this offset and compares so with a good frame there.
fn finding_of(off: u64, agreement: Agreement) -> Option<Finding>
    ensures { result ≡ finding_of off agreement }
{
    match agreement {
        Agreement::Same => None,
        Agreement::Missing | Agreement::Differs => Some(Finding::Differs(off)),
    }
}

/// What is found of a blob that is held at an offset, of which the file has these bytes there. Counts the rows of a good one.
fn judge<K: Audited>(
    alloc: Global,
    store: &mut K,
    off: u64,
    bytes: &[u8],
    depth: Depth,
    rows: &mut Counts,
) -> Result<Option<Finding>, AuditFault>
    ensures found { OfHeld K.BlobReader store.old store.new (λ held. IfOk result (IsFound depth held off bytes.now)) }
    ensures seen { IfOk result (λ found. IsNone found
        → SeesFrame K.BlobReader store.new (K.has_tables store.old) (K.has_rows (K.trees store.old)) depth rows.old rows.new off bytes.now) }
    ensures reads { RereadsTables K.BlobReader store.old result store.new }
    ensures own { OfHeld K.BlobReader store.old store.new (λ _. IfErr result IsOwnAudit) }
    ensures cause { IfErr result (AuditHasCause (K.failures store.old) (K.failures store.new)) }
{
    match examine(alloc, off, bytes) {
        Ok(good) => {
            let agreement = compare(alloc, store, off, bytes, &good, depth)?;
            rows.add(&good.elements);
            Ok(finding_of(off, agreement))
        }
        Err(ExamineFault::Bad(_)) => Ok(Some(Finding::Extra(off))),
        Err(ExamineFault::Memory) => Err(AuditFault::from(StoreFault::Memory)),
    }
}

/// What is found at an extent. Counts the rows of a good blob there.
fn audit_extent<K: Audited, F: FileBytes>(
    alloc: Global,
    store: &mut K,
    file: &mut F,
    extent: &Extent,
    depth: Depth,
    rows: &mut Counts,
) -> Result<Option<Finding>, AuditFault>
    requires { IsRange extent.now }
    ensures found { OfHeld K.BlobReader store.old store.new (λ held. IfOk result (IsJudged depth held (F.bytes file.old) extent.now)) }
    ensures seen { IfOk result (λ found. IsNone found
        → SeesExtent K.BlobReader store.old store.new (K.has_tables store.old) (K.has_rows (K.trees store.old)) depth rows.old rows.new (F.bytes file.old) extent.now) }
    ensures reads { RereadsTables K.BlobReader store.old result store.new }
    ensures own { OfHeld K.BlobReader store.old store.new (λ _. IfErr result IsOwnAudit) }
    ensures cause { IfErr result (AuditHasCause (K.failures store.old) (K.failures store.new)) }
    ensures kept { F.bytes file.new ≡ F.bytes file.old }
{
    match read_blob(alloc, file, extent)? {
        Some(bytes) => judge(alloc, store, extent.off, &bytes, depth, rows),
        None => Ok(Some(Finding::Extra(extent.off))),
    }
}

/// Puts what was found, if anything was, behind the others.
fn note(findings: &mut Vec<Finding>, found: Option<Finding>) -> Result<(), AllocError>
    ensures { OnOk result (findings.new.items ≡ findings.old.items ++ cons_option found []) }
{
    if let Some(finding) = found {
        findings.push(finding)?;
    }
    Ok(())
}

/// What is found at the extents, in order. Counts the rows of the good blobs there.
fn audit_extents<K: Audited, F: FileBytes>(
    alloc: Global,
    store: &mut K,
    file: &mut F,
    extents: &[Extent],
    depth: Depth,
    rows: &mut Counts,
) -> Result<Vec<Finding>, AuditFault>
    requires ranges { All IsRange extents.now }
    requires none { rows.old ≡ counts_of [] }
    ensures found { OfHeld K.BlobReader store.old store.new (λ held. IfOk result (λ findings. AreJudged depth held (F.bytes file.old) extents.now findings.items)) }
    ensures seen { IfOk result (λ findings. findings.items ≡ []
        → SeesExtents K.BlobReader store.old store.new (K.has_tables store.old) (K.has_rows (K.trees store.old)) depth rows.new (F.bytes file.old) extents.now) }
    ensures reads { RereadsTables K.BlobReader store.old result store.new }
    ensures own { OfHeld K.BlobReader store.old store.new (λ _. IfErr result IsOwnAudit) }
    ensures cause { IfErr result (AuditHasCause (K.failures store.old) (K.failures store.new)) }
    ensures kept { F.bytes file.new ≡ F.bytes file.old }
{
    let mut findings = Vec::new(alloc);
    for extent in extents {
        let found = audit_extent(alloc, store, file, extent, depth, rows)?;
        note(&mut findings, found)?;
    }
    Ok(findings)
}

/// Refuses tables of which by elements nothing was found, and that yet have other rows than these.
fn refuse_other_rows<K: Audited>(
    alloc: Global,
    store: &mut K,
    findings: &[Finding],
    depth: Depth,
    rows: &Counts,
) -> Result<(), AuditFault>
    ensures shown { K.is_honest store.new → AreCountable rows.now → findings.now ≡ [] → depth ≡ Depth.Elements
        → OnOk result (K.is_open store.new × (K.has_tables store.old → ShowsCounts K.layout (K.trees store.old) rows.now)) }
    ensures same { KeepsTables K.BlobReader store.old store.new }
    ensures rereads { Rereads K.BlobReader store.old result store.new }
    ensures own { OfHeld K.BlobReader store.old store.new (λ held. (findings.now ≡ [] → depth ≡ Depth.Elements → rows.now ≡ counts_of (elements_held held)) → IfErr result IsOwnAudit) }
    ensures cause { OfHeld K.BlobReader store.old store.new (λ held. (findings.now ≡ [] → depth ≡ Depth.Elements → rows.now ≡ counts_of (elements_held held)) → IfErr result (AuditHasCause (K.failures store.old) (K.failures store.new))) }
    ensures counted { K.failures store.old ≤ K.failures store.new }
{
    if depth == Depth::Extents || !findings.is_empty() {
        return Ok(());
    }
    if has_rows(alloc, store, rows)? {
        return Ok(());
    }
    Err(AuditFault::from(StoreFault::NotThisStore(None)))
}

/// Compares what a store holds with a file: at each held extent, by its offset, the bytes that the file has from there to
/// its end. What the file has elsewhere isn't read. What is held stays.
///
/// Of the rows nothing has to be known. By `Depth::Elements`, where nothing was found and the tables have yet more rows, as
/// another program has written them, that is the fault `NotThisStore`; over an honest disk, where the store holds a map, it
/// never is. An error is that, or `Unread` with the offset of the extent at which a read of the file has failed, the fault of
/// a read of the store that has failed, or refused memory.
pub fn audit_part<K: Audited, F: FileBytes>(
    alloc: Global,
    store: &mut K,
    file: &mut F,
    depth: Depth,
) -> Result<Audit, AuditFault>
    ensures audited { OfHeld K.BlobReader store.old store.new (λ held. IfOk result (IsAuditOf depth held (F.bytes file.old))) }
    ensures ranges { IfOk result (λ audit. All IsRange audit.extents.items) }
    // Whatever rows the tables have had: where by elements nothing was found, they have the rows of the file's blobs at these
    // extents, and no others. That leaves out more rows than SQL can count.
    ensures shown { K.is_honest store.new → K.has_tables store.old → depth ≡ Depth.Elements
        → IfOk result (λ audit. audit.findings.items ≡ [] → ShowsPart (K.has_rows (K.trees store.old)) K.layout (K.trees store.old) (F.bytes file.old) audit.extents.items) }
    ensures rereads { Rereads K.BlobReader store.old result store.new }
    ensures fault { OfHeld K.BlobReader store.old store.new (λ _. IfErr result (IsOwnFault (K.failures store.old) (K.failures store.new))) }
    ensures counted { K.failures store.old ≤ K.failures store.new }
    ensures kept { F.bytes file.new ≡ F.bytes file.old }
{
    let extents = store.extents(alloc)?;
    let mut rows = Counts::NONE;
    let findings = audit_extents(alloc, store, file, &extents, depth, &mut rows)?;
    refuse_other_rows(alloc, store, &findings, depth, &rows)?;
    Ok(Audit { extents, findings })
}
