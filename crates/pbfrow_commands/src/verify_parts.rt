//! The command `verify` on several stores that hold parts of one file.

ghost use Rattle.std.specs.Prelude.{◌≡◌, ◌≤◌, List, Some, length, IfSome};
ghost use Rattle.std.specs.List.{count_by};
ghost use Rattle.osm_value.specs.Printing.{Prints};
ghost use Rattle.osm_rows.specs.Held.{HeldMap};
ghost use Rattle.osm_parts.specs.Opening.{KeepsMaps};
ghost use Rattle.osm_verify.specs.Showing.{HaveTables, ShowsExtents, ShowTogether};
ghost use Rattle.osm_verify.specs.Together.{HoldFile};
ghost use Rattle.pbfrow_commands.specs.Telling.{telling};
ghost use Rattle.pbfrow_commands.specs.VerifyingParts.{VerifiesParts, audit_fault_line, finding_line, finding_lines, is_other, verdict_line, verdict_text};

use crate::parts::put_parts_fault;
use crate::status::put_gaps;
use crate::verify::put_at;
use osm_import::{Stop, StreamFault};
use osm_parts::Openings;
use osm_rows::Audited;
use osm_value::{Sink, put};
use osm_verify::{AuditFault, Depth, FileBytes, Finding, Verdict, audit_parts};
use pbfrow_reading::check::put_total;
use pbfrow_reading::input::{put_stop, status};
use std::alloc::Global;

/// Writes the line of a held blob that isn't one of the file.
fn put_finding<S: Sink>(out: &mut S, finding: Finding)
    ensures { Prints S.Sink out.old out.new (finding_line finding) }
{
    match finding {
        Finding::Differs(off) => put_at(out, b"differs ", off),
        Finding::Extra(off) => put_at(out, b"extra ", off),
    }
}

/// Writes a line for each of them.
fn put_findings<S: Sink>(out: &mut S, findings: &[Finding])
    ensures { Prints S.Sink out.old out.new (finding_lines findings.now) }
{
    for finding in findings {
        put_finding(out, *finding);
    }
}

/// Whether the file has another blob in the place of a held one.
fn is_other(finding: Finding) -> bool
    ensures { result ≡ is_other finding }
{
    match finding {
        Finding::Differs(_) => true,
        Finding::Extra(_) => false,
    }
}

/// Of how many of them that is so.
fn count_others(findings: &[Finding]) -> u64
    ensures { result ≡ count_by is_other findings.now }
{
    let mut count = 0;
    for finding in findings {
        if is_other(*finding) {
            count += 1;
        }
    }
    count
}

/// Writes `blobs BLOBS gaps GAPS differs DIFFERS extra EXTRA`.
fn put_counts<S: Sink>(out: &mut S, blobs: u64, gaps: u64, others: u64, extra: u64)
    ensures { Prints S.Sink out.old out.new (verdict_line blobs gaps others extra) }
{
    put_total(out, b"blobs ", blobs);
    put_total(out, b" gaps ", gaps);
    put_total(out, b" differs ", others);
    put_total(out, b" extra ", extra);
    put(out, b"\n");
}

/// Writes all that is found: first the blobs, then the ranges that none covers, and last the counts.
fn put_verdict<S: Sink>(out: &mut S, verdict: &Verdict)
    ensures { Prints S.Sink out.old out.new (verdict_text verdict.now) }
{
    put_findings(out, &verdict.findings);
    put_gaps(out, &verdict.gaps);
    let others = count_others(&verdict.findings);
    let extra = verdict.findings.len() as u64 - others;
    put_counts(out, verdict.blobs, verdict.gaps.len() as u64, others, extra);
}

/// Writes the line of what keeps stores from being compared with a file.
fn put_audit_fault<S: Sink>(out: &mut S, fault: AuditFault)
    ensures { Prints S.Sink out.old out.new (audit_fault_line fault) }
{
    match fault {
        AuditFault::Unread(at) => put_stop(
            out,
            StreamFault {
                fault: Stop::ReadFailed,
                at,
            },
        ),
        AuditFault::Parts(fault) => put_parts_fault(out, fault),
    }
}

/// Compares what `count` stores hold, which are opened one after the other, with a file of which each ought to hold a part,
/// and together all: writes `differs OFFSET` or `extra OFFSET` for each blob of the first store that isn't one of the file, by
/// offset, then for those of the next, `gap FROM TO` for each range of the file that no blob covers, and last the counts; or
/// the line of a fault alone: `ReadFailed` with the offset at which the file can't be read, those of `status_parts`, or by
/// `Depth::Elements` `NotThisStore` where at the blobs of a store all agrees and its tables have yet more rows. What is held
/// stays.
///
/// Answers the exit status: 0 where each store holds nothing but blobs of the file's good frames, they hold together what an
/// import of the file gives, and all was written; else 1.
pub fn verify_parts<K: Audited + Drop, O: Openings<K>, F: FileBytes, S: Sink>(
    alloc: Global,
    openings: &mut O,
    count: u64,
    file: &mut F,
    depth: Depth,
    out: &mut S,
) -> u8
    ensures told { (maps : List HeldMap) → O.holds openings.old maps → O.is_honest openings.new → length maps ≡ count
        → VerifiesParts depth (F.bytes file.old) maps (telling O.failures S.Sink openings.old openings.new out.old out.new result) }
    // At 0 the file is a row of good frames, the blobs of each store are some of theirs, and together they are all.
    ensures exact { (maps : List HeldMap) → O.holds openings.old maps → O.is_honest openings.new → length maps ≡ count → result ≡ 0
        → IfSome (F.bytes file.old) (λ bytes. HoldFile depth bytes maps) }
    // At 0 by elements, whatever rows the tables have had: those of each store are the rows of the frames of the file that its
    // extents name, and no others, and each frame of the file is named. That leaves out more rows than SQL can count.
    ensures shown { O.is_honest openings.new → depth ≡ Depth.Elements → HaveTables K.BlobReader K.has_tables (O.lies openings.old) → result ≡ 0
        → IfSome (F.bytes file.old) (λ bytes. ShowTogether (O.lies openings.old) (ShowsExtents K.has_rows K.layout K.trees (Some bytes)) count bytes) }
    ensures keeps { KeepsMaps O.holds O.is_honest O.is_open openings.old openings.new }
    ensures bound { result ≤ 1 }
{
    match audit_parts(alloc, openings, count, file, depth) {
        Ok(verdict) => {
            put_verdict(out, &verdict);
            status(out, verdict.agrees())
        }
        Err(fault) => {
            put_audit_fault(out, fault);
            1
        }
    }
}
