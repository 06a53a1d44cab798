//! The command `verify`: whether a store holds exactly what an import of a file gives.

ghost use Rattle.std.specs.Prelude.{◌≡◌, ◌↔◌, ◌+◌, ◌<◌, ◌≤◌, ◌++◌, ◌∷◌, [], filter, length, codes, true, ℕ, List, IsTrue, IfOk, IfErr, IfSome, OnOk, OnErr};
ghost use Rattle.std.specs.Fmt.{decimal};
ghost use Rattle.pbf_frame.specs.declared.part.TheConstants.{MAX_OFFSET as LAST};
ghost use Rattle.osm_value.specs.Printing.{Prints};
ghost use Rattle.osm_rows.specs.Audit.{counts_of as counts_of_rows, elements_held};
ghost use Rattle.osm_rows.specs.Calls.{KeepsTables, OfHeld};
ghost use Rattle.osm_rows.specs.Keeping.{IsForeign, extents_of};
ghost use Rattle.osm_import.specs.Files.{IsFile};
ghost use Rattle.osm_reading.specs.Good.{IsFrame};
ghost use Rattle.osm_import.specs.Step.{HasCause};
ghost use Rattle.osm_import.specs.Stores.{Rereads, Stays};
ghost use Rattle.osm_verify.specs.Agreements.{begins};
ghost use Rattle.osm_verify.specs.Laws.{IsExact};
ghost use Rattle.pbfrow_commands.specs.Verifying.{Compared, ComparesInput, CountsFrame, HasCompared, HasCountedRows, HasOwnElements, HasSeen, HasSeenInput, Inspects, IsClosing, Judges, ReadsAgain, ShowsFile, VerifiesInput, agree, agreement_line, close_text, compared_lines, comparison_line, counts_line, counts_of, extra_lines, first_extra, header_line, is_agreed, is_whole};
ghost use Rattle.pbfrow_reading.specs.Walks.{Part, status_of};

use osm_import::{
    ExamineFault, Fault, FrameReader, Inlet, Stop, StreamFault, examine_frame, put_fault_at,
};
use osm_rows::{Audited, BlobReader, Counts as Rows, Extent, StoreFault};
use osm_value::{Outlet, Sink, put, put_digits};
use osm_verify::{Agreement, Depth, compare, extents_beginning, has_rows};
use pbf_frame::MAX_OFFSET;
use pbfrow_reading::check::put_total;
use pbfrow_reading::input::{flush_to_wait, frame_of, put_stop, status};
use pbfrow_reading::watcher::Watcher;
use std::alloc::Global;
use std::io::{Read, Write};

/// What was found at a frame of the input.
#[derive(Debug, Drop)]
struct Finding {
    /// How what is held at its offset compares with it, or its fault.
    verdict: Result<Agreement, Fault>,
    /// The held extents that begin in it and aren't its own.
    extras: Vec<Extent>,
}

/// How the frames of an input were compared.
#[derive(Debug, Drop)]
enum Close {
    /// All of them; these held extents begin at the end of the input or behind.
    Whole(Vec<Extent>),
    /// Up to a frame that can't be read.
    Early(StreamFault),
    /// Up to this offset, that of a frame or the end of the input, at which the store answered this fault.
    Broken(StoreFault, u64),
    /// The output has failed, so that no more was read.
    Unwritten,
}

/// How many whole frames an input has, how many of them are bad, missing or different, and how many extents are extra. A
/// count stops at 2^64 - 1.
#[derive(Clone, Copy, Debug, PartialEq, Eq)]
struct Counts {
    blobs: u64,
    bad: u64,
    missing: u64,
    differs: u64,
    extra: u64,
}

impl Counts {
    const NONE: Counts = Counts {
        blobs: 0,
        bad: 0,
        missing: 0,
        differs: 0,
        extra: 0,
    };

    /// Counts one frame more.
    fn add(&mut self, finding: &Finding)
        ensures { (blobs : List (Part Compared)) (p : Part Compared) → p.found.verdict ≡ finding.now.verdict → p.found.extras ≡ finding.now.extras.items → self.old ≡ counts_of blobs 0
            → self.new ≡ counts_of (blobs ++ p ∷ []) 0 }
    {
        self.blobs = self.blobs.saturating_add(1);
        self.extra = self.extra.saturating_add(finding.extras.len() as u64);
        match finding.verdict {
            Ok(Agreement::Same) => {}
            Ok(Agreement::Missing) => self.missing = self.missing.saturating_add(1),
            Ok(Agreement::Differs) => self.differs = self.differs.saturating_add(1),
            Err(_) => self.bad = self.bad.saturating_add(1),
        }
    }

    /// Counts extents that are extra behind all frames.
    fn add_extras(&mut self, count: u64)
        ensures { (blobs : List (Part Compared)) → self.old ≡ counts_of blobs 0 → self.new ≡ counts_of blobs count }
    {
        self.extra = self.extra.saturating_add(count);
    }

    /// Whether there is a frame, none is bad, missing or different, and no extent is extra.
    fn agree(&self) -> bool
        ensures { result ≡ agree self.now }
    {
        let sound = self.bad == 0 && self.missing == 0;
        let exact = self.differs == 0 && self.extra == 0;
        self.blobs > 0 && (sound && exact)
    }
}

/// Compares what a store holds with what an import of the input gives: at each frame what is held at its offset, by its
/// extent or by its elements too, and which other extents begin in the frame, and at last which begin behind the end.
/// Writes `missing OFFSET`, `differs OFFSET` or `extra OFFSET` for each that doesn't agree and a fault's line for each bad
/// blob, ascending by offset, and finally the counts; nothing follows the line of a read that failed, of a fault of the
/// store or of refused memory. Where by elements all agrees and the tables have yet more rows, as another program has
/// written them, that is the fault `NotThisStore` at the end of the input. The lines so far are flushed before more of the input is read. Where the output fails, no
/// more is read. What is held stays. The watcher is called for each blob that was compared.
///
/// Answers the exit status: 0 where the store holds exactly what an import of the input gives, at least one blob, and all
/// was written; else 1.
pub fn verify<K: Audited, R: Read, P: Watcher, W: Write>(
    alloc: Global,
    store: &mut K,
    input: &mut R,
    depth: Depth,
    watcher: &P,
    out: &mut Outlet<W>,
) -> u8
    ensures verified { OfHeld K.BlobReader store.old store.new (λ held. VerifiesInput depth held (R.remaining input.old) (W.contents out.old.writer) (W.contents out.new.writer) out.new.has_failed (K.failures store.old) (K.failures store.new) result) }
    // At 0 the input is a file of good blobs, and the store holds what an import of it comes to.
    ensures exact { OfHeld K.BlobReader store.old store.new (λ held. result ≡ 0
        → IfSome (R.remaining input.old) (λ bytes. (frames : List (List ℕ)) × IsFile bytes frames × IsExact depth held frames)) }
    // At 0 by elements, whatever rows the tables have had: they are those that an import of the input writes (`has_rows`), and
    // no others, and queries see these. That leaves out an input of more rows than SQL can count.
    ensures shown { K.is_honest store.new → K.has_tables store.old → depth ≡ Depth.Elements → result ≡ 0
        → IfSome (R.remaining input.old) (λ bytes. (frames : List (List ℕ)) × IsFile bytes frames × ShowsFile (K.has_rows (K.trees store.old)) K.layout (K.trees store.old) frames) }
    ensures stays { Stays K.BlobReader store.old store.new }
    ensures bound { result ≤ 1 }
{
    let mut counts = Counts::NONE;
    let close = compare_blobs(alloc, store, input, depth, watcher, &mut counts, out);
    finish(out, &mut counts, &close)
}

/// Compares the blobs, counts them and writes their lines, and answers how the frames ended.
fn compare_blobs<K: Audited, R: Read, P: Watcher, W: Write>(
    alloc: Global,
    store: &mut K,
    input: &mut R,
    depth: Depth,
    watcher: &P,
    counts: &mut Counts,
    out: &mut Outlet<W>,
) -> Close
    requires { counts.old ≡ counts_of [] 0 }
    ensures told { OfHeld K.BlobReader store.old store.new (λ held. ComparesInput depth held (R.remaining input.old) (W.contents out.old.writer) (W.contents out.new.writer) out.new.has_failed (K.failures store.old) (K.failures store.new) counts.new result) }
    ensures seen { K.is_honest store.new → K.has_tables store.old → HasSeenInput (K.has_rows (K.trees store.old)) K.layout (K.trees store.old) depth (R.remaining input.old) counts.new result }
    ensures stays { Stays K.BlobReader store.old store.new }
{
    let mut frames = match FrameReader::new(alloc, 0, Inlet::new(input)) {
        Ok(frames) => frames,
        Err(stop) => return Close::Early(stop),
    };
    let mut end = 0;
    let mut rows = Rows::NONE;
    loop {
        let Ok(()) = flush_to_wait(&mut frames, out) else {
            return Close::Unwritten;
        };
        match frames.next() {
            Ok(Some((at, bytes))) => {
                match compare_blob(alloc, store, at, bytes, depth, counts, &mut rows, out) {
                    Ok(next) => {
                        end = next;
                        watcher.see_blob();
                    }
                    Err(fault) => return Close::Broken(fault, at),
                }
            }
            Ok(None) => return close_whole(alloc, store, end, depth, counts, &rows),
            Err(stop) => return Close::Early(stop),
        }
    }
}

/// The end of an input, with the held extents that begin there or behind. Where by elements all was found alike and there
/// are none, the tables may yet have other rows, so these are counted.
fn close_whole<K: Audited>(
    alloc: Global,
    store: &mut K,
    end: u64,
    depth: Depth,
    counts: &Counts,
    rows: &Rows,
) -> Close
    requires { end ≤ LAST }
    ensures extras { OfHeld K.BlobReader store.old store.new (λ held. (depth ≡ Depth.Elements → agree counts.now ≡ true → filter (begins end LAST) (extents_of held) ≡ [] → rows.now ≡ counts_of_rows (elements_held held))
        → IsClosing held end (K.failures store.old) (K.failures store.new) result) }
    ensures shown { K.is_honest store.new → HasCountedRows (K.is_open store.new) (K.has_tables store.old) K.layout (K.trees store.old) depth counts.now rows.now result }
    ensures same { KeepsTables K.BlobReader store.old store.new }
    ensures stays { Stays K.BlobReader store.old store.new }
    ensures counted { K.failures store.old ≤ K.failures store.new }
{
    let extras = match extents_beginning(alloc, store, end, MAX_OFFSET) {
        Ok(extras) => extras,
        Err(fault) => return Close::Broken(fault, end),
    };
    if !are_alike(depth, counts, &extras) {
        return Close::Whole(extras);
    }
    match has_rows(alloc, store, rows) {
        Ok(true) => Close::Whole(extras),
        Ok(false) => Close::Broken(StoreFault::NotThisStore(None), end),
        Err(fault) => Close::Broken(fault, end),
    }
}

/// Whether by elements all was found alike, and no extent begins behind.
fn are_alike(depth: Depth, counts: &Counts, extras: &[Extent]) -> bool
    ensures { IsTrue result ↔ ((depth ≡ Depth.Elements) × (agree counts.now ≡ true) × (extras.now ≡ [])) }
{
    depth == Depth::Elements && counts.agree() && extras.is_empty()
}

/// Compares a blob, counts it and its rows, writes its lines, and answers the offset behind it. At an error the counts stay,
/// and nothing is written.
fn compare_blob<K: Audited, S: Sink>(
    alloc: Global,
    store: &mut K,
    at: u64,
    bytes: &[u8],
    depth: Depth,
    counts: &mut Counts,
    rows: &mut Rows,
    out: &mut S,
) -> Result<u64, StoreFault>
    requires frame { IsFrame bytes.now }
    requires limit { at + length bytes.now ≤ LAST }
    ensures told { OfHeld K.BlobReader store.old store.new (λ held. OnOk result ((p : Part Compared) × CountsFrame bytes.now counts.old counts.new rows.old rows.new p × HasCompared depth held at p
        × Prints S.Sink out.old out.new (compared_lines at p))) }
    ensures seen { OnOk result ((p : Part Compared) × CountsFrame bytes.now counts.old counts.new rows.old rows.new p × HasOwnElements at p
        × (K.is_honest store.new → K.is_open store.new → K.has_tables store.old → HasSeen (K.has_rows (K.trees store.old)) depth at p)) }
    ensures end { IfOk result (λ end. end ≡ at + length bytes.now) }
    ensures err { OnErr result ((out.new ≡ out.old) × (counts.new ≡ counts.old)) }
    ensures reads { ReadsAgain K.BlobReader store.old result store.new }
{
    let finding = match inspect(alloc, store, at, bytes, depth, rows) {
        Ok(finding) => finding,
        Err(fault) => return Err(fault),
    };
    counts.add(&finding);
    put_verdict(out, at, finding.verdict);
    put_extras(out, &finding.extras);
    Ok(at + bytes.len() as u64)
}

/// Compares a blob with what is held at its offset and in it.
fn inspect<K: Audited>(
    alloc: Global,
    store: &mut K,
    at: u64,
    bytes: &[u8],
    depth: Depth,
    rows: &mut Rows,
) -> Result<Finding, StoreFault>
    requires frame { IsFrame bytes.now }
    requires limit { at + length bytes.now ≤ LAST }
    ensures found { IfOk result (λ finding. Inspects K.BlobReader store.old store.new (K.has_tables store.old) (K.has_rows (K.trees store.old)) rows.old rows.new depth at bytes.now finding.verdict finding.extras.items) }
    ensures same { KeepsTables K.BlobReader store.old store.new }
    ensures rereads { Rereads K.BlobReader store.old result store.new }
    ensures own { OfHeld K.BlobReader store.old store.new (λ _. IfErr result (λ fault. ¬ (IsForeign fault))) }
    ensures cause { IfErr result (HasCause (K.failures store.old) (K.failures store.new)) }
    ensures counted { K.failures store.old ≤ K.failures store.new }
{
    let verdict = match judge(alloc, store, at, bytes, depth, rows) {
        Ok(verdict) => verdict,
        Err(fault) => return Err(fault),
    };
    let from = first_extra(at, verdict);
    match extents_beginning(alloc, store, from, at + bytes.len() as u64) {
        Ok(extras) => Ok(Finding { verdict, extras }),
        Err(fault) => Err(fault),
    }
}

/// Where an extent begins that isn't the frame's own: behind its offset, or at it where the frame is bad.
fn first_extra(at: u64, verdict: Result<Agreement, Fault>) -> u64
    requires { at < LAST }
    ensures { result ≡ first_extra at verdict }
{
    match verdict {
        Ok(_) => at + 1,
        Err(_) => at,
    }
}

/// Compares a blob with what is held at its offset, or finds its fault, and counts its rows, of which a bad blob has none.
fn judge<K: Audited>(
    alloc: Global,
    store: &mut K,
    at: u64,
    bytes: &[u8],
    depth: Depth,
    rows: &mut Rows,
) -> Result<Result<Agreement, Fault>, StoreFault>
    requires { IsFrame bytes.now }
    ensures judged { IfOk result (Judges K.BlobReader store.old store.new (K.has_tables store.old) (K.has_rows (K.trees store.old)) rows.old rows.new depth at bytes.now) }
    ensures same { KeepsTables K.BlobReader store.old store.new }
    ensures rereads { Rereads K.BlobReader store.old result store.new }
    ensures own { OfHeld K.BlobReader store.old store.new (λ _. IfErr result (λ fault. ¬ (IsForeign fault))) }
    ensures cause { IfErr result (HasCause (K.failures store.old) (K.failures store.new)) }
    ensures counted { K.failures store.old ≤ K.failures store.new }
{
    match examine_frame(alloc, at, &frame_of(bytes)) {
        Ok(good) => match compare(alloc, store, at, bytes, &good, depth) {
            Ok(agreement) => {
                rows.add(&good.elements);
                Ok(Ok(agreement))
            }
            Err(fault) => Err(fault),
        },
        Err(ExamineFault::Bad(fault)) => {
            rows.add(&[]);
            Ok(Err(fault))
        }
        Err(ExamineFault::Memory) => Err(StoreFault::Memory),
    }
}

/// Writes the line of a frame that doesn't agree, or that is bad.
fn put_verdict<S: Sink>(out: &mut S, at: u64, verdict: Result<Agreement, Fault>)
    ensures { Prints S.Sink out.old out.new (comparison_line at verdict) }
{
    match verdict {
        Ok(agreement) => put_agreement(out, at, agreement),
        Err(fault) => put_fault_at(out, fault.number(), fault.name(), at),
    }
}

/// Writes the line of a good frame that doesn't agree.
fn put_agreement<S: Sink>(out: &mut S, at: u64, agreement: Agreement)
    ensures { Prints S.Sink out.old out.new (agreement_line at agreement) }
{
    match agreement {
        Agreement::Same => {}
        Agreement::Missing => put_at(out, b"missing ", at),
        Agreement::Differs => put_at(out, b"differs ", at),
    }
}

/// Writes `LABEL OFFSET`.
pub(crate) fn put_at<S: Sink>(out: &mut S, label: &[u8], off: u64)
    ensures { Prints S.Sink out.old out.new (label.now ++ decimal off ++ codes "\n") }
{
    put(out, label);
    put_digits(out, off);
    put(out, b"\n");
}

/// Writes `extra OFFSET` for each extent.
fn put_extras<S: Sink>(out: &mut S, extras: &[Extent])
    ensures { Prints S.Sink out.old out.new (extra_lines extras.now) }
{
    for extent in extras {
        put_at(out, b"extra ", extent.off);
    }
}

/// Writes what stands behind the lines of the blobs, and answers the exit status.
fn finish<S: Sink>(out: &mut S, counts: &mut Counts, close: &Close) -> u8
    ensures line { (blobs : List (Part Compared)) → counts.old ≡ counts_of blobs 0
        → Prints S.Sink out.old out.new (close_text close.now blobs) }
    ensures status { (blobs : List (Part Compared)) → counts.old ≡ counts_of blobs 0 → result ≡ status_of (is_agreed close.now blobs) (S.has_failed out.new) }
    ensures whole { result ≡ 0 → is_whole close.now ≡ true }
    ensures unwritten { close.now ≡ Close.Unwritten → S.has_failed out.new ≡ S.has_failed out.old }
    ensures bound { result ≤ 1 }
{
    match close {
        Close::Whole(extras) => finish_whole(out, counts, extras),
        Close::Early(stop) => {
            finish_early(out, counts, *stop);
            1
        }
        Close::Broken(fault, at) => {
            put_fault_at(out, fault.number(), fault.name(), *at);
            1
        }
        Close::Unwritten => 1,
    }
}

/// Writes the lines of the extents that begin behind an input that has ended, and the counts; an input with no blob lacks
/// its header, which is a fault. Answers the exit status.
fn finish_whole<S: Sink>(out: &mut S, counts: &mut Counts, extras: &[Extent]) -> u8
    ensures line { (blobs : List (Part Compared)) → counts.old ≡ counts_of blobs 0
        → Prints S.Sink out.old out.new (header_line blobs ++ extra_lines extras.now ++ counts_line (counts_of blobs (length extras.now))) }
    ensures status { (blobs : List (Part Compared)) → counts.old ≡ counts_of blobs 0 → result ≡ status_of (agree (counts_of blobs (length extras.now))) (S.has_failed out.new) }
    ensures bound { result ≤ 1 }
{
    put_lack(out, counts);
    put_extras(out, extras);
    counts.add_extras(extras.len() as u64);
    put_counts(out, counts);
    status(out, counts.agree())
}

/// Writes the line of an input with no blob, which lacks its header.
fn put_lack<S: Sink>(out: &mut S, counts: &Counts)
    ensures { (blobs : List (Part Compared)) → counts.now ≡ counts_of blobs 0
        → Prints S.Sink out.old out.new (header_line blobs) }
{
    if counts.blobs == 0 {
        let fault = Stop::NoHeaderFirst;
        put_stop(out, StreamFault { fault, at: 0 });
    }
}

/// Writes the line of what ended the frames early and, where that is a fault of a frame, the counts.
fn finish_early<S: Sink>(out: &mut S, counts: &Counts, stop: StreamFault)
    ensures { (blobs : List (Part Compared)) → counts.now ≡ counts_of blobs 0
        → Prints S.Sink out.old out.new (close_text (Close.Early stop) blobs) }
{
    put_stop(out, stop);
    if let Stop::Frame(_) = stop.fault {
        put_counts(out, counts);
    }
}

/// Writes `blobs BLOBS missing MISSING differs DIFFERS extra EXTRA`.
fn put_counts<S: Sink>(out: &mut S, counts: &Counts)
    ensures { Prints S.Sink out.old out.new (counts_line counts.now) }
{
    put_total(out, b"blobs ", counts.blobs);
    put_total(out, b" missing ", counts.missing);
    put_total(out, b" differs ", counts.differs);
    put_total(out, b" extra ", counts.extra);
    put(out, b"\n");
}
