//! The command `check`: a line for each bad blob, and the counts.

ghost use Rattle.std.specs.Prelude.{◌≡◌, ◌≤◌, ◌+◌, ◌&&◌, ℕ, List, [], ◌∷◌, ◌++◌, IfSome, OnOk, OnErr};
ghost use Rattle.std.specs.Fmt.{decimal};
ghost use Rattle.std.specs.Io.KnownBytes.{Appends};
ghost use Rattle.osm_value.specs.Printing.{Prints};
ghost use Rattle.osm_value.specs.declared.element.Element.{Element as ElementValue};
ghost use Rattle.osm_reading.specs.Good.{IsFrame};
ghost use Rattle.pbfrow_reading.specs.Checking.{ChecksInput, Passes, checked_line, check_end, counts_at_end, counts_of, some_good, tally, totals_line};
ghost use Rattle.pbfrow_reading.specs.Verdicts.{HasVerdict, IsJudged, Judged};
ghost use Rattle.pbfrow_reading.specs.Walks.{TellsFrames, is_whole, status_of};

use crate::input::{Ending, flush_to_wait, frame_of, put_stop, status};
use crate::watcher::Watcher;
use osm_reading::{
    ExamineFault, FrameReader, Inlet, Stop, StreamFault, examine_frame, put_fault_at,
};
use osm_value::{Element, Outlet, Sink, put, put_digits};
use std::alloc::{AllocError, Global};
use std::io::{Read, Write};

/// How many whole frames, elements of good blobs, and faults an input has. A count stops at 2^64 - 1.
#[derive(Clone, Copy, Debug, PartialEq, Eq)]
struct Counts {
    blobs: u64,
    nodes: u64,
    ways: u64,
    relations: u64,
    faults: u64,
}

impl Counts {
    const NONE: Counts = Counts {
        blobs: 0,
        nodes: 0,
        ways: 0,
        relations: 0,
        faults: 0,
    };

    fn add_blob(&mut self)
        ensures { (blobs faults : ℕ) (es : List ElementValue) → self.old ≡ tally blobs es faults → self.new ≡ tally (blobs + 1) es faults }
    {
        self.blobs = self.blobs.saturating_add(1);
    }

    fn add_fault(&mut self)
        ensures { (blobs faults : ℕ) (es : List ElementValue) → self.old ≡ tally blobs es faults → self.new ≡ tally blobs es (faults + 1) }
    {
        self.faults = self.faults.saturating_add(1);
    }

    fn add_elements(&mut self, elements: &[Element])
        ensures { (blobs faults : ℕ) (es : List ElementValue) → self.old ≡ tally blobs es faults → self.new ≡ tally blobs (es ++ elements.now) faults }
    {
        for element in elements {
            self.add_element(element);
        }
    }

    fn add_element(&mut self, element: &Element)
        ensures { (blobs faults : ℕ) (es : List ElementValue) → self.old ≡ tally blobs es faults → self.new ≡ tally blobs (es ++ element.now ∷ []) faults }
    {
        match element {
            Element::Node(_) => self.nodes = self.nodes.saturating_add(1),
            Element::Way(_) => self.ways = self.ways.saturating_add(1),
            Element::Relation(_) => self.relations = self.relations.saturating_add(1),
        }
    }
}

/// Writes a fault's line for each bad blob of the input, up to a frame fault, and finally the counts; nothing follows the
/// line of a read that failed or of refused memory. Answers the exit status: 0 if there is no fault, and 1 if there is
/// one, or the input or the output failed. The lines so far are flushed before more of the input is read. Where the
/// output fails, no more is read. The watcher is called for each blob that was checked.
pub fn check<R: Read, P: Watcher, W: Write>(
    alloc: Global,
    input: &mut R,
    watcher: &P,
    out: &mut Outlet<W>,
) -> u8
    ensures checked { ChecksInput (R.remaining input.old) (W.contents out.old.writer) (W.contents out.new.writer) out.new.has_failed result }
    // At 0 the whole input consists of good blobs, and their counts are written, no more and no less.
    ensures whole { result ≡ 0 → IfSome (R.remaining input.old) (λ bytes. (text : List ℕ) × Passes bytes text × Appends (W.contents out.old.writer) (W.contents out.new.writer) text) }
    ensures bound { result ≤ 1 }
{
    let mut counts = Counts::NONE;
    let ending = count_blobs(alloc, input, watcher, &mut counts, out);
    finish(out, &mut counts, ending)
}

/// Counts the blobs, writes the lines of the bad ones, and answers how the frames ended.
fn count_blobs<R: Read, P: Watcher, W: Write>(
    alloc: Global,
    input: &mut R,
    watcher: &P,
    counts: &mut Counts,
    out: &mut Outlet<W>,
) -> Ending
    requires { counts.old ≡ counts_of [] 0 }
    ensures { (blobs : List Judged) × TellsFrames HasVerdict checked_line (R.remaining input.old) (W.contents out.old.writer) (W.contents out.new.writer) out.new.has_failed blobs result
        × (counts.new ≡ counts_of blobs 0) }
{
    let mut frames = match FrameReader::new(alloc, 0, Inlet::new(input)) {
        Ok(frames) => frames,
        Err(stop) => return Ending::Early(stop),
    };
    loop {
        let Ok(()) = flush_to_wait(&mut frames, out) else {
            return Ending::Unwritten;
        };
        match frames.next() {
            Ok(Some((at, bytes))) => match count_blob(alloc, at, bytes, counts, out) {
                Ok(()) => watcher.see_blob(),
                Err(_) => return Ending::without_memory(at),
            },
            Ok(None) => return Ending::Whole,
            Err(stop) => return Ending::Early(stop),
        }
    }
}

/// Counts a blob, and its elements or its fault, whose line it writes. Where memory is refused, nothing is counted or
/// written.
fn count_blob<S: Sink>(
    alloc: Global,
    at: u64,
    bytes: &[u8],
    counts: &mut Counts,
    out: &mut S,
) -> Result<(), AllocError>
    requires { IsFrame bytes.now }
    ensures ok { OnOk result ((p : Judged) × IsJudged at bytes.now p × Prints S.Sink out.old out.new (checked_line at p)
        × ((blobs : List Judged) → counts.old ≡ counts_of blobs 0 → counts.new ≡ counts_of (blobs ++ p ∷ []) 0)) }
    ensures err { OnErr result ((out.new ≡ out.old) × (counts.new ≡ counts.old)) }
{
    match examine_frame(alloc, at, &frame_of(bytes)) {
        Ok(good) => {
            counts.add_blob();
            counts.add_elements(&good.elements);
            Ok(())
        }
        Err(ExamineFault::Bad(fault)) => {
            counts.add_blob();
            counts.add_fault();
            put_fault_at(out, fault.number(), fault.name(), at);
            Ok(())
        }
        Err(ExamineFault::Memory) => Err(AllocError),
    }
}

/// Writes what stands behind the lines of the blobs, and answers the exit status.
fn finish<S: Sink>(out: &mut S, counts: &mut Counts, ending: Ending) -> u8
    ensures line { (blobs : List Judged) → counts.old ≡ counts_of blobs 0
        → Prints S.Sink out.old out.new (check_end ending blobs) }
    ensures status { (blobs : List Judged) → counts.old ≡ counts_of blobs 0 → result ≡ status_of (is_whole ending && some_good blobs) (S.has_failed out.new) }
    ensures unwritten { ending ≡ Ending.Unwritten → S.has_failed out.new ≡ S.has_failed out.old }
    ensures bound { result ≤ 1 }
{
    match ending {
        Ending::Whole => finish_whole(out, counts),
        Ending::Early(stop) => {
            finish_early(out, counts, stop);
            1
        }
        Ending::Unwritten => 1,
    }
}

/// Writes the counts of an input that has ended; one with no blob lacks its header, which is a fault. Answers the exit
/// status.
fn finish_whole<S: Sink>(out: &mut S, counts: &mut Counts) -> u8
    ensures line { (blobs : List Judged) → counts.old ≡ counts_of blobs 0
        → Prints S.Sink out.old out.new (counts_at_end blobs) }
    ensures status { (blobs : List Judged) → counts.old ≡ counts_of blobs 0 → result ≡ status_of (some_good blobs) (S.has_failed out.new) }
    ensures bound { result ≤ 1 }
{
    if counts.blobs == 0 {
        let fault = Stop::NoHeaderFirst;
        put_stop(out, StreamFault { fault, at: 0 });
        counts.add_fault();
        put_totals(out, counts);
        return 1;
    }
    put_totals(out, counts);
    status(out, counts.faults == 0)
}

/// Writes the line of what ended the frames early and, where that is a fault of a frame, the counts with it.
fn finish_early<S: Sink>(out: &mut S, counts: &mut Counts, stop: StreamFault)
    ensures { (blobs : List Judged) → counts.old ≡ counts_of blobs 0
        → Prints S.Sink out.old out.new (check_end (Ending.Early stop) blobs) }
{
    put_stop(out, stop);
    if let Stop::Frame(_) = stop.fault {
        counts.add_fault();
        put_totals(out, counts);
    }
}

/// Writes `blobs BLOBS nodes NODES ways WAYS relations RELATIONS faults FAULTS`.
fn put_totals<S: Sink>(out: &mut S, counts: &Counts)
    ensures { Prints S.Sink out.old out.new (totals_line counts.now) }
{
    put_total(out, b"blobs ", counts.blobs);
    put_total(out, b" nodes ", counts.nodes);
    put_total(out, b" ways ", counts.ways);
    put_total(out, b" relations ", counts.relations);
    put_total(out, b" faults ", counts.faults);
    put(out, b"\n");
}

/// Writes a label and a count.
pub fn put_total<S: Sink>(out: &mut S, label: &[u8], count: u64)
    ensures { Prints S.Sink out.old out.new (label.now ++ decimal count) }
{
    put(out, label);
    put_digits(out, count);
}
