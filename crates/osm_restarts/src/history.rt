//! That a history of deliveries goes on over what a crash left, crash after crash.

ghost use Rattle.std.specs.Prelude.{◌≤◌, ℕ, List, [], ◌∷◌, ◌++◌};
ghost use Rattle.sqlite_trees.specs.Objects.{catalog_tree};
ghost use Rattle.sqlite_trees.specs.View.{IsClean};
ghost use Rattle.sqlite_store.specs.FileStore.{view, recovers};
ghost use Rattle.osm_rows.specs.declared.schema.layout.Layout.TheVariants.{Tables};
ghost use Rattle.osm_rows.specs.Held.{HeldMap};
ghost use Rattle.osm_openings.specs.Asked.{IsFoundAgain};
ghost use Rattle.osm_trees.specs.Below.{HoldsBelow, ListsAlways};
ghost use Rattle.osm_import.specs.declared.answer.Answer.{Answer as AnswerValue};
ghost use Rattle.osm_import.specs.Deliveries.{DeliveryValue};
ghost use Rattle.osm_import.specs.Files.{IsFrameAt};
ghost use Rattle.osm_import.specs.Flows.{input, output};
ghost use Rattle.osm_import.specs.Histories.{Event, answered, broken};
ghost use Rattle.osm_import.specs.Runs.{IsFault};
ghost use Rattle.osm_import.specs.Streams.{Streams};
ghost use Rattle.osm_restarts.specs.Further.{CrashesAfterStream, GoesFurther, GoesOnAfter, HoldsHistory, IsPartOf, LeavesDelivery, LeavesMore, StreamGoesOn};
ghost use Rattle.osm_restarts.specs.Left.{CrashesAfter, GoesOn, MayBeOpened};
ghost use Rattle.osm_restarts.specs.Lives.{Restart, AreRestarts, events_in};

use crate::premise::what_is_left_may_be_opened;
use crate::restart::a_restart_holds_what_was_left;
use osm_import::{Answer, ImportStop, Source, Summary, Teller, deliver, import_stream};
use osm_trees::TreeStore;
use osm_value::Sink;
use pbf_frame::MAX_OFFSET;
use sqlite_disk::Disk;
use sqlite_store::FileStore;
use std::alloc::Global;

/// Deliveries of frames of a file, after any history of deliveries of that file, are more events of the history, whatever a
/// crash behind them leaves: the store that either opening gives over that holds what comes of the longer history, may be
/// delivered to again, and the next crash finds all that this one found. So it is with one delivery that a crash broke off,
/// and with one that was answered with no fault. `before` is the store as it was when it crashed, `after` the one that is
/// opened; of a delivery the premise is what `deliver` promises.
pub fn a_restart_goes_on<D: Disk, E: Disk>(before: &FileStore<D>, after: &FileStore<E>)
    ensures events { (frames : List (List ℕ)) (events more : List Event) → LeavesMore frames events more (recovers before.now)
        → GoesOnAfter before.now frames (events ++ more) after.now }
    ensures broken { (frames : List (List ℕ)) (events : List Event) (delivery : DeliveryValue) (answer : AnswerValue)
        → LeavesDelivery frames events delivery answer (recovers before.now)
        → GoesOnAfter before.now frames (events ++ broken delivery ∷ []) after.now }
    ensures answered { (frames : List (List ℕ)) (events : List Event) (delivery : DeliveryValue) (answer : AnswerValue)
        → LeavesDelivery frames events delivery answer (recovers before.now) → ¬ (IsFault answer)
        → GoesOnAfter before.now frames (events ++ answered delivery answer ∷ []) after.now }
{
    a_restart_holds_what_was_left(before, after);
}

/// Any number of restarts, one after the other: a store that holds what comes of a history of deliveries of a file, and that
/// is delivered to, crashes and is opened again, time after time, ends up with what comes of the one history of all these
/// deliveries. So the whole list delivered once more without a fault gives all of the file, as one unbroken run does, and the
/// next crash finds all that the first one found.
pub fn a_life_is_one_history<D: Disk>(first: &FileStore<D>, last: &FileStore<D>)
    ensures { (frames : List (List ℕ)) (events : List Event) (restarts : List (Restart D.Disk))
        → HoldsHistory frames events first.now → AreRestarts frames first.now restarts last.now
        → (left : HeldMap) × GoesOn frames (events ++ events_in restarts) left last.now }
{
    let (_first, _last) = (first, last);
}

/// Delivers a blob to a store over files, and gives the files' trees back, which may crash now, with the answer. Whatever the
/// crash leaves, the store that either opening gives over it (`after`) holds a map to which the deliveries go on: of the
/// delivery nothing is asked but what `deliver` promises of it. The list of objects stays what it was. Where it has no object
/// beside a store's own, or each as its row asks, as both openings give it, what the crash leaves may be opened by the opening
/// that looks at no other page.
pub fn deliver_before_a_restart<D: Disk, E: Disk>(
    alloc: Global,
    mut keeper: TreeStore<FileStore<D>>,
    off: u64,
    bytes: &[u8],
    after: &FileStore<E>,
) -> (FileStore<D>, Answer)
    ensures opens { (held : HeldMap) → HoldsBelow Tables (view keeper.store) held → IsFoundAgain ((view keeper.store).trees catalog_tree) → MayBeOpened result.0 }
    ensures list { (held : HeldMap) → HoldsBelow Tables (view keeper.store) held → IsClean (view result.0)
        → ListsAlways (view result.0) (recovers result.0) ((view keeper.store).trees catalog_tree) }
    ensures leaves { IsClean (view result.0) → CrashesAfter (broken (record { off = off; bytes = bytes.now }) ∷ []) keeper.store result.0 }
    ensures leaves_answered { IsClean (view result.0) → ¬ (IsFault result.1)
        → CrashesAfter (answered (record { off = off; bytes = bytes.now }) result.1 ∷ []) keeper.store result.0 }
    ensures goes_on { (frames : List (List ℕ)) → IsFrameAt frames off bytes.now → IsClean (view result.0)
        → GoesFurther frames (broken (record { off = off; bytes = bytes.now }) ∷ []) keeper.store result.0 after.now }
    ensures answered { (frames : List (List ℕ)) → IsFrameAt frames off bytes.now → IsClean (view result.0) → ¬ (IsFault result.1)
        → GoesFurther frames (answered (record { off = off; bytes = bytes.now }) result.1 ∷ []) keeper.store result.0 after.now }
{
    let answer = deliver(alloc, &mut keeper, off, bytes);
    let store = keeper.into_store();
    what_is_left_may_be_opened(&store);
    a_restart_goes_on(&store, after);
    (store, answer)
}

/// Imports what a reader gives into a store over files, and gives the files' trees back, which may crash now, with how the
/// import ended. The reader stands at an offset of a file at which one of its frames begins, and may end before the file does.
/// However the import ended, and whatever the crash leaves: the store that either opening gives over it (`after`) holds what
/// comes of a longer history of deliveries of that file. Its new events are the frames that were read, each with its
/// answer, up to one that a fault or the crash broke off. The next import goes on from there. The list of objects stays what it
/// was. Where it has no object beside a store's own, or each as its row asks, what the crash leaves may be opened by the opening
/// that looks at no other page.
pub fn import_before_a_restart<D: Disk, E: Disk, R: Source, T: Teller, S: Sink>(
    alloc: Global,
    mut keeper: TreeStore<FileStore<D>>,
    reader: &mut R,
    from: u64,
    max_blobs: u32,
    teller: &T,
    out: &mut S,
    after: &FileStore<E>,
) -> (FileStore<D>, Result<Summary, ImportStop>)
    requires { from ≤ MAX_OFFSET }
    ensures opens { (held : HeldMap) → HoldsBelow Tables (view keeper.store) held → IsFoundAgain ((view keeper.store).trees catalog_tree) → MayBeOpened result.0 }
    ensures list { (held : HeldMap) → HoldsBelow Tables (view keeper.store) held → IsClean (view result.0)
        → ListsAlways (view result.0) (recovers result.0) ((view keeper.store).trees catalog_tree) }
    ensures leaves { (frames : List (List ℕ)) → IsPartOf frames from (R.bytes_left reader.old) → IsClean (view result.0)
        → Streams from max_blobs (input R.Source reader.old reader.new) (output (T.tells teller.now) S.Sink out.old out.new)
        (CrashesAfterStream frames keeper.store result.0) result.1 }
    ensures goes_on { (frames : List (List ℕ)) → IsPartOf frames from (R.bytes_left reader.old) → IsClean (view result.0)
        → Streams from max_blobs (input R.Source reader.old reader.new) (output (T.tells teller.now) S.Sink out.old out.new)
        (StreamGoesOn frames keeper.store result.0 after.now) result.1 }
{
    let outcome = import_stream(alloc, &mut keeper, reader, from, max_blobs, teller, out);
    let store = keeper.into_store();
    what_is_left_may_be_opened(&store);
    a_restart_goes_on(&store, after);
    (store, outcome)
}
