//! What the definitions imply: theorems, with no code.

ghost use Rattle.std.specs.Prelude.{◌≡◌, ◌⊎◌, ℕ, ◌+◌, ◌<◌, ◌≤◌, Bool, List, [], Some, Result, length};
ghost use Rattle.osm_value.specs.declared.element.Element.{Element};
ghost use Rattle.pbf_frame.specs.declared.fault.FrameFault.{FrameFault};
ghost use Rattle.pbf_frame.specs.declared.kind.Kind.{Kind};
ghost use Rattle.pbf_frame.specs.Framer.{Framing, FaultStands, IsUnfinished};
ghost use Rattle.osm_write.specs.Cutter.{ComesToOne};
ghost use Rattle.osm_rows.specs.Held.{HeldMap};
ghost use Rattle.osm_import.specs.Step.{IsStep};
ghost use Rattle.osm_import.specs.Runs.{IsFault, RepeatsChangeNothing};
ghost use Rattle.osm_import.specs.declared.answer.Answer.{Answer};
ghost use Rattle.osm_reading.specs.Good.{IsGood};
ghost use Rattle.osm_reading.specs.Bad.{IsBad};
ghost use Rattle.osm_import.specs.Files.{AreFrames, IsFrameAt};
ghost use Rattle.osm_reading.specs.declared.fault.Fault.{Fault};
ghost use Rattle.osm_reading.specs.Framings.{Known};
ghost use Rattle.osm_import.specs.Pbf.{IsPbfExport};
ghost use Rattle.osm_import.specs.TooLarge.{IsTooLargeExactly, FirstIsTooLarge};
ghost use Rattle.osm_import.specs.declared.export.fault.ExportFault.{ExportFault};
ghost use Rattle.osm_reading.specs.FrameReads.{Reading, GivesFrame, Halts};
ghost use Rattle.osm_import.specs.Histories.{HistoriesRestart};
ghost use Rattle.osm_import.specs.Merges.{UnionsAreImports, UnionsAreUnrefused, UnionsStay, UnionsAreTakenAgain, PartsAreOneImport};
ghost use Rattle.osm_reading.specs.declared.stream.fault.Stop.TheVariants.{Frame};
ghost use Rattle.osm_reading.specs.declared.stream.fault.StreamFault.{StreamFault};

/// A delivery has a fault exactly where it isn't good for any kind and elements; it has one fault, or one kind and one
/// list of elements.
pub fn delivery_is_good_or_bad()
    ensures some { (off : ℕ) (w : List ℕ) → ((kind : Kind) × (es : List Element) × IsGood off w kind es) ⊎ ((fault : Fault) × IsBad off w fault) }
    ensures apart { (off : ℕ) (w : List ℕ) (kind : Kind) (es : List Element) → IsGood off w kind es → (fault : Fault) → IsBad off w fault → ⊥ }
    ensures one_fault { (off : ℕ) (w : List ℕ) (fault other : Fault) → IsBad off w fault → IsBad off w other → fault ≡ other }
    ensures one_blob { (off : ℕ) (w : List ℕ) (kind other : Kind) (es fs : List Element) → IsGood off w kind es → IsGood off w other fs → (kind ≡ other) × (es ≡ fs) }
{}

/// To a delivery there is one answer that is no fault, and one map after it.
pub fn step_is_one()
    ensures some { (held : HeldMap) (off : ℕ) (bytes : List ℕ) → (answer : Answer) × (after : HeldMap) × IsStep held off bytes answer after × ¬ (IsFault answer) }
    ensures one { (held : HeldMap) (off : ℕ) (bytes : List ℕ) (answer answer' : Answer) (after after' : HeldMap) → IsStep held off bytes answer after → IsStep held off bytes answer' after'
        → ¬ (IsFault answer) → ¬ (IsFault answer') → (answer ≡ answer') × (after ≡ after') }
{}

/// A repeated delivery changes nothing: a blob that was stored, or was held already, is answered `AlreadyHeld` when it is
/// delivered again, whatever was delivered meanwhile, and what is held stays as it is.
pub fn a_repeated_delivery_changes_nothing()
    ensures { RepeatsChangeNothing }
{}

/// The frames of one file at two offsets don't meet.
pub fn frames_of_a_file_are_apart()
    ensures { (frames : List (List ℕ)) (off next : ℕ) (frame other : List ℕ) → IsFrameAt frames off frame → IsFrameAt frames next other → off < next → off + length frame ≤ next }
{}

/// A frame of a file is fixed by its offset.
pub fn one_frame_at_an_offset()
    ensures { (frames : List (List ℕ)) → AreFrames frames → (off : ℕ) (frame other : List ℕ) → IsFrameAt frames off frame → IsFrameAt frames off other → frame ≡ other }
{}

/// A fault of a frame needs a byte to stand in. So where no byte is left a reader of frames gives no frame and answers no
/// fault of one: it gives none, unless a read failed or memory was refused.
pub fn end_of_an_input()
    ensures fault { (fault : FrameFault) (f : Framing) → FaultStands fault f ⊎ IsUnfinished fault f → 0 < length f.rest }
    ensures no_frame { (old new : Reading) (at : ℕ) (frame : List ℕ) → old.left ≡ Some [] → GivesFrame old new at frame → ⊥ }
    ensures no_fault { (old new : Reading) (fault : FrameFault) (stop : StreamFault) → old.left ≡ Some [] → stop.fault ≡ Frame fault → Halts old new stop → ⊥ }
{}

/// Restart after a crash at any moment: after any history of deliveries of one file to a new store, of crashes and of
/// faults, it holds the entries answered `Stored`, with or without each of those in whose delivery a crash or a fault
/// fell; and delivering the whole list again without a fault gives all of it, as one unbroken run does.
pub fn restart_law()
    ensures { HistoriesRestart }
{}

/// The maps of the parts of a file, united in any order, are the one map that an import of the whole comes to.
pub fn union_is_one_import()
    ensures union { UnionsAreImports }
    ensures unrefused { UnionsAreUnrefused }
    ensures again { UnionsStay }
    ensures taken_again { UnionsAreTakenAgain }
{}

/// The parts of a file, each imported into a store of its own and then united, are what one import of the file comes to.
pub fn parts_are_one_import()
    ensures { PartsAreOneImport }
{}

/// An export as PBF answers `BlockTooLarge` exactly where cutting a held blob comes to an element whose own block has
/// more than 33,554,431 bytes: the answer comes only over such a map, and over such a map no export ends with `Ok`. A
/// refusal, a failed write or a store's fault may come first.
pub fn too_large_exactly_where_an_element_is()
    ensures exactly { (held : HeldMap) (size : ℕ) (partial : Bool) (before after : Known) (result : Result (Unit {0}) ExportFault)
        → IsPbfExport held size partial before after result → IsTooLargeExactly held result }
    ensures own { (elements : List Element) → ComesToOne elements → FirstIsTooLarge elements }
{}
