//! What the definition of a frame implies: theorems, with no code.

ghost use Rattle.std.specs.Prelude.{◌≡◌, ℕ, ◌++◌, ◌≤◌, ◌<◌, List, [], length, take, Some, Ok, Err};
ghost use Rattle.pbf_frame.specs.declared.fault.FrameFault.{FrameFault};
ghost use Rattle.pbf_frame.specs.declared.fault.FrameFault.TheVariants.{Trailing};
ghost use Rattle.pbf_frame.specs.declared.blob.BlobFault.{BlobFault};
ghost use Rattle.pbf_frame.specs.declared.blob.TheConstants.{MAX_RAW};
ghost use Rattle.pbf_frame.specs.Write.{blob_bytes, frame_bytes};
ghost use Rattle.pbf_frame.specs.Fault.{number_of};
ghost use Rattle.pbf_frame.specs.Parts.{EndsTooFar};
ghost use Rattle.pbf_frame.specs.Framer.{Framing, FrameWaits, FaultStands, ended, fed, let_go, taken, waiting};
ghost use Rattle.pbf_frame.specs.Blob.{Raw, IsBlobFault, raw_at};
ghost use Rattle.pbf_frame.specs.Frame.{Frame, FirstFault, Stands, Found, found_at, frame_at, whole_at};

/// A frame is read exactly where one stands at the front, and it takes that one.
pub fn frame_is_read()
    ensures spelled { (type blob w rest : List ℕ) → Frame type blob w → frame_at (w ++ rest) ≡ Ok (found_at type blob (length w)) }
    ensures read { (v : List ℕ) (f : Found) → frame_at v ≡ Ok f → (f.len ≤ length v) × Frame f.type_name f.blob (take f.len v) }
{}

/// The fault that is answered is the first that stands.
pub fn frame_fault_is_first()
    ensures stands { (v : List ℕ) (fault : FrameFault) → FirstFault fault v → frame_at v ≡ Err fault }
    ensures read { (v : List ℕ) (fault : FrameFault) → frame_at v ≡ Err fault → FirstFault fault v }
{}

/// No frame is a proper prefix of another, and bytes are one frame at most.
pub fn no_frame_begins_another()
    ensures types { (type blob kind other w rest : List ℕ) → Frame type blob w → Frame kind other (w ++ rest) → type ≡ kind }
    ensures blobs { (type blob kind other w rest : List ℕ) → Frame type blob w → Frame kind other (w ++ rest) → blob ≡ other }
    ensures whole { (type blob kind other w rest : List ℕ) → Frame type blob w → Frame kind other (w ++ rest) → rest ≡ [] }
{}

/// Where a frame stands at the front, no fault applies.
pub fn frame_or_fault()
    ensures apart { (fault : FrameFault) (type blob w rest : List ℕ) → Frame type blob w → Stands fault (w ++ rest) → ⊥ }
    ensures one { (v : List ℕ) (fault other : FrameFault) → FirstFault fault v → FirstFault other v → fault ≡ other }
{}

/// Bytes are read as one whole frame exactly where they are one; those behind a frame are a fault.
pub fn whole_frame_is_read()
    ensures spelled { (type blob w : List ℕ) → Frame type blob w → whole_at w ≡ Ok (found_at type blob (length w)) }
    ensures read { (w : List ℕ) (f : Found) → whole_at w ≡ Ok f → Frame f.type_name f.blob w }
    ensures trailing { (type blob w rest : List ℕ) → Frame type blob w → 0 < length rest → whole_at (w ++ rest) ≡ Err Trailing }
{}

/// Exactly the raw payload of a Blob is read, and else exactly the fault that stands.
pub fn raw_is_read()
    ensures spelled { (b r : List ℕ) → Raw b r → raw_at b ≡ Ok r }
    ensures read { (b r : List ℕ) → raw_at b ≡ Ok r → Raw b r }
    ensures stands { (b : List ℕ) (fault : BlobFault) → IsBlobFault fault b → raw_at b ≡ Err fault }
    ensures fault { (b : List ℕ) (fault : BlobFault) → raw_at b ≡ Err fault → IsBlobFault fault b }
{}

/// A frame waits in a framer exactly where its rest is one that ends at 2^62 at most.
pub fn frame_waits()
    ensures waits { (f : Framing) → FrameWaits f → waiting f ≡ Ok (Some (f.offset, f.rest)) }
    ensures read { (f : Framing) (x : ℕ × List ℕ) → waiting f ≡ Ok (Some x) → (x ≡ (f.offset, f.rest)) × FrameWaits f }
{}

/// A fault applies in a framer exactly where the first fault of its rest is one that no further bytes mend, or where the
/// frame would end above 2^62.
pub fn fault_stands()
    ensures stands { (f : Framing) (fault : FrameFault) → FaultStands fault f → waiting f ≡ Err fault }
    ensures read { (f : Framing) (fault : FrameFault) → waiting f ≡ Err fault → FaultStands fault f }
    // Where a frame would end too far, no fault of its length, its header or its datasize stands.
    ensures last { (offset : ℕ) (w : List ℕ) (fault : FrameFault) → EndsTooFar offset w → number_of fault < 18 → Stands fault w → ⊥ }
{}

/// A fault that stands in a framer stays: nothing more is taken, and each later call answers it again.
pub fn fault_stays()
    ensures none { (f : Framing) (fault : FrameFault) (piece : List ℕ) → waiting f ≡ Err fault → taken f piece ≡ [] }
    ensures fed { (f : Framing) (fault : FrameFault) (piece : List ℕ) → waiting f ≡ Err fault → waiting (fed f piece) ≡ Err fault }
    ensures next { (f : Framing) (fault : FrameFault) → waiting f ≡ Err fault → waiting (let_go f) ≡ Err fault }
    ensures end { (f : Framing) (fault : FrameFault) → waiting f ≡ Err fault → ended f ≡ Err fault }
{}

/// A written frame is a frame, and its Blob holds the raw payload.
pub fn written_frame_is_a_frame()
    ensures frame { (name payload : List ℕ) → length name ≤ 9 → length payload ≤ MAX_RAW → Frame name (blob_bytes payload) (frame_bytes name payload) }
    ensures raw { (payload : List ℕ) → length payload ≤ MAX_RAW → Raw (blob_bytes payload) payload }
{}
