//! What the definitions of this library imply: theorems, with no code.

ghost use Rattle.std.specs.Prelude.{◌≡◌, ℕ, codes};
ghost use Rattle.pbf_frame.specs.declared.fault.FrameFault.{FrameFault};
ghost use Rattle.pbf_frame.specs.declared.blob.BlobFault.{BlobFault};
ghost use Rattle.pbf_frame.specs.Fault as frames;
ghost use Rattle.osm_block.specs.declared.header.fault.HeaderFault.{HeaderFault};
ghost use Rattle.osm_block.specs.HeaderBlock as headers;
ghost use Rattle.osm_block.specs.declared.fault.BlockError.{BlockError};
ghost use Rattle.osm_block.specs.Fault as blocks;
ghost use Rattle.pbfrow_c.specs.Names.{compression_in, fault_name};

/// The name that a number is told with is the one that the fault has itself.
pub fn names_are_the_faults_own()
    ensures frames { (fault : FrameFault) (compression : ℕ) → fault_name (frames.number_of fault) compression ≡ frames.name_of fault }
    ensures blobs { (fault : BlobFault) → fault_name (frames.blob_number_of fault) (compression_in fault) ≡ frames.blob_name_of fault }
    ensures headers { (fault : HeaderFault) (compression : ℕ) → fault_name (headers.number_of fault) compression ≡ headers.name_of fault }
    ensures blocks { (error : BlockError) (compression : ℕ) → fault_name (blocks.error_number_of error) compression ≡ blocks.error_name_of error }
    ensures no_header_first { (compression : ℕ) → fault_name 61 compression ≡ codes "NoHeaderFirst" }
    ensures header_not_first { (compression : ℕ) → fault_name 62 compression ≡ codes "HeaderNotFirst" }
    ensures no_room { (compression : ℕ) → fault_name 72 compression ≡ codes "NoRoom" }
{}
