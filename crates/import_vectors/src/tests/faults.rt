//! The numbers, names and texts of faults, as the program prints them.

use osm_import::{
    Conflict, CopyFault, CopyStop, ExamineFault, Fault, ImportFault, ImportStop, Stop, examine,
};
use osm_parts::PartsFault;
use osm_rows::StoreFault;
use pbf_frame::FrameFault;
use std::test::*;
use store_vectors::fixtures::HEADER;

#[test]
fn faults_of_deliveries(rt: HostRuntime) {
    for (fault, number, name) in [
        (Fault::NoHeaderFirst, 61, "NoHeaderFirst"),
        (Fault::HeaderNotFirst, 62, "HeaderNotFirst"),
        (
            Fault::Frame(FrameFault::OffsetTooLarge),
            60,
            "OffsetTooLarge",
        ),
    ] {
        assert!(rt; fault.number() == number && fault.name() == name, "{name}");
    }
}

#[test]
fn past_the_greatest_offset(rt: HostRuntime) {
    let found = examine(rt.alloc(), 1 << 62, HEADER);
    let too_large = Fault::Frame(FrameFault::OffsetTooLarge);
    assert!(rt; matches!(found, Err(ExamineFault::Bad(fault)) if fault == too_large));
}

#[test]
fn stops(rt: HostRuntime) {
    for (stop, number, name) in [
        (Stop::Frame(FrameFault::BlobCut), 18, "BlobCut"),
        (Stop::NoHeaderFirst, 61, "NoHeaderFirst"),
        (Stop::ReadFailed, 68, "ReadFailed"),
        (Stop::Memory, 65, "Memory"),
    ] {
        assert!(rt; stop.number() == number && stop.name() == name, "{name}");
    }
}

#[test]
fn faults_of_imports(rt: HostRuntime) {
    for (fault, number, name) in [
        (ImportFault::Stream(Stop::Memory), 65, "Memory"),
        (ImportFault::WriteFailed, 24, "WriteFailed"),
        (ImportFault::Store(StoreFault::Full), 65, "Full"),
        (ImportFault::BlobLimit, 69, "BlobLimit"),
    ] {
        assert!(rt; fault.number() == number && fault.name() == name, "{name}");
    }
}

#[test]
fn faults_of_copies(rt: HostRuntime) {
    for (fault, number, name) in [
        (CopyFault::Refused(Conflict::Differs), 63, "Differs"),
        (CopyFault::Refused(Conflict::Overlap), 64, "Overlap"),
        (CopyFault::Spoiled, 66, "NotThisStore"),
        (CopyFault::Store(StoreFault::Disk), 65, "Disk"),
    ] {
        assert!(rt; fault.number() == number && fault.name() == name, "{name}");
    }
}

#[test]
fn faults_of_stores(rt: HostRuntime) {
    assert_eq!(rt; StoreFault::Full.number(), 65);
    assert_eq!(rt; StoreFault::NotThisStore(Some(2)).number(), 66);
    assert_eq!(rt; StoreFault::Interrupted.name(), "Interrupted");
    assert_eq!(rt; StoreFault::NotThisStore(None).name(), "NotThisStore");
}

#[test]
fn texts(rt: HostRuntime) -> Result<(), Fail> {
    let stop = CopyStop {
        fault: CopyFault::Refused(Conflict::Differs),
        off: 47,
    };
    let text = format!(in rt.alloc(); "{stop}")?;
    let expected = "another blob is held at this offset (at 47)";
    assert_eq!(rt; text.as_str(), expected);
    let stop = ImportStop {
        fault: ImportFault::Stream(Stop::Memory),
        at: 47,
    };
    let text = format!(in rt.alloc(); "{stop}")?;
    assert_eq!(rt; text.as_str(), "memory was refused (at 47)");
    let text = format!(in rt.alloc(); "{}", PartsFault::Interleaved(47))?;
    let expected = "the blob at 47 lies between those of another store";
    assert_eq!(rt; text.as_str(), expected);
    let text = format!(in rt.alloc(); "{}", PartsFault::Refused(Conflict::Differs, 47))?;
    let expected = "another blob is held at this offset (at 47)";
    assert_eq!(rt; text.as_str(), expected);
    Ok(())
}
