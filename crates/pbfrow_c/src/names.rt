//! The names of the faults.

ghost use Rattle.std.specs.Prelude.{◌≡◌, ◌≤◌, ◌<◌, length};
ghost use Rattle.osm_columns.specs.Columns.{over};
ghost use Rattle.pbfrow_c.specs.Names.{block_names, compressed_name, fault_name, name_in};

/// The name of a Blob's fault whose data is compressed.
fn compressed_name(compression: u8) -> &'static str
    ensures short { length result.now ≤ 24 }
    ensures exact { result.now ≡ compressed_name compression }
{
    match compression {
        1 => "CompressedZlib",
        2 => "CompressedLzma",
        3 => "CompressedBzip2",
        4 => "CompressedLz4",
        5 => "CompressedZstd",
        _ => "Compressed",
    }
}

/// The name of a header block's or a block's fault, or of what a call of this library answers.
fn block_name(number: u8) -> &'static str
    ensures short { length result.now ≤ 24 }
    ensures exact { result.now ≡ name_in block_names number }
{
    match number {
        30 => "HeaderBlockWire",
        31 => "BBoxIncomplete",
        32 => "HeaderTextNotUtf8",
        33 => "UnknownFeature",
        40 => "BlockWire",
        41 => "NoStringTable",
        42 => "TextNotUtf8",
        43 => "TextHasNul",
        44 => "BadGranularity",
        45 => "MixedGroup",
        46 => "Missing",
        47 => "LengthsDiffer",
        48 => "BadIndex",
        49 => "SumTooLarge",
        50 => "OutOfRange",
        51 => "TagsUneven",
        52 => "BadMemberType",
        65 => "Memory",
        72 => "NoRoom",
        _ => "",
    }
}

/// The name of a fault; no text where no fault has this number.
fn fault_name(number: u8, compression: u8) -> &'static str
    ensures short { length result.now ≤ 24 }
    ensures exact { result.now ≡ fault_name number compression }
{
    match number {
        10 => "LengthCut",
        11 => "HeaderTooLong",
        12 => "HeaderCut",
        13 => "HeaderWire",
        14 => "NoType",
        16 => "NoSize",
        17 => "SizeOutOfRange",
        18 => "BlobCut",
        19 => "Trailing",
        20 => "BlobWire",
        21 => compressed_name(compression),
        22 => "NoData",
        23 => "RawTooLarge",
        60 => "OffsetTooLarge",
        61 => "NoHeaderFirst",
        62 => "HeaderNotFirst",
        _ => block_name(number),
    }
}

/// The name of the fault of this number, as pbfrow's messages have it, in ASCII: `BlobCut`, say. That of 21 tells the
/// compression, as `CompressedZlib` for 1; `Compressed` for 0 and above 5.
///
/// It answers how many bytes the name has, 24 at most, and 0 where no fault has this number. The name is copied into the
/// front of the array where it has room for all of it, and what stands behind stays; else nothing is written. No NUL
/// ends it, and no memory is taken.
#[unsafe(no_mangle)]
pub extern "C" fn pbfrow_fault_name(number: u8, compression: u8, name: &mut [u8]) -> usize
    ensures short { result ≤ 24 }
    ensures length { result ≡ length (fault_name number compression) }
    ensures copied { result ≤ length name.old → name.new ≡ over (fault_name number compression) name.old }
    ensures kept { length name.old < result → name.new ≡ name.old }
{
    let text = fault_name(number, compression).as_bytes();
    if text.len() <= name.len() {
        let (front, _) = name.split_at_mut(text.len());
        front.copy_from_slice(text);
    }
    text.len()
}
