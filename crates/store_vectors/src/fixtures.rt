//! What the tests share: frames and blocks as bytes, made by hand from fileformat.proto and osmformat.proto, the lines of
//! their elements, and where blobs stand.

use osm_rows::Extent;
use osm_vectors::vectors::{
    EXTRA_FRAME, HEADER_FRAME, HEADER_FRAME_DIGEST, NO_ELEMENTS_BLOCK, TWO_NODES_BLOCK,
    TWO_NODES_FILE, TWO_NODES_FRAME, TWO_NODES_FRAME_DIGEST, WRITTEN_HEADER_FRAME,
};
use pbf_frame::Kind;

pub const HEADER: &[u8] = &HEADER_FRAME;

/// The header frame that an export writes.
pub const WRITTEN_HEADER: &[u8] = &WRITTEN_HEADER_FRAME;

/// The data frame of the file: the nodes 1 at 1000, -100 and 2 at 900, -100.
pub const NODES: &[u8] = &TWO_NODES_FRAME;

pub const LINES: &[u8] = b"n 1 1000 -100 [] {}\nn 2 900 -100 [] {}\n";

/// The data frame with another last byte: the second node lies elsewhere.
pub const CHANGED: &[u8] = &[
    0x00, 0x00, 0x00, 0x0B, 0x0A, 0x07, 0x4F, 0x53, 0x4D, 0x44, 0x61, 0x74, 0x61, 0x18, 0x16, 0x0A,
    0x14, 0x0A, 0x02, 0x0A, 0x00, 0x12, 0x0E, 0x12, 0x0C, 0x0A, 0x02, 0x02, 0x02, 0x42, 0x02, 0x14,
    0x01, 0x4A, 0x02, 0x01, 0x02,
];

pub const CHANGED_LINES: &[u8] = b"n 1 1000 -100 [] {}\nn 2 900 0 [] {}\n";

/// A frame of another type.
pub const EXTRA: &[u8] = &EXTRA_FRAME;

/// A frame of 85 bytes with way 7 over the nodes 5 and 6, and relation 9 with node 1 as its outer member and way -2 without
/// a role. Both have a tag. An export writes the same frame.
pub const TAGGED: &[u8] =
    b"\x00\x00\x00\x0B\x0A\x07OSMData\x18\x46\x0A\x44\x0A\x1A\x0A\x00\x0A\x01a\x0A\x01b\x0A\x04name\x0A\x01c\x0A\x05outer\x0A\x00\x12\x0E\x1A\x0C\x08\x07\x12\x01\x01\x1A\x01\x02\x42\x02\x0A\x02\x12\x16\x22\x14\x08\x09\x12\x01\x03\x1A\x01\x04\x42\x02\x05\x06\x4A\x02\x02\x05\x52\x02\x00\x01";

pub const TAGGED_LINES: &[u8] = b"w 7 (5,6) [] {a=b}\nr 9 (n1@outer,w-2@) [] {name=c}\n";

/// A frame of 67 bytes around `RELATION_BLOCK`: relation 9 with a tag and two members.
pub const RELATION_FRAME: &[u8] =
    b"\x00\x00\x00\x0B\x0A\x07OSMData\x18\x34\x0A\x32\x0A\x18\x0A\x00\x0A\x04name\x0A\x05a b,c\x0A\x05outer\x0A\x00\x12\x16\x22\x14\x08\x09\x12\x01\x01\x1A\x01\x02\x42\x02\x03\x04\x4A\x02\x02\x05\x52\x02\x00\x01";

/// A frame of 50 bytes around `WAY_IN_PIECES_BLOCK`: way 7 with a tag and four nodes.
pub const WAY_FRAME: &[u8] =
    b"\x00\x00\x00\x0B\x0A\x07OSMData\x18\x23\x0A\x21\x12\x13\x1A\x11\x08\x07\x12\x01\x01\x1A\x01\x02\x42\x01\x0A\x40\x02\x42\x02\x02\x01\x0A\x05\x0A\x00\x0A\x01a\x0A\x03\x0A\x01b";

/// A frame and where it stands.
pub type Frame<'a> = (u64, &'a [u8]);

pub const HEADER_AT_0: Frame = (0, HEADER);

pub const NODES_AT_47: Frame = (47, NODES);

pub const EXTRA_AT_84: Frame = (84, EXTRA);

pub const TAGGED_AT_84: Frame = (84, TAGGED);

pub const NODES_AT_100: Frame = (100, NODES);

/// The file of two frames, of 84 bytes.
pub const FILE: &[Frame] = &[HEADER_AT_0, NODES_AT_47];

/// The same with the tagged way and relation behind it: a file of 169 bytes.
pub const TAGGED_FILE: &[Frame] = &[HEADER_AT_0, NODES_AT_47, TAGGED_AT_84];

pub const FILE_BYTES: &[u8] = &TWO_NODES_FILE;

/// Its blobs, as they are held once it was delivered.
pub const HELD_HEADER: Extent = Extent {
    off: 0,
    fin: 47,
    digest: HEADER_FRAME_DIGEST,
    kind: Kind::OsmHeader,
    n: 0,
};

pub const HELD_NODES: Extent = Extent {
    off: 47,
    fin: 84,
    digest: TWO_NODES_FRAME_DIGEST,
    kind: Kind::OsmData,
    n: 2,
};

/// The SHA-256 of `EXTRA_FRAME`, as coreutils' sha256sum prints it for a file of those 16 bytes.
const EXTRA_FRAME_DIGEST: [u8; 32] = [
    0x72, 0xC0, 0xBB, 0x20, 0x6B, 0x93, 0x2B, 0xF0, 0x86, 0x26, 0x86, 0xCD, 0x87, 0x6E, 0xF7, 0xB5,
    0xA0, 0x2F, 0xAC, 0x8D, 0x27, 0x85, 0x92, 0x2B, 0xC4, 0xDA, 0x85, 0xB6, 0x2C, 0xB2, 0xFE, 0x7F,
];

/// The frame of another type, held behind the file.
pub const HELD_EXTRA: Extent = Extent {
    off: 84,
    fin: 100,
    digest: EXTRA_FRAME_DIGEST,
    kind: Kind::Other,
    n: 0,
};

/// The SHA-256 of `TAGGED`, as coreutils' sha256sum prints it for a file of those 85 bytes.
const TAGGED_DIGEST: [u8; 32] = [
    0x73, 0x2E, 0xA6, 0x32, 0x94, 0xC3, 0x35, 0x30, 0x8A, 0x05, 0xB9, 0x83, 0x27, 0x9C, 0x3C, 0xDB,
    0xC6, 0xE2, 0xD0, 0xC3, 0x2B, 0xDD, 0xC5, 0x08, 0x26, 0x8D, 0x9B, 0xE7, 0x13, 0x38, 0xA6, 0xC9,
];

/// The tagged way and relation, held behind the file.
pub const HELD_TAGGED: Extent = Extent {
    off: 84,
    fin: 169,
    digest: TAGGED_DIGEST,
    kind: Kind::OsmData,
    n: 2,
};

/// The two nodes, held elsewhere.
pub const HELD_NODES_AT_100: Extent = Extent {
    off: 100,
    fin: 137,
    ..HELD_NODES
};

pub const HELD_NODES_AT_200: Extent = Extent {
    off: 200,
    fin: 237,
    ..HELD_NODES
};

/// Blobs that are put into a store as such, with digests of one byte over and over: the two of the file, one of another type
/// behind it, and three ways.
pub const PLACED_HEADER: Extent = Extent {
    digest: [1; 32],
    ..HELD_HEADER
};

pub const PLACED_NODES: Extent = Extent {
    digest: [2; 32],
    ..HELD_NODES
};

pub const PLACED_EXTRA: Extent = Extent {
    digest: [3; 32],
    ..HELD_EXTRA
};

pub const PLACED_WAYS: Extent = Extent {
    off: 100,
    fin: 137,
    digest: [4; 32],
    kind: Kind::OsmData,
    n: 3,
};

/// The block of a blob with no elements.
pub const NOTHING: &[u8] = &NO_ELEMENTS_BLOCK;

/// The block of the two nodes.
pub const TWO_NODES: &[u8] = &TWO_NODES_BLOCK;

/// That of the ways 7, 8 and 1, which have no nodes.
pub const THREE_WAYS: &[u8] =
    b"\x0A\x02\x0A\x00\x12\x0C\x1A\x02\x08\x07\x1A\x02\x08\x08\x1A\x02\x08\x01";

pub const THREE_WAYS_LINES: &[u8] = b"w 7 () [] {}\nw 8 () [] {}\nw 1 () [] {}\n";

/// The block of relation 9 with a name, node 1 as its outer member, and way -2 without a role.
pub const RELATION: &[u8] =
    b"\x0A\x16\x0A\x00\x0A\x04name\x0A\x05a b,c\x0A\x05outer\x12\x16\x22\x14\x08\x09\x12\x01\x01\x1A\x01\x02\x42\x02\x03\x00\x4A\x02\x02\x05\x52\x02\x00\x01";

/// That of way 7 over the nodes 5, 6, 7 and 6.
pub const WAY: &[u8] =
    b"\x0A\x08\x0A\x00\x0A\x01a\x0A\x01b\x12\x10\x1A\x0E\x08\x07\x12\x01\x01\x1A\x01\x02\x42\x04\x0A\x02\x02\x01";

pub const PLACED_RELATION: Extent = Extent {
    off: 84,
    fin: 150,
    digest: [3; 32],
    kind: Kind::OsmData,
    n: 1,
};

pub const PLACED_WAY: Extent = Extent {
    off: 150,
    fin: 199,
    digest: [4; 32],
    kind: Kind::OsmData,
    n: 1,
};

/// Relation 9, and way 7 over four nodes, behind the three ways.
pub const RELATION_AT_137: Extent = Extent {
    off: 137,
    fin: 203,
    ..PLACED_RELATION
};

pub const WAY_AT_203: Extent = Extent {
    off: 203,
    fin: 252,
    ..PLACED_WAY
};
