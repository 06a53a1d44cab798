//! The field numbers of the messages, as osmformat.proto has them: a block for each message, in its order.

// ---- HeaderBlock
pub const HEADER_BBOX: u32 = 1;

pub const HEADER_REQUIRED_FEATURES: u32 = 4;

pub const HEADER_OPTIONAL_FEATURES: u32 = 5;

pub const HEADER_WRITINGPROGRAM: u32 = 16;

pub const HEADER_SOURCE: u32 = 17;

pub const HEADER_REPLICATION_TIMESTAMP: u32 = 32;

pub const HEADER_REPLICATION_SEQUENCE_NUMBER: u32 = 33;

pub const HEADER_REPLICATION_BASE_URL: u32 = 34;

// ---- HeaderBBox
pub const BBOX_LEFT: u32 = 1;

pub const BBOX_RIGHT: u32 = 2;

pub const BBOX_TOP: u32 = 3;

pub const BBOX_BOTTOM: u32 = 4;

// ---- PrimitiveBlock
pub const BLOCK_STRINGTABLE: u32 = 1;

pub const BLOCK_PRIMITIVEGROUP: u32 = 2;

pub const BLOCK_GRANULARITY: u32 = 17;

pub const BLOCK_DATE_GRANULARITY: u32 = 18;

pub const BLOCK_LAT_OFFSET: u32 = 19;

pub const BLOCK_LON_OFFSET: u32 = 20;

// ---- PrimitiveGroup
pub const GROUP_NODES: u32 = 1;

pub const GROUP_DENSE: u32 = 2;

pub const GROUP_WAYS: u32 = 3;

pub const GROUP_RELATIONS: u32 = 4;

// ---- StringTable
pub const STRINGTABLE_S: u32 = 1;

// ---- Info
pub const INFO_VERSION: u32 = 1;

pub const INFO_TIMESTAMP: u32 = 2;

pub const INFO_CHANGESET: u32 = 3;

pub const INFO_UID: u32 = 4;

pub const INFO_USER_SID: u32 = 5;

pub const INFO_VISIBLE: u32 = 6;

// ---- DenseInfo
pub const DENSEINFO_VERSION: u32 = 1;

pub const DENSEINFO_TIMESTAMP: u32 = 2;

pub const DENSEINFO_CHANGESET: u32 = 3;

pub const DENSEINFO_UID: u32 = 4;

pub const DENSEINFO_USER_SID: u32 = 5;

pub const DENSEINFO_VISIBLE: u32 = 6;

// ---- Node, Way and Relation begin with the same four fields.
pub const ELEMENT_ID: u32 = 1;

pub const ELEMENT_KEYS: u32 = 2;

pub const ELEMENT_VALS: u32 = 3;

pub const ELEMENT_INFO: u32 = 4;

// ---- Node
pub const NODE_LAT: u32 = 8;

pub const NODE_LON: u32 = 9;

// ---- DenseNodes
pub const DENSE_ID: u32 = 1;

pub const DENSE_DENSEINFO: u32 = 5;

pub const DENSE_LAT: u32 = 8;

pub const DENSE_LON: u32 = 9;

pub const DENSE_KEYS_VALS: u32 = 10;

// ---- Way
pub const WAY_REFS: u32 = 8;

// ---- Relation
pub const RELATION_ROLES_SID: u32 = 8;

pub const RELATION_MEMIDS: u32 = 9;

pub const RELATION_TYPES: u32 = 10;
