//! What the definitions imply: theorems, with no code.

ghost use Rattle.osm_verify.specs.Audits.{AuditedShowsImport};
ghost use Rattle.osm_verify.specs.Laws.{VerifiedIsExact, ExactIsOne};
ghost use Rattle.osm_verify.specs.Together.{PartsHoldFile, AgreedHoldFile};

/// Where each frame of a file is good and held alike, and no held extent begins inside a frame or behind the last, the
/// store holds what an import of the file to a new store comes to: by elements it is that map, and by extents its extents
/// are those of that map.
pub fn a_verified_store_is_an_import()
    ensures exact { VerifiedIsExact }
    ensures one { ExactIsOne }
{}

/// Where the rows at the offset of each good frame of a file are those of its blob, and the tables of a database have no
/// more rows than these, queries see there the rows of what an import of the file to a new store comes to, and no others,
/// whatever rows the tables had.
pub fn an_audited_store_shows_an_import()
    ensures { AuditedShowsImport }
{}

/// Where several maps hold nothing but blobs of the frames that stand in a file at their offsets, and a union of them covers
/// all of the file, the file is a row of frames, and the union is what an import of it comes to: by extents its extents are.
/// So it is where the verdict on them has no finding and no gap.
pub fn parts_hold_the_file()
    ensures parts { PartsHoldFile }
    ensures agreed { AgreedHoldFile }
{}
