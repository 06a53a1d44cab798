//! What the definitions imply: theorems, with no code.

ghost use Rattle.pbfrow_commands.specs.Workers.{PlanTiles, FileGives, PieceGives, FramesAreOne, OneDatabaseHoldsAll, FilledRangesStay, DatabasesAreParts};

/// Workers that ended with 0, each with its range of a plan, are one import of the file.
///
/// A plan tiles the file: the ranges of `ranges` do, where it ends with 0 (clause `plan`), and of any other list it can be
/// seen. What a worker promises is the clause `whole` of `import`; the map that it names is what the next worker of the same
/// database finds. Its input gives its range if it is the file, from its first byte or from where `seek_start` leaves it
/// (`file_given`), or the bytes of the range through a pipe, none of which is dropped (`piece_given`).
///
/// Where all fill one database, in any order and any of them more than once, it holds each frame of the file; and if nothing
/// but blobs of the file was held before, what one import of the file to a new store comes to. Whatever else is done to the
/// database, it does so as long as what was held stays, and if nothing but blobs of the file is held at the end.
///
/// Where each fills its own, which held nothing, or what the same worker had stored when it was interrupted, these are the
/// parts of what that import comes to, in order: so what is read of them in turn is what is read of it (law
/// `parts_are_read_in_turn` of `osm_parts`). And merged, in any order, they are it.
pub fn workers_are_one_import()
    ensures plan { PlanTiles }
    ensures file_given { FileGives }
    ensures piece_given { PieceGives }
    ensures frames { FramesAreOne }
    ensures one_database { OneDatabaseHoldsAll }
    ensures ranges_stay { FilledRangesStay }
    ensures databases { DatabasesAreParts }
{}
