//! Files, tellers and stores that tell a watcher what they do. Each does what the one inside it does.

ghost use Rattle.std.specs.Prelude.{None};

use osm_import::{Answer, SourceFailed, Teller};
use osm_rows::{BlobReader, Extent, Found, Loaded, StoreFault};
use osm_value::MemberKind;
use osm_verify::FileBytes;
use pbfrow_reading::watcher::Watcher;
use std::alloc::Global;
use std::io::{ErrorKind, Read, Seek, SeekFrom};

/// A file that can seek and tells how many bytes were read of it, and of each read as of a blob. What it holds is said nowhere:
/// no contract of `Seek` says what is read behind a seek.
#[derive(Drop)]
pub struct MeteredFile<'a, R, P> {
    pub file: R,
    pub watcher: &'a P,
}

impl<R: Read + Seek, P: Watcher> FileBytes for MeteredFile<'_, R, P> {
    ghost bytes = { λ _. None };

    fn size(&mut self) -> Result<u64, SourceFailed> {
        match self.file.seek(SeekFrom::End(0)) {
            Ok(size) => Ok(size),
            Err(_) => Err(SourceFailed),
        }
    }

    fn read_at(&mut self, off: u64, buffer: &mut [u8]) -> Result<bool, SourceFailed> {
        if self.file.seek(SeekFrom::Start(off)).is_err() {
            // No file system has each offset. Where the file ends before this one, it has no bytes there.
            return if off < self.size()? {
                Err(SourceFailed)
            } else {
                Ok(false)
            };
        }
        match self.file.read_exact(buffer) {
            Ok(()) => {
                self.watcher.see_bytes(buffer.len() as u64);
                self.watcher.see_blob();
                Ok(true)
            }
            Err(error) if error.kind() == ErrorKind::UnexpectedEof => Ok(false),
            Err(_) => Err(SourceFailed),
        }
    }
}

/// A teller that tells the watcher of each blob that was answered, whether or not its line is written.
#[derive(Drop)]
pub struct MeteredTeller<'a, T, P> {
    pub teller: T,
    pub watcher: &'a P,
}

impl<T: Teller, P: Watcher> Teller for MeteredTeller<'_, T, P> {
    ghost tells = { λ m answer. T.tells m.teller answer };

    fn tells(&self, answer: &Answer) -> bool {
        self.watcher.see_blob();
        self.teller.tells(answer)
    }
}

/// A store that tells of its blobs as they are loaded, in the order of their offsets: these are the bytes that are done,
/// up to the greatest end of a blob that it or another store of the same watcher has.
#[derive(Drop)]
pub struct MeteredStore<'a, K, P> {
    pub store: K,
    pub watcher: &'a P,
}

impl<K: BlobReader, P: Watcher> BlobReader for MeteredStore<'_, K, P> {
    ghost holds = { λ m held. K.holds m.store held };

    ghost leaves = { λ m left. K.leaves m.store left };

    ghost leaves_a_map = { λ m. K.leaves_a_map m.store };

    ghost lists = { λ m. K.lists m.store };

    ghost same_tables = { λ m n. K.same_tables m.store n.store };

    ghost is_honest = { λ m. K.is_honest m.store };

    ghost is_open = { λ m. K.is_open m.store };

    ghost failures = { λ m. K.failures m.store };

    fn extents(&mut self, alloc: Global) -> Result<Vec<Extent>, StoreFault> {
        let answer = self.store.extents(alloc);
        if let Ok(extents) = &answer {
            if let Some(last) = extents.last() {
                self.watcher.see_size(last.fin);
            }
        }
        answer
    }

    fn extents_touching(
        &mut self,
        alloc: Global,
        from: u64,
        to: u64,
    ) -> Result<Vec<Extent>, StoreFault> {
        self.store.extents_touching(alloc, from, to)
    }

    fn load(&mut self, alloc: Global, off: u64) -> Result<Loaded, StoreFault> {
        self.watcher.see_offset(off);
        let answer = self.store.load(alloc, off);
        self.watcher.see_blob();
        answer
    }

    fn find(&mut self, alloc: Global, kind: MemberKind, id: i64) -> Result<Found, StoreFault> {
        self.store.find(alloc, kind, id)
    }

    fn history(&mut self, alloc: Global) -> Result<bool, StoreFault> {
        self.store.history(alloc)
    }

    fn failures(&self) -> u64 {
        self.store.failures()
    }

    ghost settled = { λ m held left h l. K.settled m.store held left h l };

    ghost open_or_shut = { λ m honest. K.open_or_shut m.store honest };

    ghost same_tables_self = { λ m. K.same_tables_self m.store };

    ghost same_tables_then = { λ first next last one two. K.same_tables_then first.store next.store last.store one two };

    ghost leaves_held = { λ m held h. K.leaves_held m.store held h };

    ghost is_apart = { λ m held h. K.is_apart m.store held h };

    ghost has_few_texts = { λ m held h. K.has_few_texts m.store held h };
}
