//! Stores that hold blobs of one file, and tests of `status` and `export` of several of them where one can't be opened or the
//! output fails.

ghost use Rattle.std.specs.Prelude.{◌≡◌, IfSome};

use super::stores::{Columns, NewStore};
use super::support::{Closed, TWO_NODES};
use osm_import::Told;
use osm_parts::Openings;
use osm_rows::{BlobReader, StoreFault};
use osm_value::{Form, Outlet};
use pbfrow_commands::import::{Start, import};
use pbfrow_commands::parts::{export_parts, status_parts};
use std::alloc::Global;
use std::io::Cursor;
use std::test::*;

/// Frames of a file, from an offset and up to one, and the offset where they are put.
pub type Range = (u32, u32, u32);

/// A new store that holds these frames of a file.
pub fn part_of<K: NewStore>(alloc: Global, file: &[u8], ranges: &[Range]) -> Option<K>
    ensures { IfSome result (λ store. K.failures store ≡ 0) }
{
    let mut store = K::new_store(alloc)?;
    for (from, to, at) in ranges {
        let start = Start {
            dropped: u64::from(*from),
            at: u64::from(*at),
        };
        let input = Cursor::new(file.get(..*to as usize)?);
        let mut out = Outlet::new(Vec::new(alloc));
        import(alloc, input, &mut store, start, None, &Told::All, &mut out);
    }
    if store.failures() == 0 {
        Some(store)
    } else {
        None
    }
}

/// Stores by the frames of a file that each holds. Each is imported anew where it is opened.
#[derive(Drop)]
pub struct Ranges<'a> {
    pub alloc: Global,
    pub file: &'a [u8],
    pub stores: &'a [&'a [Range]],
    pub failures: u64,
}

impl<K: NewStore> Openings<K> for Ranges<'_> {
    ghost holds = { λ ranges maps. ⊥ };

    ghost lends = { λ ranges maps held. ⊥ };

    ghost lies = { λ ranges place store. Unit {0} };

    ghost is_honest = { λ ranges. ⊥ };

    ghost is_open = { λ ranges. ⊥ };

    ghost failures = { λ ranges. ranges.failures };

    fn open(&mut self, place: u64) -> Result<K, StoreFault> {
        let found = match self.stores.get(place as usize) {
            Some(ranges) => part_of(self.alloc, self.file, ranges),
            None => None,
        };
        match found {
            Some(store) => Ok(store),
            None => {
                self.failures = self.failures.saturating_add(1);
                Err(StoreFault::Disk)
            }
        }
    }

    fn close(&mut self, store: K) {
        self.failures = self.failures.saturating_add(store.failures());
    }
}

/// A status of one store and of another that isn't there ends with the line of its fault.
#[test]
fn parts_of_which_one_cannot_be_opened(rt: HostRuntime) {
    let alloc = rt.alloc();
    let mut stores = Ranges {
        alloc,
        file: &TWO_NODES[..],
        stores: &[&[(0, 47, 0)]],
        failures: 0,
    };
    let mut out = Outlet::new(Vec::new(alloc));
    assert_eq!(rt;
        status_parts::<Columns, _, _>(alloc, &mut stores, 2, None, &mut out),
        1
    );
    assert!(rt; out.into_inner().as_slice() == b"fault 65 Disk\n".as_slice());
}

/// Where the output fails, both end with 1.
#[test]
fn parts_to_a_closed_output(rt: HostRuntime) {
    let alloc = rt.alloc();
    let mut stores = Ranges {
        alloc,
        file: &TWO_NODES[..],
        stores: &[&[(47, 84, 47)], &[(0, 47, 0)]],
        failures: 0,
    };
    let mut out = Outlet::new(Closed);
    assert_eq!(rt;
        status_parts::<Columns, _, _>(alloc, &mut stores, 2, None, &mut out),
        1
    );
    for form in [Form::Lines, Form::Pbf] {
        let mut out = Outlet::new(Closed);
        let ended = export_parts::<Columns, _, _>(
            alloc,
            &mut stores,
            2,
            None,
            false,
            form,
            &mut out,
        );
        assert_eq!(rt; ended, 1);
    }
}
