//! Tests of `show` over readers and writers that fail.

use super::support::{Breaking, Closed, TWO_NODES};
use osm_value::Outlet;
use pbfrow_reading::show::show;
use std::io::Cursor;
use std::test::*;

const HEADER: &str = "blob 0 OSMHeader 47\nrequired OsmSchema-V0.6\nrequired DenseNodes\n";

#[test]
fn ends_with_a_read_error(rt: HostRuntime) {
    let mut out = Outlet::new(Vec::new(rt.alloc()));
    let mut input = Breaking {
        given: &TWO_NODES[..47],
    };
    assert_eq!(rt; show(rt.alloc(), &mut input, &mut out), 1);
    assert!(rt;
        out.into_inner().as_slice().strip_prefix(HEADER.as_bytes())
            == Some(b"fault 68 ReadFailed at 47\n".as_slice())
    );
}

#[test]
fn reports_a_write_error(rt: HostRuntime) {
    assert_eq!(rt;
        show(
            rt.alloc(),
            &mut Cursor::new(&TWO_NODES[..47]),
            &mut Outlet::new(Closed)
        ),
        1
    );
}
