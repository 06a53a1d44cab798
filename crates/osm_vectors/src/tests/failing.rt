use crate::FailingReader;
use crate::vectors::*;
use std::io::Read;
use std::test::*;

#[test]
fn a_reader_that_fails(rt: HostRuntime) -> Result<(), Fail> {
    for left in 0..=TWO_NODES_FILE.len() {
        let mut reader = FailingReader {
            inner: TWO_NODES_FILE.as_slice(),
            left,
        };
        let mut given = Vec::new(rt.alloc());
        assert!(rt; reader.read_to_end(&mut given).is_err());
        assert!(rt; given.as_slice() == &TWO_NODES_FILE[..left]);
    }
    Ok(())
}
