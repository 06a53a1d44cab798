//! Tests of the progress line of a command.

use pbfrow_reading::progress::{Progress, print_progress};
use std::alloc::Global;
use std::process::Abort;
use std::test::*;

fn expect_progress(
    rt: &(impl Abort + Alloc<A = Global>),
    done: (u64, u64),
    milliseconds: u64,
    size: Option<u64>,
    text: &[u8],
) {
    let (bytes, blobs) = done;
    let progress = Progress {
        bytes,
        blobs,
        milliseconds: milliseconds.max(1),
        size,
    };
    let mut out = Vec::new(rt.alloc());
    assert!(rt; print_progress(&progress, &mut out).is_ok());
    assert!(rt; out.as_slice() == text);
}

#[test]
fn tells_the_rate_and_the_time_left(rt: HostRuntime) {
    expect_progress(
        &rt,
        (12_345_678, 93),
        1_500,
        Some(20_800_000),
        b"12.3 MB of 20.8 MB, 93 blobs, 8.2 MB/s, 1 s left",
    );
    expect_progress(
        &rt,
        (500_000, 0),
        10_000,
        Some(100_500_000),
        b"0.5 MB of 100.5 MB, 0 blobs, 0.0 MB/s, 2000 s left",
    );
}

#[test]
fn tells_no_time_left_where_there_is_none(rt: HostRuntime) {
    expect_progress(&rt, (0, 0), 1_000, None, b"0.0 MB, 0 blobs, 0.0 MB/s");
    expect_progress(
        &rt,
        (0, 0),
        1_000,
        Some(7),
        b"0.0 MB of 0.0 MB, 0 blobs, 0.0 MB/s",
    );
    expect_progress(
        &rt,
        (3_000_000, 2),
        1_000,
        Some(2_000_000),
        b"3.0 MB of 2.0 MB, 2 blobs, 3.0 MB/s, 0 s left",
    );
}

#[test]
fn tells_the_greatest_numbers(rt: HostRuntime) {
    expect_progress(
        &rt,
        (u64::MAX, u64::MAX),
        1,
        Some(u64::MAX),
        b"18446744073709.5 MB of 18446744073709.5 MB, 18446744073709551615 blobs, 18446744073709551.6 MB/s, 0 s left",
    );
    expect_progress(
        &rt,
        (1, 1),
        u64::MAX,
        Some(u64::MAX),
        b"0.0 MB of 18446744073709.5 MB, 1 blobs, 0.0 MB/s, 340282366920938463408034375210639556 s left",
    );
}
