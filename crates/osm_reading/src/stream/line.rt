//! The lines of faults.

ghost use Rattle.std.specs.Prelude.{◌++◌};
ghost use Rattle.osm_value.specs.Printing.{Prints};
ghost use Rattle.osm_reading.specs.Lines.{fault_text, plain_fault_line, fault_line};

use osm_value::{Sink, put, put_digits};

/// Writes `fault NUMBER NAME` and what follows it on the line.
fn put_fault_and<S: Sink>(out: &mut S, number: u8, name: &str, behind: &[u8])
    ensures { Prints S.Sink out.old out.new (fault_text number name.now ++ behind.now) }
{
    put(out, b"fault ");
    put_digits(out, u64::from(number));
    put(out, b" ");
    put(out, name.as_bytes());
    put(out, behind);
}

/// Writes `fault NUMBER NAME` and a line feed: a fault at no offset of a file. A sink that fails is met as by `put`.
pub fn put_plain_fault<S: Sink>(out: &mut S, number: u8, name: &str)
    ensures { Prints S.Sink out.old out.new (plain_fault_line number name.now) }
{
    put_fault_and(out, number, name, b"\n");
}

/// Writes `fault NUMBER NAME at OFFSET` and a line feed: a fault at this offset of a file, in bytes. A sink that fails
/// is met as by `put`.
pub fn put_fault_at<S: Sink>(out: &mut S, number: u8, name: &str, off: u64)
    ensures { Prints S.Sink out.old out.new (fault_line number name.now off) }
{
    put_fault_and(out, number, name, b" at ");
    put_digits(out, off);
    put(out, b"\n");
}
