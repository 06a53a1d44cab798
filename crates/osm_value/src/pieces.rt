//! Bytes, numbers and texts written to a sink. Each call goes on where a sink has failed and then writes nothing,
//! so that one look at the sink after the last call suffices.

ghost use Rattle.std.specs.Prelude.{◌≡◌, ◌<◌};
ghost use Rattle.std.specs.Fmt.{decimal, signed_decimal};
ghost use Rattle.osm_value.specs.Printing.{Prints};
ghost use Rattle.osm_value.specs.Escape.{is_escaped, escaped, hex_digit};

use crate::sink::Sink;
use itoa::Buffer;

/// Writes all of the piece. Where the sink has failed nothing is written, and where it fails a front of the piece went
/// out; `failed` tells of both.
pub fn put<S: Sink>(sink: &mut S, piece: &[u8])
    ensures { Prints S.Sink sink.old sink.new piece.now }
{
    let mut at = 0;
    while at < piece.len() {
        if sink.failed() {
            return;
        }
        let taken = match sink.write(&piece[at..]) {
            Ok(taken) => taken,
            Err(_) => return,
        };
        if taken == 0 {
            return;
        }
        at += taken;
    }
}

/// Writes a number in decimal, with `-` before one below 0. A sink that fails is met as by `put`.
pub fn put_number<S: Sink>(sink: &mut S, number: i64)
    ensures { Prints S.Sink sink.old sink.new (signed_decimal number) }
{
    let mut text = Buffer::new();
    put(sink, text.format(number).as_bytes());
}

/// Writes a number that isn't negative in decimal, 1 to 20 digits. A sink that fails is met as by `put`.
pub fn put_digits<S: Sink>(sink: &mut S, number: u64)
    ensures { Prints S.Sink sink.old sink.new (decimal number) }
{
    let mut digits = Buffer::new();
    put(sink, digits.format(number).as_bytes());
}

/// Writes a text. Each byte that separates or isn't printed is `%` and two upper-case hexadecimal digits: those below
/// 33, 127, and each of `%=,@[]{}()`; bytes from 128 on stay. A sink that fails is met as by `put`.
pub fn put_escaped<S: Sink>(sink: &mut S, text: &str)
    ensures { Prints S.Sink sink.old sink.new (escaped text.now) }
{
    let bytes = text.as_bytes();
    let mut plain = 0;
    for at in 0..bytes.len() {
        let byte = bytes[at];
        if !is_escaped(byte) {
            continue;
        }
        put(sink, &bytes[plain..at]);
        put(sink, &[b'%', hex_digit(byte / 16), hex_digit(byte % 16)]);
        plain = at + 1;
    }
    put(sink, &bytes[plain..]);
}

/// Whether the byte is written as `%` and two digits.
fn is_escaped(byte: u8) -> bool
    ensures { result ≡ is_escaped byte }
{
    byte < 33
        || byte == 127
        || byte == b'%'
        || byte == b'='
        || byte == b','
        || byte == b'@'
        || byte == b'['
        || byte == b']'
        || byte == b'{'
        || byte == b'}'
        || byte == b'('
        || byte == b')'
}

/// A hexadecimal digit, in upper case.
fn hex_digit(number: u8) -> u8
    requires { number < 16 }
    ensures { result ≡ hex_digit number }
{
    if number < 10 {
        number + 48
    } else {
        number + 55
    }
}
