//! The numbers of an array of a message.

ghost use Rattle.std.specs.Prelude.{◌≡◌, ◌+◌, ◌++◌, ◌<◌, ◌≤◌, length, take, OnOk, IfOk, IfSome, None, []};
ghost use Rattle.std.specs.List.{AllByRecursion};
ghost use Rattle.std.specs.Option.{option_or};
ghost use Rattle.pbf_wire.specs.Field.{content_of};
ghost use Rattle.pbf_wire.specs.Readings.{numbers, packed};
ghost use Rattle.osm_block.specs.FieldsLeft.{numbers_in, fault_in};

use pbf_wire::{Value, WireFault, read_number};
use std::alloc::{AllocError, Global};

/// How many numbers are gathered before they are appended to an array.
const RUN: usize = 64;

/// The numbers of an array, and the first fault of its packed payloads.
#[derive(Drop)]
pub struct NumberArray {
    pub numbers: Vec<u64>,
    pub fault: Option<WireFault>,
    /// Where numbers of a payload are gathered before they are appended. What is left here means nothing.
    run: [u64; RUN],
}

impl NumberArray {
    pub(crate) fn new(alloc: Global) -> NumberArray
        ensures numbers { result.numbers.items ≡ [] }
        ensures fault { result.fault ≡ None }
    {
        NumberArray {
            numbers: Vec::new(alloc),
            fault: None,
            run: [0; RUN],
        }
    }

    /// Begins another array. It keeps its memory.
    pub(crate) fn clear(&mut self)
        ensures numbers { self.new.numbers.items ≡ [] }
        ensures fault { self.new.fault ≡ None }
    {
        self.numbers.clear();
        self.fault = None;
    }

    /// Appends what a field of the array holds: a number, or a packed array of them.
    pub(crate) fn take(&mut self, value: Value) -> Result<(), AllocError>
        ensures numbers { OnOk result (self.new.numbers.items ≡ self.old.numbers.items ++ numbers_in (content_of value.entry)) }
        ensures fault { OnOk result (self.new.fault ≡ option_or self.old.fault (fault_in (content_of value.entry))) }
    {
        match value {
            Value::Number(number) => self.numbers.push(number)?,
            Value::Bytes(payload) => {
                let fault = unpack(payload, &mut self.run, &mut self.numbers)?;
                self.fault = self.fault.or(fault);
            }
            Value::Fixed64(_) | Value::Fixed32(_) => {}
        }
        Ok(())
    }
}

/// The first eight numbers, where each takes one byte.
fn eight_small(bytes: &[u8]) -> Option<[u64; 8]>
    ensures long { IfSome result (λ _. 8 ≤ length bytes.now) }
    ensures bytes { IfSome result (λ numbers. numbers ≡ take 8 bytes.now) }
    ensures small { IfSome result (λ numbers. AllByRecursion (λ n. n < 128) numbers) }
{
    if bytes.len() < 8 {
        return None;
    }
    // No test of one byte waits for another, so that the compiler makes one of all.
    let front = (bytes[0] < 128) & (bytes[1] < 128) & (bytes[2] < 128) & (bytes[3] < 128);
    let back = (bytes[4] < 128) & (bytes[5] < 128) & (bytes[6] < 128) & (bytes[7] < 128);
    if !(front & back) {
        return None;
    }
    Some([
        u64::from(bytes[0]),
        u64::from(bytes[1]),
        u64::from(bytes[2]),
        u64::from(bytes[3]),
        u64::from(bytes[4]),
        u64::from(bytes[5]),
        u64::from(bytes[6]),
        u64::from(bytes[7]),
    ])
}

/// Appends the numbers that are gathered, unless sixteen more have room beside them. Answers how many are gathered then.
#[inline(always)]
fn room_for_sixteen(run: &[u64; RUN], count: usize, out: &mut Vec<u64>) -> Result<usize, AllocError>
    requires { count ≤ 64 }
    ensures room { IfOk result (λ left. left + 16 ≤ 64) }
    ensures same { IfOk result (λ left. out.new.items ++ take left run.now ≡ out.old.items ++ take count run.now) }
{
    if count + 16 <= RUN {
        return Ok(count);
    }
    out.extend_from_slice(&run[..count])?;
    Ok(0)
}

/// Puts eight numbers behind those that are gathered.
#[inline(always)]
fn put_eight(run: &mut [u64; RUN], count: usize, numbers: &[u64; 8])
    requires { count + 8 ≤ 64 }
    ensures { take (count + 8) run.new ≡ take count run.old ++ numbers.now }
{
    run[count] = numbers[0];
    run[count + 1] = numbers[1];
    run[count + 2] = numbers[2];
    run[count + 3] = numbers[3];
    run[count + 4] = numbers[4];
    run[count + 5] = numbers[5];
    run[count + 6] = numbers[6];
    run[count + 7] = numbers[7];
}

/// Appends the numbers of a packed payload, up to its first fault, which it answers. They are gathered in `run`, so that only
/// each run of them, and no single one, asks whether the array has room.
fn unpack(
    payload: &[u8],
    run: &mut [u64; RUN],
    out: &mut Vec<u64>,
) -> Result<Option<WireFault>, AllocError>
    ensures fault { IfOk result (λ f. f ≡ packed payload.now) }
    ensures numbers { OnOk result (out.new.items ≡ out.old.items ++ numbers payload.now) }
{
    // No number takes less than a byte.
    out.try_reserve(payload.len())?;
    let mut count = 0;
    let mut at = 0;
    while at < payload.len() {
        count = room_for_sixteen(run, count, out)?;
        // Numbers of one byte stand beside each other.
        if let Some(numbers) = eight_small(&payload[at..]) {
            put_eight(run, count, &numbers);
            count += 8;
            at += 8;
            continue;
        }
        // If one of them is longer, so are most, and no more than sixteen numbers begin in sixteen bytes.
        let next = payload.len().min(at + 16);
        while at < next {
            match read_number(&payload[at..]) {
                Ok((number, len)) => {
                    run[count] = number;
                    count += 1;
                    at += len;
                }
                Err(fault) => {
                    let kind = fault.kind;
                    out.extend_from_slice(&run[..count])?;
                    return Ok(Some(WireFault { kind, at }));
                }
            }
        }
    }
    out.extend_from_slice(&run[..count])?;
    Ok(None)
}
