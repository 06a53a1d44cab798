//! Blocks of a list of elements, none of them too large.

ghost use Rattle.std.specs.Prelude.{◌≡◌, ◌≤◌, List, length, MatchResult, OnOk};
ghost use Rattle.osm_value.specs.declared.element.Element.{Element};
ghost use Rattle.osm_write.specs.Cutter.{StepOk, StepErr, NextOk, FirstFits};

use crate::block::encode_block;
use crate::fault::WriteFault;
use osm_value::Element;
use std::alloc::Global;
use std::marker::Model;

/// How many elements a block has at most.
const MAX_ELEMENTS: usize = 8000;

/// Cuts a list of elements into blocks, each as its caller asks for it. Contracts see it as the
/// list of the elements that are left.
#[derive(Drop)]
pub struct BlobCutter<'s, 'a> {
    alloc: Global,
    rest: &'s [Element<'a>],
}

impl<'s, 'a> Model for BlobCutter<'s, 'a> {
    ghost Value = { List Element };

    ghost view = { λ c. c.rest.now };
}

impl<'s, 'a> BlobCutter<'s, 'a> {
    /// A cutter of these elements. It takes no memory.
    pub fn new(alloc: Global, elements: &'s [Element<'a>]) -> Self
        ensures { result ≡ elements.now }
    {
        BlobCutter {
            alloc,
            rest: elements,
        }
    }

    /// The block of the next 8,000 elements, or of all that are left; while it has more than
    /// 33,554,431 bytes, of half as many, rounded down. None exactly where no element is left.
    ///
    /// `BlockTooLarge` exactly where the block of the next element alone has more than 33,554,431
    /// bytes, unless memory ran out; `Memory` only where memory was refused. An error leaves the
    /// cutter as it was, so that the next call answers `BlockTooLarge` again.
    pub fn next(&mut self) -> Result<Option<Vec<u8>>, WriteFault>
        ensures exact { MatchResult result (λ block. NextOk self.old self.new block) (λ e. (self.new ≡ self.old) × StepErr self.old e) }
        ensures first_fits { OnOk result (FirstFits self.old) }
    {
        if self.rest.is_empty() {
            return Ok(None);
        }
        let (block, count) = cut(self.alloc, self.rest)?;
        self.rest = &self.rest[count..];
        Ok(Some(block))
    }
}

/// The block of the first 8,000 elements, or of half as many, and so on, until it is small
/// enough; and how many they are.
fn cut(alloc: Global, elements: &[Element]) -> Result<(Vec<u8>, usize), WriteFault>
    requires { 1 ≤ length elements.now }
    ensures exact { MatchResult result (λ cut. StepOk elements.now cut.0.items cut.1) (λ e. StepErr elements.now e) }
    ensures first_fits { OnOk result (FirstFits elements.now) }
{
    let mut count = elements.len().min(MAX_ELEMENTS);
    loop {
        match encode_block(alloc, &elements[..count]) {
            Ok(block) => return Ok((block, count)),
            Err(WriteFault::Memory) => return Err(WriteFault::Memory),
            Err(WriteFault::BlockTooLarge) => {
                if count == 1 {
                    return Err(WriteFault::BlockTooLarge);
                }
                count /= 2;
            }
        }
    }
}
