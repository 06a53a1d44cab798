//! Texts, each by its index.

ghost use Rattle.std.specs.Prelude.{◌≡◌, ◌<◌, ◌++◌, ◌∷◌, [], IfOk, IsTrue, Some};
ghost use Rattle.std.specs.List.{slice_get};
ghost use Rattle.std.specs.Option.{option_copied};
ghost use Rattle.osm_columns.specs.Texts.{Names, Extends};
ghost use Rattle.osm_columns.specs.Indexes.{texts_in};

use std::alloc::{AllocError, Global};

/// How many buckets there are: the texts of a block of 8,000 elements mostly find one of their own.
const BUCKETS: usize = 16_384;

/// What a bucket has that holds no index.
const EMPTY: i32 = -1;

/// How many buckets are looked into for a text. One that isn't found there is held once more: so no choice of texts makes the
/// search long.
const PROBES: usize = 8;

/// Texts in the order in which they are first asked for, mostly each once.
#[derive(Debug, Drop)]
pub struct Dictionary<'a> {
    pub texts: Vec<&'a str>,
    buckets: Vec<i32>,
}

fn mixed(hash: u64, word: u64) -> u64 {
    (hash ^ word)
        .wrapping_mul(0x9E37_79B9_7F4A_7C15)
        .rotate_left(29)
}

/// The first and the last bytes of a text, which cover it where it has at most sixteen.
fn ends_of(text: &[u8]) -> (u64, u64) {
    if let (Some(first), Some(last)) = (text.first_chunk::<8>(), text.last_chunk::<8>()) {
        return (u64::from_le_bytes(*first), u64::from_le_bytes(*last));
    }
    if let (Some(first), Some(last)) = (text.first_chunk::<4>(), text.last_chunk::<4>()) {
        return (
            u64::from(u32::from_le_bytes(*first)),
            u64::from(u32::from_le_bytes(*last)),
        );
    }
    let mut word = 0;
    for byte in text {
        word = word << 8 | u64::from(*byte);
    }
    (word, 0)
}

/// The bucket where the search for a text begins.
fn bucket_of(text: &[u8]) -> usize
    ensures { result < 16384 }
{
    let (first, last) = ends_of(text);
    let mut hash = mixed(mixed(text.len() as u64, first), last);
    if text.len() > 16 {
        let (words, _) = text.as_chunks::<8>();
        for word in words {
            hash = mixed(hash, u64::from_le_bytes(*word));
        }
    }
    (hash % 16_384) as usize
}

impl<'a> Dictionary<'a> {
    /// A dictionary without texts.
    pub(crate) fn new(alloc: Global) -> Result<Dictionary<'a>, AllocError>
        ensures { IfOk result (λ d. texts_in d ≡ []) }
    {
        let buckets = vec![in alloc; EMPTY; BUCKETS]?;
        Ok(Dictionary {
            texts: Vec::new(alloc),
            buckets,
        })
    }

    /// The text of this index.
    fn text_at(&self, index: usize) -> Option<&'a str>
        ensures { option_copied result ≡ slice_get (texts_in self.now) index }
    {
        self.texts.get(index).copied()
    }

    /// Whether this index names the text.
    pub(crate) fn names(&self, index: i32, text: &str) -> bool
        ensures { IsTrue result → Names (texts_in self.now) index (Some text.now) }
    {
        match usize::try_from(index) {
            Ok(index) => match self.text_at(index) {
                Some(held) => held == text,
                None => false,
            },
            Err(_) => false,
        }
    }

    /// Puts the text behind the others.
    fn add(&mut self, text: &'a str) -> Result<i32, AllocError>
        ensures added { IfOk result (λ _. texts_in self.new ≡ texts_in self.old ++ text.now ∷ []) }
        ensures index { IfOk result (λ index. Names (texts_in self.new) index (Some text.now)) }
    {
        match i32::try_from(self.texts.len()) {
            Ok(index) => {
                self.texts.push(text)?;
                Ok(index)
            }
            Err(_) => Err(AllocError),
        }
    }

    /// The index of the text, which is put behind the others where it isn't found. It fails where memory is refused, or where
    /// there are 2^31 texts.
    pub(crate) fn index_of(&mut self, text: &'a str) -> Result<i32, AllocError>
        ensures extends { IfOk result (λ _. Extends (texts_in self.old) (texts_in self.new)) }
        ensures names { IfOk result (λ index. Names (texts_in self.new) index (Some text.now)) }
    {
        let first = bucket_of(text.as_bytes());
        for step in 0..PROBES {
            let bucket = (first + step) % BUCKETS;
            let Some(held) = self.buckets.get(bucket).copied() else {
                return self.add(text);
            };
            if held == EMPTY {
                let index = self.add(text)?;
                if let Some(place) = self.buckets.get_mut(bucket) {
                    *place = index;
                }
                return Ok(index);
            }
            if self.names(held, text) {
                return Ok(held);
            }
        }
        self.add(text)
    }
}
