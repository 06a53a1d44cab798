//! The texts of a block, each once, in order of first use.

ghost use Rattle.std.specs.Prelude.{◌≡◌, ◌<◌, ◌^◌, List, [], map, OnOk};
ghost use Rattle.osm_value.specs.Value.{Text};
ghost use Rattle.osm_write.specs.Texts.{Knows, with_text};
ghost use Rattle.osm_write.specs.Canon.{index_in};

use std::alloc::{AllocError, Global};
use std::collections::HashMap;
use std::marker::Model;

/// The texts of a block without the empty text at index 0. A text is found by its hash, so the
/// whole block is written in one pass over its texts. The map hashes with a fixed seed: texts that
/// were chosen to collide would make the look-ups slow, and nothing else.
#[derive(Drop)]
pub(crate) struct TextTable<'a> {
    texts: Vec<&'a str>,
    indexes: HashMap<&'a str, usize>,
}

impl<'a> Model for TextTable<'a> {
    ghost Value = { List Text };

    ghost view = { λ t. map (λ s. s.now) t.texts.items };

    ghost invariant = { λ t. Knows t.indexes (map (λ s. s.now) t.texts.items) };
}

impl<'a> TextTable<'a> {
    pub fn new(alloc: Global) -> Self
        ensures { result ≡ [] }
    {
        TextTable {
            texts: Vec::new(alloc),
            indexes: HashMap::new(alloc),
        }
    }

    pub fn texts(&self) -> &[&'a str]
        ensures { map (λ s. s.now) result.now ≡ self.now }
    {
        &self.texts
    }

    /// Adds the text at the end, unless it is there already.
    pub fn add(&mut self, text: &'a str) -> Result<(), AllocError>
        ensures { OnOk result (self.new ≡ with_text self.old text.now) }
    {
        if self.indexes.get(text).is_some() {
            return Ok(());
        }
        let index = self.texts.len();
        self.texts.reserve(1)?;
        self.indexes.insert(text, index)?;
        self.texts.push(text)?;
        Ok(())
    }

    /// The index of the text; the number of texts where it isn't there.
    pub fn index_of(&self, text: &str) -> usize
        ensures exact { result ≡ index_in text.now self.now }
        ensures small { result < 2 ^ 61 }
    {
        let count = self.texts.as_slice().len();
        match self.indexes.get(text) {
            Some(index) => *index,
            None => count,
        }
    }
}
