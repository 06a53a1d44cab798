//! The texts of tables and indexes, cut to what defines their columns.

ghost use Rattle.std.specs.Prelude.{◌≡◌, ◌≤◌, length};
ghost use Rattle.osm_index_orders.specs.Orders as spec;

use sqlite_trees::sound::same_name;

/// The text up to its first closing parenthesis.
pub(crate) fn to_closing(text: &[u8]) -> &[u8]
    ensures { result.now ≡ spec.to_closing text.now }
{
    let mut at = 0;
    while at < text.len() {
        if text[at] == b')' {
            return &text[..at + 1];
        }
        at += 1;
    }
    text
}

/// The text up to its last closing parenthesis.
pub(crate) fn without_options(mut text: &[u8]) -> &[u8]
    ensures value { result.now ≡ spec.without_options text.entry.now }
    ensures within { length result.now ≤ length text.entry.now }
{
    while let [rest @ .., last] = text {
        if *last == b')' {
            return text;
        }
        text = rest;
    }
    text
}

/// Whether a word stands somewhere in the text, in any letters.
pub(crate) fn mentions(word: &[u8], text: &[u8]) -> bool
    ensures { result ≡ spec.mentions word.now text.now }
{
    let mut rest = text;
    while let [_, after @ ..] = rest {
        if same_name(&rest[..word.len().min(rest.len())], word) {
            return true;
        }
        rest = after;
    }
    false
}

/// Whether the text makes a table `WITHOUT ROWID`.
pub(crate) fn is_without_rowid(text: &[u8]) -> bool
    ensures { result ≡ spec.is_without_rowid text.now }
{
    let defined = without_options(text);
    mentions(b"rowid", &text[defined.len()..])
}

/// Whether a text ends in another.
pub(crate) fn ends_in(ending: &[u8], text: &[u8]) -> bool
    ensures { result ≡ spec.ends_in ending.now text.now }
{
    &text[text.len().saturating_sub(ending.len())..] == ending
}
