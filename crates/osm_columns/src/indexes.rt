//! The indexes of all texts of some elements.

ghost use Rattle.std.specs.Prelude.{◌≡◌, ◌<◌, ◌++◌, ◌∷◌, [], List, OnOk, IfOk, Some, length, map, negsuc, replicate, true};
ghost use Rattle.std.specs.List.{list_all};
ghost use Rattle.osm_value.specs.declared.element.Element.{Element};
ghost use Rattle.osm_value.specs.declared.element.Element.TheVariants as elements;
ghost use Rattle.osm_value.specs.Value.{NodeValue};
ghost use Rattle.std.specs.Option.{option_copied};
ghost use Rattle.osm_block.specs.Message.{Context};
ghost use Rattle.osm_block.specs.DenseTags.{indexes_of};
ghost use Rattle.osm_block.specs.NodeTags.{node_pairs};
ghost use Rattle.osm_block.specs.Phases.{is_index};
ghost use Rattle.osm_block.specs.Groups.{AreNodesOf, GroupHolds, GroupsHold};
ghost use Rattle.osm_columns.specs.Values.{refs_of_element, members_of_element};
ghost use Rattle.osm_columns.specs.Texts.{NameAll, Extends};
ghost use Rattle.osm_columns.specs.Indexes.{AreIndexes, NamesMore, texts_in, index_in};

use crate::dense_texts::{push_nodes, push_places};
use crate::dictionary::Dictionary;
use osm_block::{BlockGroups, DenseArrays, GroupElements};
use osm_value::{Element, Member};
use std::alloc::{AllocError, Global};

/// What stands for the index of a text that is not there.
const NO_TEXT: i32 = -1;

/// The texts of some elements, each by its index in a dictionary: the user of each element (-1 where there is none), the key and
/// the value of each tag, the role of each member.
#[derive(Debug, Drop)]
pub struct TextIndexes<'a> {
    pub dictionary: Dictionary<'a>,
    pub users: Vec<i32>,
    pub keys: Vec<i32>,
    pub values: Vec<i32>,
    pub roles: Vec<i32>,
}

fn push_text<'a>(
    dictionary: &mut Dictionary<'a>,
    text: &'a str,
    indexes: &mut Vec<i32>,
) -> Result<(), AllocError>
    ensures { OnOk result (NamesMore (Some text.now ∷ []) dictionary.old dictionary.new indexes.old.items indexes.new.items) }
{
    let index = dictionary.index_of(text)?;
    indexes.push(index)?;
    Ok(())
}

/// Elements side by side often have the same user: this takes a third of the time of a search.
fn push_user_name<'a>(
    dictionary: &mut Dictionary<'a>,
    user: &'a str,
    indexes: &mut Vec<i32>,
) -> Result<(), AllocError>
    ensures { OnOk result (NamesMore (Some user.now ∷ []) dictionary.old dictionary.new indexes.old.items indexes.new.items) }
{
    let last = indexes.last().copied().unwrap_or(NO_TEXT);
    if dictionary.names(last, user) {
        indexes.push(last)?;
        return Ok(());
    }
    push_text(dictionary, user, indexes)
}

fn push_user<'a>(
    dictionary: &mut Dictionary<'a>,
    user: Option<&'a str>,
    indexes: &mut Vec<i32>,
) -> Result<(), AllocError>
    ensures { OnOk result (NamesMore (option_copied user.entry ∷ []) dictionary.old dictionary.new indexes.old.items indexes.new.items) }
{
    match user {
        Some(user) => push_user_name(dictionary, user, indexes),
        None => {
            indexes.push(NO_TEXT)?;
            Ok(())
        }
    }
}

fn push_keys<'a>(
    dictionary: &mut Dictionary<'a>,
    tags: &[(&'a str, &'a str)],
    indexes: &mut Vec<i32>,
) -> Result<(), AllocError>
    ensures { OnOk result (NamesMore (map (λ t. Some t.0.now) tags.now) dictionary.old dictionary.new indexes.old.items indexes.new.items) }
{
    for tag in tags {
        push_text(dictionary, tag.0, indexes)?;
    }
    Ok(())
}

fn push_values<'a>(
    dictionary: &mut Dictionary<'a>,
    tags: &[(&'a str, &'a str)],
    indexes: &mut Vec<i32>,
) -> Result<(), AllocError>
    ensures { OnOk result (NamesMore (map (λ t. Some t.1.now) tags.now) dictionary.old dictionary.new indexes.old.items indexes.new.items) }
{
    for tag in tags {
        push_text(dictionary, tag.1, indexes)?;
    }
    Ok(())
}

fn push_roles<'a>(
    dictionary: &mut Dictionary<'a>,
    members: &[Member<'a>],
    indexes: &mut Vec<i32>,
) -> Result<(), AllocError>
    ensures { OnOk result (NamesMore (map (λ m. Some m.role) members.now) dictionary.old dictionary.new indexes.old.items indexes.new.items) }
{
    for member in members {
        push_text(dictionary, member.role(), indexes)?;
    }
    Ok(())
}

/// The nodes of a way; none of another element.
pub(crate) fn refs_of<'e>(element: &'e Element) -> &'e [i64]
    ensures { result.now ≡ refs_of_element element.now }
{
    match element {
        Element::Way(way) => way.refs(),
        Element::Node(_) => &[],
        Element::Relation(_) => &[],
    }
}

/// The members of a relation; none of another element.
pub(crate) fn members_of<'e, 'a>(element: &'e Element<'a>) -> &'e [Member<'a>]
    ensures { result.now ≡ members_of_element element.now }
{
    match element {
        Element::Relation(relation) => relation.members(),
        Element::Node(_) => &[],
        Element::Way(_) => &[],
    }
}

/// Appends the indexes of the texts.
fn push_texts<'a>(
    dictionary: &mut Dictionary<'a>,
    texts: &[&'a str],
    indexes: &mut Vec<i32>,
) -> Result<(), AllocError>
    ensures { OnOk result (NamesMore (map (λ t. Some t.now) texts.now) dictionary.old dictionary.new indexes.old.items indexes.new.items) }
{
    for text in texts {
        push_text(dictionary, text, indexes)?;
    }
    Ok(())
}

/// Appends for so many elements that they have no user.
fn push_none(count: usize, indexes: &mut Vec<i32>) -> Result<(), AllocError>
    ensures { OnOk result (indexes.new.items ≡ indexes.old.items ++ replicate count (negsuc 0)) }
{
    for _index in 0..count {
        indexes.push(NO_TEXT)?;
    }
    Ok(())
}

/// Appends the indexes of the users of so many dense nodes, whose table has these indexes.
fn push_dense_users(
    table: &[i32],
    users: &[i64],
    nodes: usize,
    indexes: &mut Vec<i32>,
) -> Result<(), AllocError>
    requires { list_all (is_index (length table.now)) users.now ≡ true }
    ensures some { OnOk result (0 < length users.now → indexes.new.items ≡ indexes.old.items ++ map (index_in table.now) users.now) }
    ensures none { OnOk result (length users.now ≡ 0 → indexes.new.items ≡ indexes.old.items ++ replicate nodes (negsuc 0)) }
{
    if users.is_empty() {
        push_none(nodes, indexes)
    } else {
        push_places(table, users, indexes)
    }
}

impl<'a> TextIndexes<'a> {
    /// Those of no elements, and the index of each text of the table.
    pub(crate) fn with_table(
        alloc: Global,
        texts: &[&'a str],
    ) -> Result<(TextIndexes<'a>, Vec<i32>), AllocError>
        ensures indexes { IfOk result (λ r. AreIndexes r.0 []) }
        ensures table { IfOk result (λ r. NameAll (texts_in r.0.dictionary) r.1.items (map (λ t. Some t) (map (λ t. t.now) texts.now))) }
    {
        let mut dictionary = Dictionary::new(alloc)?;
        let mut table = Vec::with_capacity(alloc, texts.len())?;
        push_texts(&mut dictionary, texts, &mut table)?;
        let indexes = TextIndexes {
            dictionary,
            users: Vec::new(alloc),
            keys: Vec::new(alloc),
            values: Vec::new(alloc),
            roles: Vec::new(alloc),
        };
        Ok((indexes, table))
    }

    /// Appends the texts of one more element.
    pub(crate) fn push(&mut self, element: &Element<'a>) -> Result<(), AllocError>
        ensures extends { OnOk result (Extends (texts_in self.old.dictionary) (texts_in self.new.dictionary)) }
        ensures indexes { OnOk result ((es : List Element) → AreIndexes self.old es → AreIndexes self.new (es ++ element.now ∷ [])) }
    {
        let tags = element.tags();
        push_user(&mut self.dictionary, element.info().user(), &mut self.users)?;
        push_keys(&mut self.dictionary, tags, &mut self.keys)?;
        push_values(&mut self.dictionary, tags, &mut self.values)?;
        push_roles(&mut self.dictionary, members_of(element), &mut self.roles)?;
        Ok(())
    }

    /// Appends the texts of the elements.
    fn push_listed(&mut self, elements: &[Element<'a>]) -> Result<(), AllocError>
        ensures extends { OnOk result (Extends (texts_in self.old.dictionary) (texts_in self.new.dictionary)) }
        ensures indexes { OnOk result ((es : List Element) → AreIndexes self.old es → AreIndexes self.new (es ++ elements.now)) }
    {
        for element in elements {
            self.push(element)?;
        }
        Ok(())
    }

    /// Appends the texts of dense nodes, whose table has these indexes.
    fn push_dense(&mut self, table: &[i32], arrays: &DenseArrays) -> Result<(), AllocError>
        requires users { list_all (is_index (length table.now)) arrays.now.users.items ≡ true }
        requires tags { list_all (is_index (length table.now)) (indexes_of (node_pairs (length arrays.now.ids.items) arrays.now.keys_vals.items)) ≡ true }
        ensures dictionary { OnOk result (texts_in self.new.dictionary ≡ texts_in self.old.dictionary) }
        ensures indexes { OnOk result ((b : Context) (ns : List NodeValue) (es : List Element) → AreNodesOf b arrays.now ns → NameAll (texts_in self.old.dictionary) table.now (map (λ t. Some t) b.table) → AreIndexes self.old es → AreIndexes self.new (es ++ map elements.Node ns)) }
    {
        let nodes = arrays.ids.len();
        push_dense_users(table, &arrays.users, nodes, &mut self.users)?;
        push_nodes(
            table,
            &arrays.keys_vals,
            nodes,
            &mut self.keys,
            &mut self.values,
        )?;
        Ok(())
    }

    /// Appends the texts of a group of a block whose table has these indexes.
    pub(crate) fn push_group(
        &mut self,
        table: &[i32],
        group: &GroupElements<'a>,
    ) -> Result<(), AllocError>
        requires { (b : Context) × (es : List Element) × GroupHolds b es group.now × (length table.now ≡ length b.table) }
        ensures extends { OnOk result (Extends (texts_in self.old.dictionary) (texts_in self.new.dictionary)) }
        ensures indexes { OnOk result ((b : Context) (es more : List Element) → GroupHolds b more group.now → NameAll (texts_in self.old.dictionary) table.now (map (λ t. Some t) b.table) → AreIndexes self.old es → AreIndexes self.new (es ++ more)) }
    {
        match group {
            GroupElements::Listed(elements) => self.push_listed(elements),
            GroupElements::Dense(arrays) => {
                self.push_dense(table, arrays)?;
                Ok(())
            }
        }
    }
}

/// The indexes of the texts of all elements. The texts of the block's table are the first of the dictionary.
pub(crate) fn text_indexes_of<'a>(
    alloc: Global,
    groups: &BlockGroups<'a>,
) -> Result<TextIndexes<'a>, AllocError>
    requires { (es : List Element) × GroupsHold groups.now es }
    ensures { IfOk result (λ t. (es : List Element) → GroupsHold groups.now es → AreIndexes t es) }
{
    let (mut indexes, table) = TextIndexes::with_table(alloc, &groups.scale.table)?;
    for group in &groups.groups {
        indexes.push_group(&table, group)?;
    }
    Ok(indexes)
}
