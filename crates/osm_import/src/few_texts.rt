//! Whether elements use few enough texts for a store to take them.

ghost use Rattle.std.specs.Prelude.{◌≡◌, ◌<◌, ◌-◌, ◌^◌, ◌↔◌, IsTrue, OnOk, IfOk, map, length, option_to_list};
ghost use Rattle.osm_write.specs.Canon.{first_uses, tag_texts, texts_of};
ghost use Rattle.osm_rows.specs.Held.{HasFewTexts, HaveFewTexts};
ghost use Rattle.osm_import.specs.SeenTexts.{AddsTexts};

use osm_value::{Element, Info, Member};
use std::alloc::{AllocError, Global};
use std::collections::HashSet;

/// An element of a store uses fewer different texts, so that the numbers of a block of it alone can name each.
const TEXT_LIMIT: usize = (1 << 31) - 1;

/// Whether an element uses fewer texts than that, however often it uses each.
fn has_few_uses(element: &Element) -> bool
    ensures { IsTrue result → length (texts_of element.now) < 2 ^ 31 - 1 }
{
    let few_tags = element.tags().len() < 1 << 29;
    match element {
        Element::Relation(relation) => few_tags && relation.members().len() < 1 << 30,
        _ => few_tags,
    }
}

fn add_tags<'a>(seen: &mut HashSet<&'a str>, tags: &[(&'a str, &'a str)]) -> Result<(), AllocError>
    ensures { OnOk result (AddsTexts seen.old seen.new (tag_texts (map (λ t. (t.0.now, t.1.now)) tags.now))) }
{
    for tag in tags {
        seen.insert(tag.0)?;
        seen.insert(tag.1)?;
    }
    Ok(())
}

fn add_user<'a>(seen: &mut HashSet<&'a str>, info: &Info<'a>) -> Result<(), AllocError>
    ensures { OnOk result (AddsTexts seen.old seen.new (option_to_list info.now.user)) }
{
    if let Some(user) = info.user() {
        seen.insert(user)?;
    }
    Ok(())
}

fn add_roles<'a>(seen: &mut HashSet<&'a str>, members: &[Member<'a>]) -> Result<(), AllocError>
    ensures { OnOk result (AddsTexts seen.old seen.new (map (λ m. m.role) members.now)) }
{
    for member in members {
        seen.insert(member.role())?;
    }
    Ok(())
}

fn add_texts<'a>(seen: &mut HashSet<&'a str>, element: &Element<'a>) -> Result<(), AllocError>
    ensures { OnOk result (AddsTexts seen.old seen.new (texts_of element.now)) }
{
    add_tags(seen, element.tags())?;
    add_user(seen, element.info())?;
    match element {
        Element::Relation(relation) => add_roles(seen, relation.members()),
        _ => Ok(()),
    }
}

/// How many different texts an element uses.
fn count_texts(alloc: Global, element: &Element) -> Result<usize, AllocError>
    ensures { IfOk result (λ count. count ≡ length (first_uses (texts_of element.now))) }
{
    let mut seen = HashSet::new(alloc);
    add_texts(&mut seen, element)?;
    Ok(seen.len())
}

fn has_few(alloc: Global, element: &Element) -> Result<bool, AllocError>
    ensures { IfOk result (λ few. IsTrue few ↔ HasFewTexts element.now) }
{
    // no element of a file has so many that they have to be told apart
    if has_few_uses(element) {
        return Ok(true);
    }
    Ok(count_texts(alloc, element)? < TEXT_LIMIT)
}

/// Whether each element uses fewer than 2^31 - 1 different texts, as each does that a store was given. Memory is taken only
/// where one has 2^29 tags or 2^30 members.
pub(crate) fn have_few_texts(alloc: Global, elements: &[Element]) -> Result<bool, AllocError>
    ensures { IfOk result (λ few. IsTrue few ↔ HaveFewTexts elements.now) }
{
    for element in elements {
        if !has_few(alloc, element)? {
            return Ok(false);
        }
    }
    Ok(true)
}
