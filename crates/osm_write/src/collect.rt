//! What a block says for all its elements, gathered from them.

ghost use Rattle.std.specs.Prelude.{◌≡◌, ◌%◌, ◌==◌, OnOk, IfOk, map, option_to_list, unsigned_abs};
ghost use Rattle.std.specs.List.{flat_map, list_all, AllByRecursion};
ghost use Rattle.osm_value.specs.Elements.{IsElement, info_of_element};
ghost use Rattle.osm_write.specs.Texts.{with_texts};
ghost use Rattle.osm_write.specs.Scale.{view};
ghost use Rattle.osm_write.specs.Canon.{tag_texts, texts_of, coordinates_of, scale_of};

use crate::scale::Scale;
use crate::texts::TextTable;
use osm_value::{Element, Info, Member};
use std::alloc::{AllocError, Global};

fn add_tags<'a>(table: &mut TextTable<'a>, tags: &[(&'a str, &'a str)]) -> Result<(), AllocError>
    ensures { OnOk result (table.new ≡ with_texts table.old (tag_texts (map (λ t. (t.0.now, t.1.now)) tags.now))) }
{
    for tag in tags {
        table.add(tag.0)?;
        table.add(tag.1)?;
    }
    Ok(())
}

fn add_user<'a>(table: &mut TextTable<'a>, info: &Info<'a>) -> Result<(), AllocError>
    ensures { OnOk result (table.new ≡ with_texts table.old (option_to_list info.now.user)) }
{
    match info.user() {
        Some(user) => table.add(user),
        None => Ok(()),
    }
}

fn add_roles<'a>(table: &mut TextTable<'a>, members: &[Member<'a>]) -> Result<(), AllocError>
    ensures { OnOk result (table.new ≡ with_texts table.old (map (λ m. m.role) members.now)) }
{
    for member in members {
        table.add(member.role())?;
    }
    Ok(())
}

#[tactic(auto, using(crate::proofs::FirstUses::with_texts_append))]
fn add_element<'a>(table: &mut TextTable<'a>, element: &Element<'a>) -> Result<(), AllocError>
    ensures exact { OnOk result (table.new ≡ with_texts table.old (texts_of element.now)) }
    ensures in_range { OnOk result (IsElement element.now) }
{
    add_tags(table, element.tags())?;
    add_user(table, element.info())?;
    match element {
        Element::Relation(relation) => add_roles(table, relation.members()),
        _ => Ok(()),
    }
}

#[tactic(auto, using(crate::proofs::FirstUses::with_texts_append))]
fn add_elements<'a>(table: &mut TextTable<'a>, elements: &[Element<'a>]) -> Result<(), AllocError>
    ensures exact { OnOk result (table.new ≡ with_texts table.old (flat_map texts_of elements.now)) }
    ensures in_range { OnOk result (AllByRecursion IsElement elements.now) }
{
    for element in elements {
        add_element(table, element)?;
    }
    Ok(())
}

fn coordinate_is_whole(element: &Element) -> bool
    ensures { result ≡ list_all (λ z. unsigned_abs z % 100 == 0) (coordinates_of element.now) }
{
    match element {
        Element::Node(node) => {
            let lat = node.lat().unsigned_abs() % 100 == 0;
            let lon = node.lon().unsigned_abs() % 100 == 0;
            lat & lon
        }
        _ => true,
    }
}

fn time_is_whole(element: &Element) -> bool
    ensures { result ≡ list_all (λ z. unsigned_abs z % 1000 == 0) (option_to_list (info_of_element element.now).time) }
{
    match element.info().time() {
        Some(time) => time.unsigned_abs() % 1000 == 0,
        None => true,
    }
}

fn coordinates_are_whole(elements: &[Element]) -> bool
    ensures { result ≡ list_all (λ z. unsigned_abs z % 100 == 0) (flat_map coordinates_of elements.now) }
{
    for element in elements {
        if !coordinate_is_whole(element) {
            return false;
        }
    }
    true
}

fn times_are_whole(elements: &[Element]) -> bool
    ensures { result ≡ list_all (λ z. unsigned_abs z % 1000 == 0) (flat_map (λ e. option_to_list (info_of_element e).time) elements.now) }
{
    for element in elements {
        if !time_is_whole(element) {
            return false;
        }
    }
    true
}

#[tactic(auto, using(crate::proofs::FirstUses::table_is), unfolding(crate::specs::Canon::scale_of))]
pub(crate) fn scale_of<'a>(alloc: Global, elements: &[Element<'a>]) -> Result<Scale<'a>, AllocError>
    ensures exact { IfOk result (λ s. view s ≡ scale_of elements.now) }
    ensures in_range { OnOk result (AllByRecursion IsElement elements.now) }
{
    let mut texts = TextTable::new(alloc);
    add_elements(&mut texts, elements)?;
    Ok(Scale {
        texts,
        hundreds: coordinates_are_whole(elements),
        thousands: times_are_whole(elements),
    })
}
