//! What a column has of one element.

ghost use Rattle.std.specs.Prelude.{◌≡◌};
ghost use Rattle.osm_columns.specs.Values.{number_of_kind, kind_number, lat_of_element, lon_of_element, version_in, time_in, changeset_in, uid_in, flag_in};

use osm_value::{Element, Info, MemberKind};

pub(crate) fn number_of_kind(kind: MemberKind) -> u8
    ensures { result ≡ number_of_kind kind }
{
    match kind {
        MemberKind::Node => 0,
        MemberKind::Way => 1,
        MemberKind::Relation => 2,
    }
}

/// The number of an element's kind.
pub(crate) fn kind_of(element: &Element) -> u8
    ensures { result ≡ kind_number element.now }
{
    match element {
        Element::Node(_) => 0,
        Element::Way(_) => 1,
        Element::Relation(_) => 2,
    }
}

/// The latitude in nanodegrees, 0 where the element has no place.
pub(crate) fn lat_of(element: &Element) -> i64
    ensures { result ≡ lat_of_element element.now }
{
    match element {
        Element::Node(node) => node.lat(),
        Element::Way(_) | Element::Relation(_) => 0,
    }
}

/// The longitude in nanodegrees, 0 where the element has no place.
pub(crate) fn lon_of(element: &Element) -> i64
    ensures { result ≡ lon_of_element element.now }
{
    match element {
        Element::Node(node) => node.lon(),
        Element::Way(_) | Element::Relation(_) => 0,
    }
}

pub(crate) fn version_of(info: &Info) -> i32
    ensures { result ≡ version_in info.now }
{
    match info.version() {
        Some(version) => version,
        None => -1,
    }
}

pub(crate) fn time_of(info: &Info) -> i64
    ensures { result ≡ time_in info.now }
{
    match info.time() {
        Some(time) => time,
        None => i64::MIN,
    }
}

pub(crate) fn changeset_of(info: &Info) -> i64
    ensures { result ≡ changeset_in info.now }
{
    match info.changeset() {
        Some(changeset) => changeset,
        None => i64::MIN,
    }
}

pub(crate) fn uid_of(info: &Info) -> i32
    ensures { result ≡ uid_in info.now }
{
    match info.uid() {
        Some(uid) => uid,
        None => i32::MIN,
    }
}

pub(crate) fn flag_of(info: &Info) -> u8
    ensures { result ≡ flag_in info.now }
{
    match info.visible() {
        Some(true) => 1,
        Some(false) => 0,
        None => 2,
    }
}
