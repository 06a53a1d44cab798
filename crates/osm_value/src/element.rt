//! Nodes, ways and relations, with absolute numbers and texts.

ghost use Rattle.std.specs.Prelude.{◌≡◌, map};
ghost use Rattle.std.specs.Option.{option_copied};
ghost use Rattle.osm_value.specs.Value.{InfoValue, MemberValue, NodeValue, WayValue, RelationValue};
ghost use Rattle.osm_value.specs.Ranges.{IsInfo, IsMember, IsNode, IsWay, IsRelation};

use std::marker::Model;

/// The kind of an element that a relation has as a member, or that is asked for.
#[derive(Clone, Copy, Debug, PartialEq, Eq)]
pub enum MemberKind {
    Node,
    Way,
    Relation,
}

/// Who changed an element last, when, and for which time; what the input doesn't tell is None.
#[derive(Debug, Drop)]
pub struct Info<'a> {
    version: Option<i32>,
    time: Option<i64>,
    changeset: Option<i64>,
    uid: Option<i32>,
    user: Option<&'a str>,
    visible: Option<bool>,
}

impl<'a> Model for Info<'a> {
    ghost Value = { InfoValue };

    ghost view = { λ i. record { version = i.version; time = i.time; changeset = i.changeset; uid = i.uid; user = option_copied i.user; visible = i.visible } };

    ghost invariant = { λ i. IsInfo (record { version = i.version; time = i.time; changeset = i.changeset; uid = i.uid; user = option_copied i.user; visible = i.visible }) };
}

impl<'a> Info<'a> {
    /// An info of these parts: a version from 0 to 2,147,483,647, a time in milliseconds since 1970 and a changeset,
    /// both at most 2^62 - 1 away from 0, a user id from -1 to 2,147,483,646, a user's name without U+0000, and whether
    /// the element is visible. No memory is taken.
    pub fn new(
        version: Option<i32>,
        time: Option<i64>,
        changeset: Option<i64>,
        uid: Option<i32>,
        user: Option<&'a str>,
        visible: Option<bool>,
    ) -> Self
        requires in_range { IsInfo (record { version = version; time = time; changeset = changeset; uid = uid; user = option_copied user; visible = visible }) }
        ensures { result ≡ record { version = version; time = time; changeset = changeset; uid = uid; user = option_copied user.entry; visible = visible } }
    {
        Info {
            version,
            time,
            changeset,
            uid,
            user,
            visible,
        }
    }

    /// The version, 0 to 2,147,483,647.
    pub fn version(&self) -> Option<i32>
        ensures exact { result ≡ self.now.version }
        ensures in_range { IsInfo self.now }
    {
        self.version
    }

    /// When it was changed, in milliseconds since 1970, at most 2^62 - 1 away from 0.
    pub fn time(&self) -> Option<i64>
        ensures exact { result ≡ self.now.time }
        ensures in_range { IsInfo self.now }
    {
        self.time
    }

    /// The changeset's number, at most 2^62 - 1 away from 0.
    pub fn changeset(&self) -> Option<i64>
        ensures exact { result ≡ self.now.changeset }
        ensures in_range { IsInfo self.now }
    {
        self.changeset
    }

    /// The user id, -1 to 2,147,483,646.
    pub fn uid(&self) -> Option<i32>
        ensures exact { result ≡ self.now.uid }
        ensures in_range { IsInfo self.now }
    {
        self.uid
    }

    /// The user's name, without U+0000.
    pub fn user(&self) -> Option<&'a str>
        ensures exact { option_copied result ≡ self.now.user }
        ensures in_range { IsInfo self.now }
    {
        self.user
    }

    /// Whether the element is visible, or was deleted with this version; None where the input doesn't say.
    pub fn visible(&self) -> Option<bool>
        ensures exact { result ≡ self.now.visible }
        ensures in_range { IsInfo self.now }
    {
        self.visible
    }
}

/// A member of a relation: an element by its kind and id, and its role.
#[derive(Debug, Drop)]
pub struct Member<'a> {
    kind: MemberKind,
    id: i64,
    role: &'a str,
}

impl<'a> Model for Member<'a> {
    ghost Value = { MemberValue };

    ghost view = { λ m. record { kind = m.kind; id = m.id; role = m.role.now } };

    ghost invariant = { λ m. IsMember (record { kind = m.kind; id = m.id; role = m.role.now }) };
}

impl<'a> Member<'a> {
    /// A member with an id at most 2^62 - 1 away from 0 and a role without U+0000.
    pub fn new(kind: MemberKind, id: i64, role: &'a str) -> Self
        requires in_range { IsMember (record { kind = kind; id = id; role = role.now }) }
        ensures { result ≡ record { kind = kind; id = id; role = role.now } }
    {
        Member { kind, id, role }
    }

    /// The kind of the element that is the member.
    pub fn kind(&self) -> MemberKind
        ensures exact { result ≡ self.now.kind }
        ensures in_range { IsMember self.now }
    {
        self.kind
    }

    /// The id, at most 2^62 - 1 away from 0.
    pub fn id(&self) -> i64
        ensures exact { result ≡ self.now.id }
        ensures in_range { IsMember self.now }
    {
        self.id
    }

    /// What the member is for in its relation, without U+0000; often empty.
    pub fn role(&self) -> &'a str
        ensures exact { result.now ≡ self.now.role }
        ensures in_range { IsMember self.now }
    {
        self.role
    }
}

/// A point.
#[derive(Debug, Drop)]
pub struct Node<'a> {
    id: i64,
    lat: i64,
    lon: i64,
    tags: Vec<(&'a str, &'a str)>,
    info: Info<'a>,
}

impl<'a> Model for Node<'a> {
    ghost Value = { NodeValue };

    ghost view = { λ n. record { id = n.id; lat = n.lat; lon = n.lon; tags = map (λ t. (t.0.now, t.1.now)) n.tags.items; info = n.info } };

    ghost invariant = { λ n. IsNode (record { id = n.id; lat = n.lat; lon = n.lon; tags = map (λ t. (t.0.now, t.1.now)) n.tags.items; info = n.info }) };
}

impl<'a> Node<'a> {
    /// A node at coordinates in nanodegrees. All numbers are at most 2^62 - 1 away from 0, so that it needn't lie on
    /// the globe, and no text holds U+0000. No memory is taken.
    pub fn new(id: i64, lat: i64, lon: i64, tags: Vec<(&'a str, &'a str)>, info: Info<'a>) -> Self
        requires in_range { IsNode (record { id = id; lat = lat; lon = lon; tags = map (λ t. (t.0.now, t.1.now)) tags.items; info = info }) }
        ensures { result ≡ record { id = id; lat = lat; lon = lon; tags = map (λ t. (t.0.now, t.1.now)) tags.entry.items; info = info.entry } }
    {
        Node {
            id,
            lat,
            lon,
            tags,
            info,
        }
    }

    /// The id, at most 2^62 - 1 away from 0.
    pub fn id(&self) -> i64
        ensures exact { result ≡ self.now.id }
        ensures in_range { IsNode self.now }
    {
        self.id
    }

    /// The latitude in nanodegrees, at most 2^62 - 1 away from 0.
    pub fn lat(&self) -> i64
        ensures exact { result ≡ self.now.lat }
        ensures in_range { IsNode self.now }
    {
        self.lat
    }

    /// The longitude in nanodegrees, at most 2^62 - 1 away from 0.
    pub fn lon(&self) -> i64
        ensures exact { result ≡ self.now.lon }
        ensures in_range { IsNode self.now }
    {
        self.lon
    }

    /// Its tags, keys with values, in the order of the input.
    pub fn tags(&self) -> &[(&'a str, &'a str)]
        ensures exact { map (λ t. (t.0.now, t.1.now)) result.now ≡ self.now.tags }
        ensures in_range { IsNode self.now }
    {
        &self.tags
    }

    /// What is known of its last change.
    pub fn info(&self) -> &Info<'a>
        ensures exact { result.now ≡ self.now.info }
        ensures in_range { IsNode self.now }
    {
        &self.info
    }
}

/// A row of nodes.
#[derive(Debug, Drop)]
pub struct Way<'a> {
    id: i64,
    refs: Vec<i64>,
    tags: Vec<(&'a str, &'a str)>,
    info: Info<'a>,
}

impl<'a> Model for Way<'a> {
    ghost Value = { WayValue };

    ghost view = { λ w. record { id = w.id; refs = w.refs.items; tags = map (λ t. (t.0.now, t.1.now)) w.tags.items; info = w.info } };

    ghost invariant = { λ w. IsWay (record { id = w.id; refs = w.refs.items; tags = map (λ t. (t.0.now, t.1.now)) w.tags.items; info = w.info }) };
}

impl<'a> Way<'a> {
    /// A way through the nodes of these ids, none or more. All numbers are at most 2^62 - 1 away from 0, and no text
    /// holds U+0000. No memory is taken.
    pub fn new(id: i64, refs: Vec<i64>, tags: Vec<(&'a str, &'a str)>, info: Info<'a>) -> Self
        requires in_range { IsWay (record { id = id; refs = refs.items; tags = map (λ t. (t.0.now, t.1.now)) tags.items; info = info }) }
        ensures { result ≡ record { id = id; refs = refs.items; tags = map (λ t. (t.0.now, t.1.now)) tags.entry.items; info = info.entry } }
    {
        Way {
            id,
            refs,
            tags,
            info,
        }
    }

    /// The id, at most 2^62 - 1 away from 0.
    pub fn id(&self) -> i64
        ensures exact { result ≡ self.now.id }
        ensures in_range { IsWay self.now }
    {
        self.id
    }

    /// The ids of its nodes, in order. Each is at most 2^62 - 1 away from 0.
    pub fn refs(&self) -> &[i64]
        ensures exact { result.now ≡ self.now.refs }
        ensures in_range { IsWay self.now }
    {
        &self.refs
    }

    /// Its tags, keys with values, in the order of the input.
    pub fn tags(&self) -> &[(&'a str, &'a str)]
        ensures exact { map (λ t. (t.0.now, t.1.now)) result.now ≡ self.now.tags }
        ensures in_range { IsWay self.now }
    {
        &self.tags
    }

    /// What is known of its last change.
    pub fn info(&self) -> &Info<'a>
        ensures exact { result.now ≡ self.now.info }
        ensures in_range { IsWay self.now }
    {
        &self.info
    }
}

/// A group of members.
#[derive(Debug, Drop)]
pub struct Relation<'a> {
    id: i64,
    members: Vec<Member<'a>>,
    tags: Vec<(&'a str, &'a str)>,
    info: Info<'a>,
}

impl<'a> Model for Relation<'a> {
    ghost Value = { RelationValue };

    ghost view = { λ r. record { id = r.id; members = r.members.items; tags = map (λ t. (t.0.now, t.1.now)) r.tags.items; info = r.info } };

    ghost invariant = { λ r. IsRelation (record { id = r.id; members = r.members.items; tags = map (λ t. (t.0.now, t.1.now)) r.tags.items; info = r.info }) };
}

impl<'a> Relation<'a> {
    /// A relation of these members, none or more. Its id is at most 2^62 - 1 away from 0, and no text holds U+0000. No
    /// memory is taken.
    pub fn new(
        id: i64,
        members: Vec<Member<'a>>,
        tags: Vec<(&'a str, &'a str)>,
        info: Info<'a>,
    ) -> Self
        requires in_range { IsRelation (record { id = id; members = members.items; tags = map (λ t. (t.0.now, t.1.now)) tags.items; info = info }) }
        ensures { result ≡ record { id = id; members = members.entry.items; tags = map (λ t. (t.0.now, t.1.now)) tags.entry.items; info = info.entry } }
    {
        Relation {
            id,
            members,
            tags,
            info,
        }
    }

    /// The id, at most 2^62 - 1 away from 0.
    pub fn id(&self) -> i64
        ensures exact { result ≡ self.now.id }
        ensures in_range { IsRelation self.now }
    {
        self.id
    }

    /// Its members, in order.
    pub fn members(&self) -> &[Member<'a>]
        ensures exact { result.now ≡ self.now.members }
        ensures in_range { IsRelation self.now }
    {
        &self.members
    }

    /// Its tags, keys with values, in the order of the input.
    pub fn tags(&self) -> &[(&'a str, &'a str)]
        ensures exact { map (λ t. (t.0.now, t.1.now)) result.now ≡ self.now.tags }
        ensures in_range { IsRelation self.now }
    {
        &self.tags
    }

    /// What is known of its last change.
    pub fn info(&self) -> &Info<'a>
        ensures exact { result.now ≡ self.now.info }
        ensures in_range { IsRelation self.now }
    {
        &self.info
    }
}

/// An element of any kind.
#[derive(Debug, Drop)]
pub enum Element<'a> {
    Node(Node<'a>),
    Way(Way<'a>),
    Relation(Relation<'a>),
}

impl<'a> Element<'a> {
    ghost use Rattle.osm_value.specs.Elements.{IsElement, kind_of_element, id_of_element, tags_of_element, info_of_element};

    /// Whether it is a node, a way or a relation.
    pub fn kind(&self) -> MemberKind
        ensures { result ≡ kind_of_element self.now }
    {
        match self {
            Element::Node(_) => MemberKind::Node,
            Element::Way(_) => MemberKind::Way,
            Element::Relation(_) => MemberKind::Relation,
        }
    }

    /// The id, at most 2^62 - 1 away from 0.
    pub fn id(&self) -> i64
        ensures exact { result ≡ id_of_element self.now }
        ensures in_range { IsElement self.now }
    {
        match self {
            Element::Node(node) => node.id(),
            Element::Way(way) => way.id(),
            Element::Relation(relation) => relation.id(),
        }
    }

    /// Its tags, keys with values, in the order of the input.
    pub fn tags(&self) -> &[(&'a str, &'a str)]
        ensures exact { map (λ t. (t.0.now, t.1.now)) result.now ≡ tags_of_element self.now }
        ensures in_range { IsElement self.now }
    {
        match self {
            Element::Node(node) => node.tags(),
            Element::Way(way) => way.tags(),
            Element::Relation(relation) => relation.tags(),
        }
    }

    /// What is known of its last change.
    pub fn info(&self) -> &Info<'a>
        ensures exact { result.now ≡ info_of_element self.now }
        ensures in_range { IsElement self.now }
    {
        match self {
            Element::Node(node) => node.info(),
            Element::Way(way) => way.info(),
            Element::Relation(relation) => relation.info(),
        }
    }
}
