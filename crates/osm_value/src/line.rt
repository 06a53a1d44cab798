//! An element as a line of text:
//!
//! - `n ID LAT LON [INFO] {TAGS}`
//! - `w ID (REF,REF) [INFO] {TAGS}`
//! - `r ID (nID@ROLE,wID@ROLE) [INFO] {TAGS}`
//!
//! INFO is what is there of `v=` version, `t=` time, `c=` changeset, `i=` uid, `u=` user and `x=` whether it is visible,
//! 1 or 0. TAGS are `KEY=VALUE`.

ghost use Rattle.std.specs.Prelude.{◌≡◌, ℕ, ◌+◌, ◌<◌, ◌≤◌, List, length, map, option_map, option_to_list, option_copied, IsTrue, OnOk, OnErr, IsErr, ◌↔◌};
ghost use Rattle.std.specs.Io.KnownBytes.{Appends};
ghost use Rattle.std.specs.Fmt.{signed_decimal};
ghost use Rattle.osm_value.specs.declared.element.Element.TheVariants as elements;
ghost use Rattle.osm_value.specs.Sink.{AppendsFront, WritesEach};
ghost use Rattle.osm_value.specs.Printing.{AddsPiece, Prints};
ghost use Rattle.osm_value.specs.Line.{commas, comma_before, tag_text, line, tail_text, info_texts, number_info, user_info, visible_digit, visible_info, letter_of, member_text};

use crate::element::{Element, Info, Member, MemberKind, Node, Relation, Way};
use crate::fault::LineFault;
use crate::pieces::{put, put_escaped, put_number};
use crate::sink::Sink;

/// Writes the line of an element, with its line feed. Latitude and longitude are in nanodegrees, the time in
/// milliseconds since 1970. In texts, each byte that separates or isn't printed is `%` and two hexadecimal digits.
///
/// `WriteFailed` exactly where the sink fails or has failed before; then a front of the line went out, none of it where
/// the sink had failed before. No memory is taken.
pub fn write_line<S: Sink>(element: &Element, sink: &mut S) -> Result<(), LineFault>
    ensures line { OnOk result (Appends (S.written sink.old) (S.written sink.new) (line element.now)) }
    // What went out is a front of the line.
    ensures front { OnErr result (AppendsFront (S.written sink.old) (S.written sink.new) (line element.now)) }
    ensures failed { IsErr result ↔ IsTrue (S.has_failed sink.new) }
    ensures writes { Prints S.Sink sink.old sink.new (line element.now) }
{
    put_line(sink, element);
    if sink.failed() {
        return Err(LineFault::WriteFailed);
    }
    Ok(())
}

fn put_line<S: Sink>(sink: &mut S, element: &Element)
    ensures { Prints S.Sink sink.old sink.new (line element.now) }
{
    match element {
        Element::Node(node) => put_node(sink, node),
        Element::Way(way) => put_way(sink, way),
        Element::Relation(relation) => put_relation(sink, relation),
    }
}

fn put_node<S: Sink>(sink: &mut S, node: &Node)
    ensures { Prints S.Sink sink.old sink.new (line (elements.Node node.now)) }
{
    put(sink, b"n ");
    put_number(sink, node.id());
    put(sink, b" ");
    put_number(sink, node.lat());
    put(sink, b" ");
    put_number(sink, node.lon());
    put_tail(sink, node.info(), node.tags());
}

fn put_way<S: Sink>(sink: &mut S, way: &Way)
    ensures { Prints S.Sink sink.old sink.new (line (elements.Way way.now)) }
{
    put(sink, b"w ");
    put_number(sink, way.id());
    put(sink, b" (");
    put_joined(sink, way.refs(), put_ref);
    put(sink, b")");
    put_tail(sink, way.info(), way.tags());
}

fn put_relation<S: Sink>(sink: &mut S, relation: &Relation)
    ensures { Prints S.Sink sink.old sink.new (line (elements.Relation relation.now)) }
{
    put(sink, b"r ");
    put_number(sink, relation.id());
    put(sink, b" (");
    put_joined(sink, relation.members(), put_member);
    put(sink, b")");
    put_tail(sink, relation.info(), relation.tags());
}

/// Writes info and tags, and the line feed.
fn put_tail<S: Sink>(sink: &mut S, info: &Info, tags: &[(&str, &str)])
    ensures { Prints S.Sink sink.old sink.new (tail_text info.now (map (λ t. (t.0.now, t.1.now)) tags.now)) }
{
    put(sink, b" [");
    put_info(sink, info);
    put(sink, b"] {");
    put_joined(sink, tags, put_tag);
    put(sink, b"}\n");
}

/// Writes a comma, but before the first piece.
fn put_comma<S: Sink>(sink: &mut S, at: usize)
    ensures { Prints S.Sink sink.old sink.new (comma_before at) }
{
    if at == 0 {
        return;
    }
    put(sink, b",");
}

/// Writes the items, joined by commas.
fn put_joined<S: Sink, T, F: Fn(&mut S, &T)>(sink: &mut S, items: &[T], put_item: F)
    requires { F.IsAlwaysCallable put_item }
    ensures { (text : T → List ℕ) → WritesEach S.written S.has_failed F.Fn put_item text
        → Prints S.Sink sink.old sink.new (commas (map text items.now)) }
{
    for (at, item) in items.iter().enumerate() {
        put_comma(sink, at);
        put_item(sink, item);
    }
}

fn put_ref<S: Sink>(sink: &mut S, id: &i64)
    ensures { Prints S.Sink sink.old sink.new (signed_decimal id.now) }
{
    put_number(sink, *id);
}

fn put_member<S: Sink>(sink: &mut S, member: &Member)
    ensures { Prints S.Sink sink.old sink.new (member_text member.now) }
{
    put(sink, &[letter_of(member.kind())]);
    put_number(sink, member.id());
    put(sink, b"@");
    put_escaped(sink, member.role());
}

fn letter_of(kind: MemberKind) -> u8
    ensures { result ≡ letter_of kind }
{
    match kind {
        MemberKind::Node => b'n',
        MemberKind::Way => b'w',
        MemberKind::Relation => b'r',
    }
}

fn put_tag<S: Sink>(sink: &mut S, tag: &(&str, &str))
    ensures { Prints S.Sink sink.old sink.new (tag_text (tag.now.0.now, tag.now.1.now)) }
{
    put_escaped(sink, tag.0);
    put(sink, b"=");
    put_escaped(sink, tag.1);
}

/// Writes what is there of the info, joined by commas.
fn put_info<S: Sink>(sink: &mut S, info: &Info)
    ensures { Prints S.Sink sink.old sink.new (commas (info_texts info.now)) }
{
    let at = put_info_number(sink, 0, b'v', widened(info.version()));
    let at = put_info_number(sink, at, b't', info.time());
    let at = put_info_number(sink, at, b'c', info.changeset());
    let at = put_info_number(sink, at, b'i', widened(info.uid()));
    let at = put_info_user(sink, at, info.user());
    put_info_visible(sink, at, info.visible());
}

/// Writes a number of the info, if it is there, as the piece at that index, and says the next index.
fn put_info_number<S: Sink>(sink: &mut S, at: usize, letter: u8, number: Option<i64>) -> usize
    requires { at < 100 }
    ensures text { AddsPiece S.Sink sink.old sink.new at (option_map (number_info letter) number) }
    ensures place { result ≡ at + length (option_to_list (option_map (number_info letter) number)) }
    ensures next { result ≤ at + 1 }
{
    let Some(number) = number else {
        return at;
    };
    put_comma(sink, at);
    put(sink, &[letter, b'=']);
    put_number(sink, number);
    at + 1
}

/// Writes the user, if it is there, as the piece at that index, and says the next index.
fn put_info_user<S: Sink>(sink: &mut S, at: usize, user: Option<&str>) -> usize
    requires { at < 100 }
    ensures text { AddsPiece S.Sink sink.old sink.new at (option_map user_info (option_copied user.entry)) }
    ensures place { result ≡ at + length (option_to_list (option_map user_info (option_copied user.entry))) }
{
    let Some(user) = user else {
        return at;
    };
    put_comma(sink, at);
    put(sink, b"u=");
    put_escaped(sink, user);
    at + 1
}

/// Writes whether it is visible, if that is known, as the piece at that index.
fn put_info_visible<S: Sink>(sink: &mut S, at: usize, visible: Option<bool>)
    ensures { AddsPiece S.Sink sink.old sink.new at (option_map visible_info visible) }
{
    let Some(visible) = visible else {
        return;
    };
    put_comma(sink, at);
    put(sink, b"x=");
    put(sink, &[digit_of(visible)]);
}

fn digit_of(visible: bool) -> u8
    ensures { result ≡ visible_digit visible }
{
    if visible { b'1' } else { b'0' }
}

fn widened(number: Option<i32>) -> Option<i64>
    ensures { result ≡ number }
{
    match number {
        None => None,
        Some(number) => Some(i64::from(number)),
    }
}
