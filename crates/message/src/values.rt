// What stands at a place: a string, a number, the parts of an event.
ghost use Rattle.std.specs.Prelude.{◌≡◌};
ghost use Rattle.message.specs.Parts.{whole_value, event_at};
ghost use Rattle.message.specs.Inner.{leaf_at, span_at, number_leaf, span_found, number_found, bound_found};
ghost use Rattle.message.specs.Inner.{filter_found, body_found};

use crate::{Body, EventParts, FilterParts, Members, Span, object};
use json_tree::{Kind, Start};
use numeral::Whole;

// The part of what is not there.
const NOWHERE: Span = Span { start: 0, len: 0 };

// The value at a place, if it holds no value.
#[tactic(auto, unfolding(crate::specs::Inner::leaf_at))]
pub(crate) fn leaf(s: &[u8], at: usize) -> Option<Kind>
    ensures { result ≡ leaf_at s.now at }
{
    match json_tree::begin(s, at) {
        Start::Leaf => json_tree::scalar(s, at),
        Start::Empty(_, _) | Start::Many(_, _) => None,
    }
}

// The string at a place.
#[tactic(auto, using(crate::proofs::Scalars::leaf_quoted), unfolding(crate::specs::Inner::span_at))]
pub(crate) fn span_at(s: &[u8], v: usize) -> Span
    ensures { result ≡ span_at s.now v }
{
    if let Some(Kind::Str(n)) = leaf(s, v) {
        Span {
            start: v + 1,
            len: n - v - 2,
        }
    } else {
        NOWHERE
    }
}

pub(crate) fn value_of(w: Whole) -> i64
    ensures { result ≡ whole_value w }
{
    match w {
        Whole::Value(z) => z,
        Whole::Large | Whole::Malformed => 0,
    }
}

// The number at a place.
#[tactic(auto, unfolding(crate::specs::Inner::number_leaf))]
pub(crate) fn number_at(s: &[u8], v: usize) -> i64
    ensures { result ≡ number_leaf s.now v }
{
    if let Some(Kind::Num(n)) = leaf(s, v) {
        value_of(numeral::read_whole(wire::piece(s, v, n.saturating_sub(v))))
    } else {
        0
    }
}

pub(crate) fn span_in(s: &[u8], x: Option<usize>) -> Span
    ensures { result ≡ span_found s.now x }
{
    x.map_or(NOWHERE, |v| span_at(s, v))
}

pub(crate) fn number_in(s: &[u8], x: Option<usize>) -> i64
    ensures { result ≡ number_found s.now x }
{
    x.map_or(0, |v| number_at(s, v))
}

pub(crate) fn bound_in(s: &[u8], x: Option<usize>) -> Option<i64>
    ensures { result ≡ bound_found s.now x }
{
    x.map(|v| number_at(s, v))
}

// The fields of an event's text, where its members are found.
#[tactic(auto, unfolding(crate::specs::Inner::body_found))]
pub(crate) fn body_in(s: &[u8], m: Members) -> Body
    ensures { result ≡ body_found s.now m }
{
    Body {
        pubkey: span_in(s, m.second),
        created_at: number_in(s, m.third),
        kind: number_in(s, m.fourth),
        tags: m.fifth.unwrap_or(0),
        content: span_in(s, m.sixth),
    }
}

// The parts of the event whose object stands at a place.
pub(crate) fn event_at(s: &[u8], at: usize) -> EventParts
    ensures { result ≡ event_at s.now at }
{
    let m = object::find(s, at, true);
    EventParts {
        id: span_in(s, m.first),
        body: body_in(s, m),
        sig: span_in(s, m.seventh),
    }
}

// A filter by its members, and the place of its # conditions.
pub(crate) fn filter_of(s: &[u8], m: Members, conditions: Option<usize>) -> FilterParts
    ensures { result ≡ filter_found s.now m conditions }
{
    FilterParts {
        ids: m.first,
        authors: m.second,
        kinds: m.third,
        since: bound_in(s, m.fourth),
        until: bound_in(s, m.fifth),
        limit: bound_in(s, m.sixth),
        conditions,
    }
}
