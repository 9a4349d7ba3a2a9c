// A message by its first word: its parts, its filters one after the other, what the reply to a refusal names.
ghost use Rattle.std.specs.Prelude.{◌≡◌, cond, ltb, length};
ghost use Rattle.message.specs.declared.Element.TheVariants.{At};
ghost use Rattle.message.specs.Parts.{no_filter};
ghost use Rattle.message.specs.Lists.{elements_from};
ghost use Rattle.message.specs.Read.{id_named, is_early};
ghost use Rattle.message.specs.Inner.{opening_at, element_place, word_place, string_after, is_event_at, parts_at};
ghost use Rattle.message.specs.Inner.{following_of, filter_after, label_named, named_at};

use crate::{Element, FilterParts, Message, Named, Opening, ReqParts, Span, lent, values};
use shape::Refusal;

// A filter that has nothing.
const NO_FILTER: FilterParts = FilterParts {
    ids: None,
    authors: None,
    kinds: None,
    since: None,
    until: None,
    limit: None,
    conditions: None,
};

#[tactic(auto, unfolding(crate::specs::Inner::opening_at, shape::specs::Shape::word_of, shape::specs::Shape::name_at))]
pub(crate) fn opening_at(s: &[u8], at: usize) -> Opening
    ensures { result ≡ opening_at s.now at }
{
    let w = rows::spelled(s, at);
    if spell::spells(w, b"EVENT") {
        Opening::Event
    } else if spell::spells(w, b"REQ") {
        Opening::Req
    } else if spell::spells(w, b"CLOSE") {
        Opening::Close
    } else {
        Opening::Other
    }
}

pub(crate) fn element_place(x: Element) -> usize
    ensures { result ≡ element_place x }
{
    match x {
        Element::At(v) => v,
        Element::Ended | Element::Broken => 0,
    }
}

// The place of a message's first element.
#[tactic(auto, unfolding(crate::specs::Inner::word_place))]
pub(crate) fn word_place(s: &[u8]) -> usize
    ensures { result ≡ word_place s.now }
{
    element_place(crate::first(s, json_tree::space(s, 0)))
}

// The place of the element after the one at a place.
#[tactic(auto, unfolding(crate::specs::Inner::string_after))]
pub(crate) fn second(s: &[u8], at: usize) -> usize
    ensures { result ≡ string_after s.now at }
{
    element_place(crate::next(s, at))
}

// The parts of a message, by its first word; its second element stands at j.
#[tactic(auto, unfolding(crate::specs::Inner::parts_at))]
pub(crate) fn parts(s: &[u8], x: Opening, j: usize) -> Result<Message, Refusal>
    ensures { result ≡ parts_at s.now x j }
{
    match x {
        Opening::Event => Ok(Message::Event(values::event_at(s, j))),
        Opening::Req => Ok(Message::Req(ReqParts {
            subscription: values::span_at(s, j),
            filters: second(s, j),
        })),
        Opening::Close => Ok(Message::Close(values::span_at(s, j))),
        Opening::Other => Err(Refusal {
            row: 5,
            offset: None,
        }),
    }
}

// How many elements stand from a place on.
pub(crate) fn count_from(s: &[u8], at: usize) -> usize
    ensures { result ≡ length (elements_from s.now (At at)) }
{
    let mut x = Element::At(at);
    for k in 0..s.len() {
        let Element::At(v) = x else {
            return k;
        };
        x = crate::next(s, v);
    }
    s.len()
}

// The element after another.
pub(crate) fn following(s: &[u8], x: Element) -> Element
    ensures { result ≡ following_of s.now x }
{
    match x {
        Element::At(v) => crate::next(s, v),
        Element::Ended | Element::Broken => x,
    }
}

// The filter that is element k of n.
pub(crate) fn filter_in(s: &[u8], k: usize, n: usize, x: Element) -> FilterParts
    ensures { result ≡ cond (ltb k n) (filter_after s.now x) no_filter }
{
    match x {
        Element::At(v) if k < n => crate::filter_at(s, v),
        _ => NO_FILTER,
    }
}

// Whether an element is the string EVENT.
#[tactic(auto, unfolding(crate::specs::Inner::is_event_at))]
pub(crate) fn is_event_at(s: &[u8], x: Element) -> bool
    ensures { result ≡ is_event_at s.now x }
{
    match x {
        Element::At(v) => {
            let p = values::span_at(s, v);
            spell::spells(wire::piece(s, p.start, p.len), b"EVENT")
        }
        Element::Ended | Element::Broken => false,
    }
}

pub(crate) fn early(row: u8) -> bool
    ensures { result ≡ is_early row }
{
    matches!(row, 1..=5)
}

pub(crate) fn id_named(s: &[u8], p: Span) -> Named
    ensures { result ≡ id_named s.now p }
{
    if spell::is_hex(wire::piece(s, p.start, p.len), wire::HEX_LENGTH) {
        Named::Id(p)
    } else {
        Named::Nothing
    }
}

#[tactic(auto, unfolding(crate::specs::Inner::label_named))]
pub(crate) fn label_named(s: &[u8], p: Span) -> Named
    ensures { result ≡ label_named s.now p }
{
    if lent::miscounted(s, p) {
        Named::Nothing
    } else {
        Named::Subscription(p)
    }
}

#[tactic(auto, unfolding(crate::specs::Inner::named_at))]
pub(crate) fn named_in(s: &[u8], x: Opening, j: usize) -> Named
    ensures { result ≡ named_at s.now x j }
{
    match x {
        Opening::Event => id_named(s, values::event_at(s, j).id),
        Opening::Req => label_named(s, values::span_at(s, j)),
        Opening::Close | Opening::Other => Named::Nothing,
    }
}
