// A client message read: its parts as places in the text, or the number of the row that refuses it. Parts of an event
// and of a filter as values that other calls take, whoever made them.
#![tactic(auto)]

ghost use Rattle.std.specs.Prelude.{◌≡◌};
ghost use Rattle.json_tree.specs.Grammar.{start_at};
ghost use Rattle.shape.specs.Rows.{message_row};
ghost use Rattle.message.specs.Parts.{filter_at, filters_at};
ghost use Rattle.message.specs.Lists.{start_element, next_of};
ghost use Rattle.message.specs.Read.{read_of, read_number, is_event, naming_of};
ghost use Rattle.message.specs.Lent.{string_row, hex_row, subscription_row, body_row, event_row, filter_row};
ghost use Rattle.wire.specs.Lowest.{lower_row};

mod lent;
mod object;
mod values;
mod words;

use json_tree::{Next, Start};
use shape::{Refusal, Sort};

// The brackets and braces that may be open at once within an item of what stands at a place.
const WITHIN: usize = json_tree::DEPTH - 1;

// A part of a buffer: a string as spelled between its quotes.
#[derive(Clone, Copy)]
pub struct Span {
    pub start: usize,
    pub len: usize,
}

// The fields of an event that its text has. `tags` is the place of the array in the buffer: the list stands beside the
// struct, in the text.
#[derive(Clone, Copy)]
pub struct Body {
    pub pubkey: Span,
    pub created_at: i64,
    pub kind: i64,
    pub tags: usize,
    pub content: Span,
}

#[derive(Clone, Copy)]
pub struct EventParts {
    pub id: Span,
    pub body: Body,
    pub sig: Span,
}

// A step of a walk over an array: the place of an element, the array's end, or no array that goes on so. Three ways that
// specs/Lists tells apart, and no error: a walk that is broken off ends there.
#[derive(Clone, Copy)]
pub enum Element {
    At(usize),
    Ended,
    Broken,
}

// `conditions` is the place of the object whose # members are the conditions.
#[derive(Clone, Copy)]
pub struct FilterParts {
    pub ids: Option<usize>,
    pub authors: Option<usize>,
    pub kinds: Option<usize>,
    pub since: Option<i64>,
    pub until: Option<i64>,
    pub limit: Option<i64>,
    pub conditions: Option<usize>,
}

// The filters of a REQ: how many there are, and the first four; behind them stand filters that have nothing.
#[derive(Clone, Copy)]
pub struct Filters {
    pub parts: [FilterParts; 4],
    pub n: usize,
}

// `filters` is the place of the first filter; the others follow it in the text.
#[derive(Clone, Copy)]
pub struct ReqParts {
    pub subscription: Span,
    pub filters: usize,
}

#[derive(Clone, Copy)]
pub enum Message {
    Event(EventParts),
    Req(ReqParts),
    Close(Span),
}

// What the reply to a refused message names. An enum of three and no Option of two: each is a reply of its own.
#[derive(Clone, Copy)]
pub enum Named {
    Id(Span),
    Subscription(Span),
    Nothing,
}

// What refuses a message, row 0 where none does, and what the reply to it names.
#[derive(Clone, Copy)]
pub struct Naming {
    pub refusal: Refusal,
    pub named: Named,
}

// The places of an object's members, the first of each name, in the order in which 01 lists them under Shape: id,
// pubkey, created_at, kind, tags, content, sig of an event; ids, authors, kinds, since, until, limit of a filter.
#[derive(Clone, Copy)]
struct Members {
    first: Option<usize>,
    second: Option<usize>,
    third: Option<usize>,
    fourth: Option<usize>,
    fifth: Option<usize>,
    sixth: Option<usize>,
    seventh: Option<usize>,
}

// The first word of a message.
#[derive(Clone, Copy)]
enum Opening {
    Event,
    Req,
    Close,
    Other,
}

// The parts of the filter whose object stands at a place.
pub fn filter_at(s: &[u8], at: usize) -> FilterParts
    ensures { result ≡ filter_at s.now at }
{
    values::filter_of(s, object::find(s, at, false), Some(at))
}

// The first element of the array at a place. Ended: it has none. Broken: no array begins there.
pub fn first(s: &[u8], at: usize) -> Element
    ensures { result ≡ start_element (start_at s.now at) }
{
    match json_tree::begin(s, at) {
        Start::Empty(_, false) => Element::Ended,
        Start::Many(i, false) => Element::At(i),
        Start::Leaf | Start::Empty(_, true) | Start::Many(_, true) => Element::Broken,
    }
}

// The element after the one at a place. Ended: the closing bracket follows it. Broken: no value stands there, or
// neither a comma nor the bracket follows.
#[tactic(auto, unfolding(crate::specs::Lists::next_of))]
pub fn next(s: &[u8], at: usize) -> Element
    ensures { result ≡ next_of s.now at }
{
    let Some(n) = json_tree::value(s, at, WITHIN) else {
        return Element::Broken;
    };
    match json_tree::after(s, n, false) {
        Next::More(j) => Element::At(j),
        Next::Done(_) => Element::Ended,
        Next::Wrong => Element::Broken,
    }
}

// A message read: its parts, or the lowest of rows 1 to 8 that holds of it, with the offset of rows 6 and 7.
pub fn read(s: &[u8]) -> Result<Message, Refusal>
    ensures value { result ≡ read_of s.now }
    ensures result_value { read_number result ≡ message_row s.now }
{
    let refusal = shape::message_refusal(s);
    if refusal.row != 0 {
        return Err(refusal);
    }
    let i = words::word_place(s);
    words::parts(s, words::opening_at(s, i), words::second(s, i))
}

// The filters of a REQ, of which the first stands at a place.
pub fn filters_at(s: &[u8], at: usize) -> Filters
    ensures { result ≡ filters_at s.now at }
{
    let n = words::count_from(s, at);
    let x = next(s, at);
    let y = words::following(s, x);
    let z = words::following(s, y);
    let parts = [
        words::filter_in(s, 0, n, Element::At(at)),
        words::filter_in(s, 1, n, x),
        words::filter_in(s, 2, n, y),
        words::filter_in(s, 3, n, z),
    ];
    Filters { parts, n }
}

// Whether the first word of a message is EVENT, whatever else is wrong with it.
pub fn is_event(s: &[u8]) -> bool
    ensures { result ≡ is_event s.now }
{
    let at = json_tree::space(s, 0);
    json_tree::value(s, at, json_tree::DEPTH).is_some() && words::is_event_at(s, first(s, at))
}

// What refuses a message, with the offset of rows 6 and 7, and what the reply to a message that rows 6 to 12 refuse
// names: the event's id if it is 64 lower-case hex, the subscription id of a REQ if it is within bounds.
pub fn names(s: &[u8]) -> Naming
    ensures value { result ≡ naming_of s.now }
    ensures row_value { result.refusal.row ≡ message_row s.now }
{
    let refusal = shape::message_refusal(s);
    if words::early(refusal.row) {
        return Naming {
            refusal,
            named: Named::Nothing,
        };
    }
    let i = words::word_place(s);
    let named = words::named_in(s, words::opening_at(s, i), words::second(s, i));
    Naming { refusal, named }
}

// The lowest of rows 2, 4 and 5 that holds of a string part, lent in b; 0 where none does.
pub fn string_row(b: &[u8], p: Span) -> u8
    ensures { result ≡ string_row b.now p }
{
    lent::told(lent::string_rank(b, p))
}

// The lowest of rows 2, 4, 5 and 7 that holds of a string part, lent in b, that must be k characters of lower-case hex;
// 0 where none does.
pub fn hex_row(b: &[u8], p: Span, k: usize) -> u8
    ensures { result ≡ hex_row k b.now p }
{
    lent::told(lent::hex_rank(b, p, k))
}

// The lowest of rows 2, 4, 5 and 8 that holds of a string part, lent in b, that must be a subscription id; 0 where none
// does.
pub fn subscription_row(b: &[u8], p: Span) -> u8
    ensures { result ≡ subscription_row b.now p }
{
    lent::told(lent::subscription_rank(b, p))
}

// The lower of two rows, where 0 is none.
pub fn lower_row(r: u8, s: u8) -> u8
    ensures { result ≡ lower_row r s }
{
    if r == 0 {
        s
    } else if s == 0 {
        r
    } else {
        wire::least(r, s)
    }
}

// The lowest of rows 2 and 4 to 8 that holds of the fields of an event's text, lent in b; 0 where none does.
pub fn body_row(b: &[u8], p: Body) -> u8
    ensures { result ≡ body_row b.now p }
{
    lent::told(lent::body_rank(b, p))
}

// The lowest of rows 2 and 4 to 8 that holds of an event's parts, lent in b; 0 where none does.
pub fn event_row(b: &[u8], p: EventParts) -> u8
    ensures { result ≡ event_row b.now p }
{
    lent::told(wire::least(
        lent::hex_rank(b, p.id, wire::HEX_LENGTH),
        wire::least(
            lent::body_rank(b, p.body),
            lent::hex_rank(b, p.sig, wire::SIG_LENGTH),
        ),
    ))
}

// The lowest of rows 2 and 4 to 8 that holds of a filter's parts, lent in b; 0 where none does.
pub fn filter_row(b: &[u8], p: FilterParts) -> u8
    ensures { result ≡ filter_row b.now p }
{
    let rest = wire::least(
        lent::bound_rank(p.limit, 0, wire::MOST_SMALL),
        lent::list_rank(b, p.conditions, Sort::Filter),
    );
    let times = wire::least(
        lent::bound_rank(p.since, wire::MINUS_WIDEST, wire::WIDEST),
        wire::least(
            lent::bound_rank(p.until, wire::MINUS_WIDEST, wire::WIDEST),
            rest,
        ),
    );
    let lists = wire::least(
        lent::list_rank(b, p.authors, Sort::Hexes),
        wire::least(lent::list_rank(b, p.kinds, Sort::Smalls), times),
    );
    lent::told(wire::least(lent::list_rank(b, p.ids, Sort::Hexes), lists))
}
