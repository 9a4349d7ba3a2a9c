// Parts of messages and texts as rows of 64-bit numbers, and back, for callers that can lend nothing else. A number
// past the end of a row is 0.
#![tactic(auto)]

ghost use Rattle.std.specs.Prelude.{◌≡◌, ◌≤◌, take};
ghost use Rattle.wire.specs.Put.{Puts};
ghost use Rattle.numbers.specs.Numbers.{place_of, flag_of, bits_of, event_numbers, filter_numbers, parts_numbers};
ghost use Rattle.numbers.specs.Numbers.{text_numbers};
ghost use Rattle.numbers.specs.Parts.{number_from, row_from, span_from, event_from, listed_from, bound_from};
ghost use Rattle.numbers.specs.Parts.{filter_from, filters_from};

use message::{Body, EventParts, FilterParts, Span};
use text::Text;

// The most filters of a REQ.
const MOST_FILTERS: usize = 4;

// ---- What is written.
// Numbers into `out` from `at` on, as wire::put does with bytes.
pub fn put(out: &mut [u64], at: usize, part: &[u64]) -> usize
    ensures { Puts out.old at part.now result out.new }
{
    if out.len() < at {
        return out.len();
    }
    let n = part.len().min(out.len() - at);
    out[at..at + n].copy_from_slice(&part[..n]);
    at + n
}

fn place(x: Option<usize>) -> u64
    ensures { result ≡ place_of x }
{
    x.map_or(0, |v| v as u64)
}

fn flag(x: Option<i64>) -> u64
    ensures { result ≡ flag_of x }
{
    u64::from(x.is_some())
}

fn bits(x: Option<i64>) -> u64
    ensures { result ≡ bits_of x }
{
    x.map_or(0, |n| wire::to_unsigned(n))
}

pub fn event_numbers(p: EventParts) -> [u64; 12]
    ensures { result ≡ event_numbers p }
{
    [
        1,
        p.id.start as u64,
        p.id.len as u64,
        p.body.pubkey.start as u64,
        p.body.pubkey.len as u64,
        wire::to_unsigned(p.body.created_at),
        wire::to_unsigned(p.body.kind),
        p.body.tags as u64,
        p.body.content.start as u64,
        p.body.content.len as u64,
        p.sig.start as u64,
        p.sig.len as u64,
    ]
}

fn filter_numbers(p: FilterParts) -> [u64; 10]
    ensures { result ≡ filter_numbers p }
{
    [
        place(p.ids),
        place(p.authors),
        place(p.kinds),
        flag(p.since),
        bits(p.since),
        flag(p.until),
        bits(p.until),
        flag(p.limit),
        bits(p.limit),
        place(p.conditions),
    ]
}

// The first n of some filters.
pub fn put_filters(out: &mut [u64], at: usize, fs: [FilterParts; 4], n: usize) -> usize
    ensures { Puts out.old at (parts_numbers (take n fs)) result out.new }
{
    if out.len() < at {
        return out.len();
    }
    let mut o = at;
    for i in 0..n.min(MOST_FILTERS) {
        o = put(out, o, &filter_numbers(fs[i]));
    }
    o
}

pub fn text_numbers(x: Text) -> [u64; 7]
    ensures { result ≡ text_numbers x }
{
    [
        wire::to_unsigned(x.time),
        x.kind as u64,
        x.tags as u64,
        x.content as u64,
        x.content_len as u64,
        x.d as u64,
        x.d_len as u64,
    ]
}

// ---- What is read.
pub fn number_in(l: &[u64], i: usize) -> u64
    ensures { result ≡ number_from l.now i }
{
    l.get(i).copied().unwrap_or(0)
}

fn listed_from(v: u64) -> Option<usize>
    ensures { result ≡ listed_from v }
{
    if v == 0 { None } else { Some(v as usize) }
}

fn bound_from(flag: u64, bits: u64) -> Option<i64>
    ensures { result ≡ bound_from flag bits }
{
    if flag == 0 {
        None
    } else {
        Some(wire::to_signed(bits))
    }
}

// A filter from its ten numbers, the first of which is number k.
#[tactic(auto, unfolding(crate::specs::Parts::filter_from))]
fn filter_from(l: &[u64], k: usize) -> FilterParts
    requires { k ≤ 34 }
    ensures { result ≡ filter_from l.now k }
{
    FilterParts {
        ids: listed_from(number_in(l, k)),
        authors: listed_from(number_in(l, k + 1)),
        kinds: listed_from(number_in(l, k + 2)),
        since: bound_from(number_in(l, k + 3), number_in(l, k + 4)),
        until: bound_from(number_in(l, k + 5), number_in(l, k + 6)),
        limit: bound_from(number_in(l, k + 7), number_in(l, k + 8)),
        conditions: listed_from(number_in(l, k + 9)),
    }
}

// The filters of a REQ, after its four numbers.
#[tactic(auto, unfolding(crate::specs::Parts::filters_from))]
pub fn filters_from(l: &[u64]) -> [FilterParts; 4]
    ensures { result ≡ filters_from l.now }
{
    [
        filter_from(l, 4),
        filter_from(l, 14),
        filter_from(l, 24),
        filter_from(l, 34),
    ]
}

// The numbers from k on.
pub fn behind(l: &[u64], k: usize) -> &[u64]
    ensures { result.now ≡ row_from l.now k }
{
    &l[k.min(l.len())..]
}

// A string part from two numbers, the first of which is number k.
fn span_at(l: &[u64], k: usize) -> Span
    requires { k ≤ 10 }
    ensures { result ≡ span_from l.now k }
{
    Span {
        start: number_in(l, k) as usize,
        len: number_in(l, k + 1) as usize,
    }
}

// A string part from the first two numbers.
pub fn span_from(l: &[u64]) -> Span
    ensures { result ≡ span_from l.now 0 }
{
    span_at(l, 0)
}

// An event's parts from its twelve numbers.
#[tactic(auto, unfolding(crate::specs::Parts::event_from))]
pub fn event_from(l: &[u64]) -> EventParts
    ensures { result ≡ event_from l.now }
{
    EventParts {
        id: span_at(l, 1),
        body: Body {
            pubkey: span_at(l, 3),
            created_at: wire::to_signed(number_in(l, 5)),
            kind: wire::to_signed(number_in(l, 6)),
            tags: number_in(l, 7) as usize,
            content: span_at(l, 8),
        },
        sig: span_at(l, 10),
    }
}
