// Whether an event matches a filter whose list members were found beforehand.
ghost use Rattle.std.specs.Prelude.{◌≡◌, true, false, map, take, Some};
ghost use Rattle.wire.specs.Bytes.{part, same_bytes};
ghost use Rattle.spell.specs.Spell.{decode};
ghost use Rattle.json_tree.specs.Grammar.{start_at};
ghost use Rattle.text.specs.Event.{all};
ghost use Rattle.message.specs.Lists.{start_element, next_of};
ghost use Rattle.message.specs.Lent.{is_tags_shape, value5};
ghost use Rattle.event.specs.Lent.{said, lent_tags_at, event_of};
ghost use Rattle.query.specs.Match.{is_member, is_listed, kind_listed, since_holds, until_holds, condition_holds, matches};
ghost use Rattle.matching.specs.Inner.Found.{spelled_by, numbers_by, given, condition_by, filter_by};
ghost use Rattle.matching.specs.Inner.Steps.{placed, asked, second_of, fields_hold};

use crate::{Known, Needed};
use message::Element;

// The part of a row of numbers at a place, as far as it lies in it.
// wire::piece does the same with bytes; its signature, which other code calls, names them.
fn cut(s: &[usize], start: usize, len: usize) -> &[usize]
    ensures { result.now ≡ part s.now start len }
{
    if s.len() <= start {
        return &s[..0];
    }
    let room = s.len() - start;
    if room < len {
        return &s[start..];
    }
    let end = start + len;
    &s[start..end]
}

// An element's place, if there is one.
fn place(x: Element) -> Option<usize>
    ensures { result ≡ placed x }
{
    match x {
        Element::At(v) => Some(v),
        Element::Ended | Element::Broken => None,
    }
}

// The first element of the array at a place, if there is one.
pub(crate) fn first(b: &[u8], at: usize) -> Option<usize>
    ensures { result ≡ placed (start_element (start_at b.now at)) }
{
    place(message::first(b, at))
}

// The element after the one at a place, if there is one.
pub(crate) fn next(b: &[u8], at: usize) -> Option<usize>
    ensures { result ≡ placed (next_of b.now at) }
{
    place(message::next(b, at))
}

// The second string of the tag at v, if its first is the letter.
fn second_string(b: &[u8], v: usize, letter: u8) -> Option<(usize, usize)>
    ensures { result ≡ second_of b.now v letter }
{
    let i = first(b, v)?;
    let name = [letter];
    if !spell::spells(rows::spelled(b, i), &name) {
        return None;
    }
    let j = next(b, i)?;
    match json_tree::string(b, j) {
        Some(n) => Some((j + 1, n - j - 2)),
        None => Some((0, 0)),
    }
}

// A # condition, whose members are the strings of m that the spans tell, holds of the tags of the array in b.
fn holds(b: &[u8], tags: usize, letter: u8, m: &[u8], spans: &[usize]) -> bool
    requires { value5 is_tags_shape b.now tags ≡ false }
    ensures { result ≡ condition_holds (lent_tags_at b.now tags)
        (asked letter (spelled_by m.now spans.now)) }
{
    let mut x = first(b, tags);
    'tags: for _k in 0..b.len() {
        let Some(v) = x else {
            return false;
        };
        x = next(b, v);
        let Some((start, len)) = second_string(b, v, letter) else {
            continue;
        };
        let value = wire::piece(b, start, len);
        // `same_bytes` has no way out past the first byte, so it costs more here than it saves: most tags are not asked
        // for, and differ early.
        'members: for k in 0..spans.len() / 2 {
            if spell::same(value, wire::piece(m, spans[k * 2], spans[k * 2 + 1])) {
                return true;
            }
        }
    }
    false
}

// Whether two slices hold the same bytes. Past the first they are compared with no way out of the loop, so that the
// compiler takes many at a time.
fn same_bytes(p: &[u8], q: &[u8]) -> bool
    ensures { result ≡ same_bytes p.now q.now }
{
    if p.len() != q.len() {
        return false;
    }
    if wire::byte(p, 0) != wire::byte(q, 0) {
        return false;
    }
    let mut same = true;
    for i in 0..p.len() {
        same = same & (p[i] == q[i]);
    }
    same
}

// Whether a spelled string is one of those that the spans tell. Most are spelled by the same bytes; only where they are
// not, escapes are read.
fn among(v: &[u8], m: &[u8], spans: &[usize]) -> bool
    ensures { result ≡ is_member (spelled_by m.now spans.now) (decode v.now) }
{
    for k in 0..spans.len() / 2 {
        let member = wire::piece(m, spans[k * 2], spans[k * 2 + 1]);
        if same_bytes(v, member) || spell::same(v, member) {
            return true;
        }
    }
    false
}

// ids, authors: exact membership, where the list is given.
pub(crate) fn listed(l: Option<(usize, usize)>, v: &[u8], m: &[u8], row: &[usize]) -> bool
    ensures { result ≡ is_listed (given (spelled_by m.now) row.now l) (decode v.now) }
{
    l.is_none_or(|(a, n)| among(v, m, cut(row, a, n)))
}

// Whether a row of numbers has the kind.
fn has(row: &[usize], k: u64) -> bool
    ensures { result ≡ kind_listed (Some (numbers_by row.now)) k }
{
    row.contains(&(k as usize))
}

// kinds: exact membership, where the list is given.
fn kind_listed(l: Option<(usize, usize)>, k: u64, row: &[usize]) -> bool
    ensures { result ≡ kind_listed (given numbers_by row.now l) k }
{
    l.is_none_or(|(a, n)| has(cut(row, a, n), k))
}

// since and until are inclusive, and 0 is a number.
fn since_holds(s: Option<i64>, t: i64) -> bool
    ensures { result ≡ since_holds s t }
{
    s.is_none_or(|z| z <= t)
}

fn until_holds(u: Option<i64>, t: i64) -> bool
    ensures { result ≡ until_holds u t }
{
    u.is_none_or(|z| t <= z)
}

// All of the first n conditions hold.
pub(crate) fn all_hold(
    b: &[u8],
    tags: usize,
    m: &[u8],
    row: &[usize],
    cs: [Needed; 4],
    n: usize,
) -> bool
    requires { value5 is_tags_shape b.now tags ≡ false }
    ensures { result ≡ all (condition_holds (lent_tags_at b.now tags))
        (map (condition_by m.now row.now) (take n cs)) }
{
    for i in 0..n.min(4) {
        let c = cs[i];
        if !holds(b, tags, c.letter, m, cut(row, c.from, c.len)) {
            return false;
        }
    }
    true
}

// authors, kinds, since and until, of an event with this public key, spelled, this time and kind.
pub(crate) fn fields_hold(
    pubkey: &[u8],
    time: i64,
    kind: u64,
    m: &[u8],
    row: &[usize],
    f: Known,
) -> bool
    ensures { result ≡ fields_hold (filter_by m.now row.now f) (decode pubkey.now) time
        kind }
{
    if !listed(f.authors, pubkey, m, row) {
        return false;
    }
    if !kind_listed(f.kinds, kind, row) {
        return false;
    }
    if !since_holds(f.since, time) {
        return false;
    }
    until_holds(f.until, time)
}

// Whether the event of the parts p over b matches the filter.
pub(crate) fn event_matched(
    b: &[u8],
    p: message::EventParts,
    m: &[u8],
    row: &[usize],
    f: Known,
) -> bool
    requires { value5 is_tags_shape b.now p.body.tags ≡ false }
    ensures { result ≡ matches (filter_by m.now row.now f) (said b.now p.id)
        (event_of b.now p.body) }
{
    let id = p.id;
    if !listed(f.ids, wire::piece(b, id.start, id.len), m, row) {
        return false;
    }
    let body = p.body;
    let pubkey = body.pubkey;
    let key = wire::piece(b, pubkey.start, pubkey.len);
    if !fields_hold(key, body.created_at, event::kind_of(body.kind), m, row, f) {
        return false;
    }
    all_hold(b, body.tags, m, row, f.conditions, f.n)
}
