// The fields of a line: parts with single spaces between, numbers in decimal. They are read by their number, counted
// from 0, and written one behind the other. Every call is total: past the last field all are empty, and what spells no
// number has a number all the same.
#![tactic(auto)]

ghost use Rattle.std.specs.Prelude.{◌≡◌, ◌++◌, ◌%◌, ◌≤◌, eqb, length, position, replicate, IfOk, vec_len};
ghost use Rattle.wire.specs.Put.{Puts};
ghost use Rattle.numeral.specs.Decimal.{digits, decimal};
ghost use Rattle.fields.specs.Line.{space_in, rest_of_line, fields_from, field_of, gap_of};
ghost use Rattle.fields.specs.Number.{grown_by, natural_field, integer_of, is_absent, count_field};
ghost use Rattle.fields.specs.Room.{filled, first_byte, room_length, empty_room, turned_over, length_after};
ghost use Rattle.fields.specs.Room.{lent_after, room_after};
ghost use Rattle.fields.specs.Parts.{span_fields, body_fields, event_fields, listed_of, bound_of, filter_fields};
ghost use Rattle.fields.specs.Refusal.{offset_field, refusal_field};

use message::{Body, EventParts, FilterParts, Span};
use shape::Refusal;
use std::alloc::{AllocError, Global};

// ---- The fields of a line.
// Where the first space stands.
fn first_space(line: &[u8]) -> Option<usize>
    ensures { result ≡ position (λ b. eqb b 32) line.now }
{
    line.iter().position(|b| *b == b' ')
}

// Where the first space stands, or the end.
fn space(line: &[u8]) -> usize
    ensures value { result ≡ space_in line.now }
    ensures within { result ≤ length line.now }
{
    first_space(line).unwrap_or(line.len())
}

// The line behind that space.
#[tactic(auto, unfolding(crate::specs::Line::rest_of_line))]
fn after(line: &[u8]) -> &[u8]
    ensures { result.now ≡ rest_of_line line.now }
{
    &line[(space(line) + 1).min(line.len())..]
}

// The line from field number k on.
pub fn from(line: &[u8], k: usize) -> &[u8]
    ensures { result.now ≡ fields_from k line.now }
{
    let mut rest = line;
    for _k in 0..k {
        rest = after(rest);
    }
    rest
}

// Field number k.
#[tactic(auto, unfolding(crate::specs::Line::field_of))]
pub fn field(line: &[u8], k: usize) -> &[u8]
    ensures { result.now ≡ field_of line.now k }
{
    let rest = from(line, k);
    &rest[..space(rest)]
}

// ---- Numbers.
// A digit more of a number below 2^64.
#[tactic(auto, unfolding(crate::specs::Number::grown_by, numeral::specs::Whole::is_digit))]
fn grown(v: u64, b: u8) -> u64
    ensures { result ≡ grown_by v b }
{
    if !b.is_ascii_digit() {
        return 0;
    }
    let d = (b - b'0') as u64;
    v.checked_mul(10)
        .and_then(|w| w.checked_add(d))
        .unwrap_or(0)
}

// The number that digits spell.
pub fn natural(p: &[u8]) -> u64
    ensures { result ≡ natural_field 0 p.now }
{
    let mut v: u64 = 0;
    for b in p {
        v = grown(v, *b);
    }
    v
}

// The same with a minus before it, or without.
#[tactic(auto, unfolding(crate::specs::Number::integer_of, crate::specs::Number::complement_of))]
pub fn integer(p: &[u8]) -> i64
    ensures { result ≡ integer_of p.now }
{
    match p {
        [b'-', digits @ ..] => wire::to_signed(natural(digits).wrapping_neg()),
        _ => wire::to_signed(natural(p)),
    }
}

// Whether a field is empty or begins with x: what may be absent is.
#[tactic(auto, unfolding(crate::specs::Number::is_absent))]
pub fn is_absent(p: &[u8]) -> bool
    ensures { result ≡ is_absent p.now }
{
    p.first().is_none_or(|b| *b == b'x')
}

// The number in field k.
#[tactic(auto, unfolding(crate::specs::Number::count_field))]
pub fn count(line: &[u8], k: usize) -> usize
    ensures { result ≡ count_field line.now k }
{
    natural(field(line, k)) as usize
}

// Its lowest 8 bits, and its lowest 16.
#[tactic(auto, unfolding(crate::specs::Number::count_field))]
pub fn byte(line: &[u8], k: usize) -> u8
    ensures { result ≡ count_field line.now k % 256 }
{
    (natural(field(line, k)) % 256) as u8
}

#[tactic(auto, unfolding(crate::specs::Number::count_field))]
pub fn short(line: &[u8], k: usize) -> u16
    ensures { result ≡ count_field line.now k % 65536 }
{
    (natural(field(line, k)) % 65536) as u16
}

// ---- The parts of events and filters, from the first field on.
#[tactic(auto, unfolding(crate::specs::Parts::span_fields))]
pub fn span(line: &[u8]) -> Span
    ensures { result ≡ span_fields line.now }
{
    Span {
        start: count(line, 0),
        len: count(line, 1),
    }
}

// pubkey pubkey_len created_at kind tags content content_len
#[tactic(auto, unfolding(crate::specs::Parts::body_fields))]
pub fn body(line: &[u8]) -> Body
    ensures { result ≡ body_fields line.now }
{
    Body {
        pubkey: span(line),
        created_at: integer(field(line, 2)),
        kind: integer(field(line, 3)),
        tags: count(line, 4),
        content: span(from(line, 5)),
    }
}

// id id_len (the seven of a body) sig sig_len
#[tactic(auto, unfolding(crate::specs::Parts::event_fields))]
pub fn event(line: &[u8]) -> EventParts
    ensures { result ≡ event_fields line.now }
{
    EventParts {
        id: span(line),
        body: body(from(line, 2)),
        sig: span(from(line, 9)),
    }
}

#[tactic(auto, unfolding(crate::specs::Parts::listed_of))]
fn listed(p: &[u8]) -> Option<usize>
    ensures { result ≡ listed_of p.now }
{
    if is_absent(p) {
        None
    } else {
        Some(natural(p) as usize)
    }
}

#[tactic(auto, unfolding(crate::specs::Parts::bound_of))]
fn bound(p: &[u8]) -> Option<i64>
    ensures { result ≡ bound_of p.now }
{
    if is_absent(p) { None } else { Some(integer(p)) }
}

// ids authors kinds since until limit conditions
#[tactic(auto, unfolding(crate::specs::Parts::filter_fields))]
pub fn filter(line: &[u8]) -> FilterParts
    ensures { result ≡ filter_fields line.now }
{
    FilterParts {
        ids: listed(field(line, 0)),
        authors: listed(field(line, 1)),
        kinds: listed(field(line, 2)),
        since: bound(field(line, 3)),
        until: bound(field(line, 4)),
        limit: bound(field(line, 5)),
        conditions: listed(field(line, 6)),
    }
}

// ---- What is written: a space, unless the line begins here; the same and a field.
pub fn put_gap(out: &mut [u8], at: usize) -> usize
    ensures { Puts out.old at (gap_of at) result out.new }
{
    if at == 0 {
        0
    } else {
        wire::put_byte(out, at, b' ')
    }
}

pub fn put_word(out: &mut [u8], at: usize, word: &[u8]) -> usize
    ensures { Puts out.old at (gap_of at ++ word.now) result out.new }
{
    let a = put_gap(out, at);
    wire::put(out, a, word)
}

pub fn put_number(out: &mut [u8], at: usize, n: u64) -> usize
    ensures { Puts out.old at (gap_of at ++ digits n) result out.new }
{
    let a = put_gap(out, at);
    numeral::put_natural(out, a, n)
}

pub fn put_integer(out: &mut [u8], at: usize, z: i64) -> usize
    ensures { Puts out.old at (gap_of at ++ decimal z) result out.new }
{
    let a = put_gap(out, at);
    numeral::put_decimal(out, a, z)
}

// What stands behind the row of a refusal: an @ and the offset, or nothing.
fn put_offset(out: &mut [u8], at: usize, x: Option<usize>) -> usize
    ensures { Puts out.old at (offset_field x) result out.new }
{
    match x {
        None => wire::put(out, at, b""),
        Some(n) => {
            let a = wire::put(out, at, b"@");
            numeral::put_natural(out, a, n as u64)
        }
    }
}

pub fn put_refusal(out: &mut [u8], at: usize, x: Refusal) -> usize
    ensures { Puts out.old at (gap_of at ++ refusal_field x) result out.new }
{
    let a = put_number(out, at, x.row as u64);
    put_offset(out, a, x.offset)
}

// Every byte of a buffer becomes b.
pub fn fill(room: &mut [u8], b: u8)
    ensures { room.new ≡ filled room.old b }
{
    room.fill(b);
}

// ---- A room for a table, and lent bytes beside it. Three letters change them:
//   L len fill      every byte of the room becomes `fill`; its first `len` bytes are the table
//   B bytes         these bytes to the start of the lent ones
//   X at bits       turns these bits of a byte of the room over
// The first byte of a line, and 0 where it has none.
#[tactic(auto, unfolding(crate::specs::Room::first_byte))]
pub fn letter(line: &[u8]) -> u8
    ensures { result ≡ first_byte line.now }
{
    line.first().copied().unwrap_or(0)
}

// As many bytes as a table of the most slots has, and 256 more.
pub const ROOM: usize = 16 + wire::MOST_SLOTS * 4208 + 256;

// The room before the first line: zeros.
pub fn empty_room() -> [u8; ROOM]
    ensures value { result ≡ empty_room }
    ensures room_length_value { room_length ≡ length result }
{
    [0; ROOM]
}

// The same on the heap, where a program keeps it: by value it is more than a stack holds. The error is the allocator's;
// no clause says when it comes.
pub fn allocated_room(alloc: Global) -> Result<Vec<u8>, AllocError>
    ensures value { IfOk result (λ room. room.items ≡ empty_room) }
    ensures room_length_value { IfOk result (λ room. room_length ≡ vec_len room) }
{
    Vec::from_elem(alloc, 0u8, ROOM)
}

// Bits of a byte turned over, where there is one.
#[tactic(auto, unfolding(crate::specs::Room::turned_over))]
fn turn_over(room: &mut [u8], at: usize, bits: u8)
    ensures { room.new ≡ turned_over room.old at bits }
{
    if at < room.len() {
        room[at] ^= bits;
    }
}

// The length of the table from this line on; n before it.
#[tactic(auto, unfolding(crate::specs::Room::length_after))]
pub fn table_len(line: &[u8], n: usize) -> usize
    ensures { result ≡ length_after line.now n }
{
    if letter(line) == b'L' {
        count(line, 1)
    } else {
        n
    }
}

// What the line does with the lent bytes, and with the room.
#[tactic(auto, unfolding(crate::specs::Room::lent_after))]
pub fn change_lent(line: &[u8], lent: &mut [u8])
    ensures { lent.new ≡ lent_after line.now lent.old }
{
    if letter(line) == b'B' {
        wire::put(lent, 0, wire::piece(line, 2, 65536));
    }
}

#[tactic(auto, unfolding(crate::specs::Room::room_after))]
pub fn change_room(line: &[u8], room: &mut [u8])
    ensures { room.new ≡ room_after line.now room.old }
{
    match letter(line) {
        b'L' => fill(room, byte(line, 2)),
        b'X' => turn_over(room, count(line, 1), byte(line, 2)),
        _ => {}
    }
}
