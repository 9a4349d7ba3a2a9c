// Parts lent by anybody. Every part answers the lowest row that it breaks, and NO_ROW for none; parts are joined by the
// least.
ghost use Rattle.std.specs.Prelude.{◌≡◌, false};
ghost use Rattle.spell.specs.Spell.{character_count};
ghost use Rattle.wire.specs.Limits.{most_characters};
ghost use Rattle.shape.specs.Rows.{outside};
ghost use Rattle.message.specs.Lent.{span_bytes, is_inside, string2, string4, string5, string7, subscription8};
ghost use Rattle.message.specs.Lent.{wrong_number, in_bound, body2, body4, body5, body6, body7, body8};
ghost use Rattle.message.specs.Inner.{row_told, rank_of, LowestRank, ValueRank, ListRank};

use crate::{Body, Span};
use numeral::Whole;
use shape::Sort;

// Above all rows: none holds.
pub(crate) const NO_ROW: u8 = 9;

// Whether a subscription id has fewer or more characters than it may.
pub(crate) fn miscounted(s: &[u8], p: Span) -> bool
    ensures { result ≡ outside 1 most_characters (character_count (span_bytes s.now p)) }
{
    let n = spell::characters(wire::piece(s, p.start, p.len));
    n < 1 || wire::MOST_CHARACTERS < n
}

// The row of a rank: 0 for no row.
pub(crate) fn told(row: u8) -> u8
    ensures { result ≡ row_told row }
{
    if row == NO_ROW { 0 } else { row }
}

// The rank of a row, of which 0 is none.
pub(crate) fn ranked(row: u8) -> u8
    ensures { result ≡ rank_of row }
{
    if row == 0 { NO_ROW } else { row }
}

#[tactic(auto, unfolding(crate::specs::Lent::is_inside))]
pub(crate) fn inside(b: &[u8], p: Span) -> bool
    ensures { result ≡ is_inside b.now p }
{
    p.start <= b.len() && p.len <= b.len() - p.start
}

// A string part.
#[tactic(auto, unfolding(crate::specs::Inner::rank, crate::specs::Lent::string2, crate::specs::Lent::string4, crate::specs::Lent::string5, crate::specs::Lent::is_spelled))]
pub(crate) fn string_rank(b: &[u8], p: Span) -> u8
    ensures { LowestRank result (string2 b.now p) (string4 b.now p) (string5 b.now p)
        false false false }
{
    if !inside(b, p) {
        return 5;
    }
    let w = wire::piece(b, p.start, p.len);
    if !utf8::is_utf8(w) {
        return 2;
    }
    if !json_tree::spelling(w) {
        return 5;
    }
    if spell::refused(w) {
        return 4;
    }
    NO_ROW
}

// A string part of k characters of lower-case hex.
#[tactic(auto, unfolding(crate::specs::Inner::rank, crate::specs::Lent::string5, crate::specs::Lent::string7))]
pub(crate) fn hex_rank(b: &[u8], p: Span, k: usize) -> u8
    ensures { LowestRank result (string2 b.now p) (string4 b.now p) (string5 b.now p)
        false (string7 k b.now p) false }
{
    let row = string_rank(b, p);
    if row == NO_ROW && !spell::is_hex(wire::piece(b, p.start, p.len), k) {
        7
    } else {
        row
    }
}

// A string part that is a subscription id.
#[tactic(auto, unfolding(crate::specs::Inner::rank, crate::specs::Lent::string5, crate::specs::Lent::subscription8))]
pub(crate) fn subscription_rank(b: &[u8], p: Span) -> u8
    ensures { LowestRank result (string2 b.now p) (string4 b.now p) (string5 b.now p)
        false false (subscription8 b.now p) }
{
    let row = string_rank(b, p);
    if row == NO_ROW && miscounted(b, p) {
        8
    } else {
        row
    }
}

#[tactic(auto, unfolding(crate::specs::Inner::rank, crate::specs::Lent::wrong_number))]
pub(crate) fn number_rank(z: i64, low: i64, high: i64) -> u8
    ensures { LowestRank result false false false (wrong_number low high z) false false }
{
    if numeral::within(Whole::Value(z), low, high) {
        NO_ROW
    } else {
        6
    }
}

#[tactic(auto, unfolding(crate::specs::Inner::rank))]
pub(crate) fn bound_rank(x: Option<i64>, low: i64, high: i64) -> u8
    ensures { LowestRank result false false false (in_bound (wrong_number low high) x) false false }
{
    x.map_or(NO_ROW, |z| number_rank(z, low, high))
}

// The value at a place, where a sort must stand.
pub(crate) fn value_rank(b: &[u8], at: usize, k: Sort) -> u8
    ensures { ValueRank b.now at k result }
{
    ranked(shape::value_row(b, at, k))
}

#[tactic(auto, unfolding(crate::specs::Inner::rank))]
pub(crate) fn list_rank(b: &[u8], x: Option<usize>, k: Sort) -> u8
    ensures { ListRank b.now x k result }
{
    x.map_or(NO_ROW, |v| value_rank(b, v, k))
}

pub(crate) fn body_rank(b: &[u8], p: Body) -> u8
    ensures { LowestRank result (body2 b.now p) (body4 b.now p) (body5 b.now p)
        (body6 p) (body7 b.now p) (body8 b.now p) }
{
    let tags = wire::least(value_rank(b, p.tags, Sort::Tags), string_rank(b, p.content));
    let texts = wire::least(hex_rank(b, p.pubkey, wire::HEX_LENGTH), tags);
    let kind = wire::least(number_rank(p.kind, 0, wire::MOST_SMALL), texts);
    wire::least(
        number_rank(p.created_at, wire::MINUS_WIDEST, wire::WIDEST),
        kind,
    )
}
