// A value that holds no value: its fault, where a form must stand.
ghost use Rattle.std.specs.Prelude.{◌≡◌, ◌-◌};
ghost use Rattle.json_tree.specs.Grammar.{scalar_at};
ghost use Rattle.json_tree.specs.Tree.{on_leaf};
ghost use Rattle.rows.specs.Strings.{part};
ghost use Rattle.shape.specs.Inner.{bounds, hex_fault, string_form, string_fault, range_fault, number_fault};
ghost use Rattle.shape.specs.Inner.{judged_of};

use crate::{Judged, forms};
use json_tree::Kind;

#[tactic(auto, unfolding(crate::specs::Inner::bounds))]
pub(crate) fn bounded(low: usize, high: usize, n: usize) -> u64
    ensures { result ≡ bounds low high n }
{
    if (low..=high).contains(&n) {
        forms::NO_FAULT
    } else {
        forms::COUNT
    }
}

// The bytes from one place up to another.
pub(crate) fn cut(s: &[u8], from: usize, to: usize) -> &[u8]
    ensures { result.now ≡ part s.now from (to - from) }
{
    wire::piece(s, from, to.saturating_sub(from))
}

#[tactic(auto, unfolding(crate::specs::Inner::hex_fault))]
pub(crate) fn hex_fault(k: usize, v: usize, p: &[u8]) -> u64
    ensures { result ≡ hex_fault k v p.now }
{
    if spell::is_hex(p, k) {
        forms::NO_FAULT
    } else {
        forms::at_place(forms::HEX, v)
    }
}

#[tactic(auto, unfolding(crate::specs::Inner::string_form))]
pub(crate) fn string_form(form: u8, v: usize, p: &[u8]) -> u64
    ensures { result ≡ string_form form v p.now }
{
    match form {
        forms::TEXT => forms::NO_FAULT,
        forms::LABEL => bounded(1, wire::MOST_CHARACTERS, spell::characters(p)),
        forms::HEX64 => hex_fault(wire::HEX_LENGTH, v, p),
        forms::HEX128 => hex_fault(wire::SIG_LENGTH, v, p),
        _ => forms::SHAPE,
    }
}

#[tactic(auto, unfolding(crate::specs::Inner::string_fault))]
pub(crate) fn string_fault(form: u8, v: usize, p: &[u8]) -> u64
    ensures { result ≡ string_fault form v p.now }
{
    if spell::refused(p) {
        forms::STRING
    } else {
        string_form(form, v, p)
    }
}

// A number must lie from low to high.
#[tactic(auto, unfolding(crate::specs::Inner::range_fault))]
pub(crate) fn range_fault(low: i64, high: i64, v: usize, p: &[u8]) -> u64
    ensures { result ≡ range_fault low high v p.now }
{
    if numeral::within(numeral::read_whole(p), low, high) {
        forms::NO_FAULT
    } else {
        forms::at_place(forms::NUMBER, v)
    }
}

#[tactic(auto, unfolding(crate::specs::Inner::number_fault))]
pub(crate) fn number_fault(form: u8, v: usize, p: &[u8]) -> u64
    ensures { result ≡ number_fault form v p.now }
{
    match form {
        forms::TIME => range_fault(wire::MINUS_WIDEST, wire::WIDEST, v, p),
        forms::SMALL => range_fault(0, wire::MOST_SMALL, v, p),
        _ => forms::SHAPE,
    }
}

// A value that holds no value.
pub(crate) fn leaf(s: &[u8], at: usize, form: u8) -> Option<Judged>
    ensures { result ≡ judged_of s.now form at (on_leaf s.now at
        (scalar_at s.now at)) }
{
    let (n, fault) = match json_tree::scalar(s, at)? {
        Kind::Str(n) => {
            let inner = at + 1;
            (n, string_fault(form, at, cut(s, inner, n - 1)))
        }
        Kind::Num(n) => (n, number_fault(form, at, cut(s, at, n))),
        Kind::Word(n) => (n, forms::SHAPE),
    };
    Some(Judged {
        end: json_tree::space(s, n),
        fault,
    })
}
