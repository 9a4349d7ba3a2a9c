// An item: the slot of a member by its name, the form of its value, the fault of its name.
ghost use Rattle.std.specs.Prelude.{◌≡◌, cond};
ghost use Rattle.spell.specs.Spell.{decode};
ghost use Rattle.shape.specs.Inner.{among, event_slot, letter_slot, condition_slot, filter_slot, name_slot};
ghost use Rattle.shape.specs.Inner.{name_fault, member_item, item_of};

use crate::{Item, forms};

// The first of two words, or the second.
pub(crate) fn either<'a>(first: bool, x: &'a [u8], y: &'a [u8]) -> &'a [u8]
    ensures { result.now ≡ cond first x.now y.now }
{
    if first { x } else { y }
}

// Which of six names of an event, or of a filter, is spelled, from 0 on, or NONE. One test after another: of `position`
// over an array of the names, the proof did not close.
pub(crate) fn among(p: &[u8], event: bool) -> u8
    ensures { result ≡ among (decode p.now) event 6 }
{
    if spell::spells(p, either(event, b"id", b"ids")) {
        0
    } else if spell::spells(p, either(event, b"pubkey", b"authors")) {
        1
    } else if spell::spells(p, either(event, b"created_at", b"kinds")) {
        2
    } else if spell::spells(p, either(event, b"kind", b"since")) {
        3
    } else if spell::spells(p, either(event, b"tags", b"until")) {
        4
    } else if spell::spells(p, either(event, b"content", b"limit")) {
        5
    } else {
        forms::NONE
    }
}

#[tactic(auto, unfolding(crate::specs::Inner::event_slot))]
pub(crate) fn event_slot(p: &[u8]) -> u8
    ensures { result ≡ event_slot (decode p.now) }
{
    match among(p, true) {
        forms::NONE if spell::spells(p, b"sig") => forms::SIG,
        forms::NONE => forms::UNKNOWN,
        slot => slot,
    }
}

#[tactic(auto, unfolding(crate::specs::Inner::letter_slot))]
pub(crate) fn letter_slot(b: u8) -> u8
    ensures { result ≡ letter_slot b }
{
    match b {
        b'a'..=b'z' => b - b'a' + forms::LOWER,
        b'A'..=b'Z' => b - b'A' + forms::UPPER,
        _ => forms::UNKNOWN,
    }
}

// # and a letter, spelled in any way: every letter is tried.
#[tactic(auto, unfolding(crate::specs::Inner::condition_slot))]
pub(crate) fn escaped_condition(p: &[u8]) -> u8
    ensures { result ≡ condition_slot (decode p.now) }
{
    if spell::decoded_len(p) != 2 {
        return forms::UNKNOWN;
    }
    for b in b'A'..=b'z' {
        if spell::spells(p, &[b'#', b]) {
            return letter_slot(b);
        }
    }
    forms::UNKNOWN
}

// # and a letter.
#[tactic(auto, unfolding(crate::specs::Inner::condition_slot))]
pub(crate) fn condition_slot(p: &[u8]) -> u8
    ensures { result ≡ condition_slot (decode p.now) }
{
    if let [b'#', b] = *p {
        let slot = letter_slot(b);
        if slot != forms::UNKNOWN {
            return slot;
        }
    }
    escaped_condition(p)
}

#[tactic(auto, unfolding(crate::specs::Inner::filter_slot))]
pub(crate) fn filter_slot(p: &[u8]) -> u8
    ensures { result ≡ filter_slot (decode p.now) }
{
    match among(p, false) {
        forms::NONE => condition_slot(p),
        field => field + forms::IDS,
    }
}

#[tactic(auto, unfolding(crate::specs::Inner::name_slot))]
pub(crate) fn name_slot(form: u8, p: &[u8]) -> u8
    ensures { result ≡ name_slot form (decode p.now) }
{
    match form {
        forms::EVENT => event_slot(p),
        forms::FILTER => filter_slot(p),
        _ => forms::UNKNOWN,
    }
}

#[tactic(auto, unfolding(crate::specs::Inner::name_fault))]
pub(crate) fn name_fault(p: &[u8]) -> u64
    ensures { result ≡ name_fault p.now }
{
    if spell::refused(p) {
        forms::STRING
    } else {
        forms::NO_FAULT
    }
}

#[tactic(auto, unfolding(crate::specs::Inner::member_item))]
pub(crate) fn member(form: u8, p: &[u8]) -> Item
    ensures { result ≡ member_item form p.now }
{
    let slot = name_slot(form, p);
    Item {
        slot,
        form: forms::member_form(form, slot),
        fault: name_fault(p),
    }
}

// Item k, which begins at p.
#[tactic(auto, unfolding(crate::specs::Inner::item_of))]
pub(crate) fn item_of(s: &[u8], form: u8, named: bool, k: usize, p: usize) -> Item
    ensures { result ≡ item_of s.now form named k p }
{
    if named {
        member(form, rows::spelled(s, p))
    } else {
        Item {
            slot: forms::UNKNOWN,
            form: forms::element_form(form, k),
            fault: forms::NO_FAULT,
        }
    }
}
