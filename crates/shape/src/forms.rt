// What must stand at a place is its form, a small number; a member has a slot, an element its number. Faults, forms and
// slots, and the form of each member and element.
ghost use Rattle.std.specs.Prelude.{◌≡◌, ◌≤◌};
ghost use Rattle.spell.specs.Spell.{decode};
ghost use Rattle.shape.specs.Shape.{word_of};
ghost use Rattle.shape.specs.Inner.{placed, group_form, message_form, element_form, event_form, filter_form};
ghost use Rattle.shape.specs.Inner.{member_form, word_form, no_fault};
ghost use Rattle.shape.specs.Values.{form_of};

use crate::Sort;

// A fault is a row, and with rows 6 and 7 the place that breaks it, as one number: so many places to a row.
pub(crate) const PLACES: u64 = 281474976710656;

pub(crate) const LAST_PLACE: u64 = PLACES - 1;

pub(crate) const STRING: u64 = 4 * PLACES;

pub(crate) const SHAPE: u64 = 5 * PLACES;

pub(crate) const NUMBER: u64 = 6 * PLACES;

pub(crate) const HEX: u64 = 7 * PLACES;

pub(crate) const COUNT: u64 = 8 * PLACES;

// Above them all.
pub(crate) const NO_FAULT: u64 = 9 * PLACES;

// The forms.
pub(crate) const NEVER: u8 = 0;

pub(crate) const TEXT: u8 = 1;

pub(crate) const LABEL: u8 = 2;

pub(crate) const HEX64: u8 = 3;

pub(crate) const HEX128: u8 = 4;

pub(crate) const TIME: u8 = 5;

pub(crate) const SMALL: u8 = 6;

pub(crate) const EVENT: u8 = 7;

pub(crate) const FILTER: u8 = 8;

pub(crate) const TAGLIST: u8 = 9;

pub(crate) const TAG: u8 = 10;

pub(crate) const TEXTS: u8 = 11;

pub(crate) const HEXES: u8 = 12;

pub(crate) const SMALLS: u8 = 13;

pub(crate) const OFFER: u8 = 14;

pub(crate) const REQUEST: u8 = 15;

pub(crate) const CLOSING: u8 = 16;

// The slots of members: of an event, of a name that neither has, of a filter.
pub(crate) const ID: u8 = 0;

pub(crate) const PUBKEY: u8 = 1;

pub(crate) const CREATED: u8 = 2;

pub(crate) const KIND: u8 = 3;

pub(crate) const TAGS: u8 = 4;

pub(crate) const CONTENT: u8 = 5;

pub(crate) const SIG: u8 = 6;

pub(crate) const UNKNOWN: u8 = 7;

pub(crate) const IDS: u8 = 8;

pub(crate) const AUTHORS: u8 = 9;

pub(crate) const KINDS: u8 = 10;

pub(crate) const SINCE: u8 = 11;

pub(crate) const UNTIL: u8 = 12;

pub(crate) const LIMIT: u8 = 13;

// # and a letter: from LOWER on a to z, from UPPER on A to Z.
pub(crate) const LOWER: u8 = 14;

pub(crate) const UPPER: u8 = 40;

// Of these e, the fifth letter, and p, the sixteenth: #e and #p.
pub(crate) const LETTER_E: u8 = LOWER + 4;

pub(crate) const LETTER_P: u8 = LOWER + 15;

// None of six names.
pub(crate) const NONE: u8 = 6;

// A row that is broken at a place.
pub(crate) fn at_place(row: u64, v: usize) -> u64
    requires { row ≤ no_fault }
    ensures { result ≡ placed row v }
{
    row + (v as u64).min(LAST_PLACE)
}

// The form inside of brackets or braces.
#[tactic(auto, unfolding(crate::specs::Inner::group_form))]
pub(crate) fn group_form(form: u8, named: bool) -> u8
    ensures { result ≡ group_form form named }
{
    match form {
        EVENT | FILTER if named => form,
        TAGLIST.. if !named => form,
        _ => NEVER,
    }
}

#[tactic(auto, unfolding(crate::specs::Inner::event_form))]
pub(crate) fn event_form(slot: u8) -> u8
    ensures { result ≡ event_form slot }
{
    match slot {
        ID | PUBKEY => HEX64,
        CREATED => TIME,
        KIND => SMALL,
        TAGS => TAGLIST,
        CONTENT => TEXT,
        SIG => HEX128,
        _ => NEVER,
    }
}

#[tactic(auto, unfolding(crate::specs::Inner::filter_form))]
pub(crate) fn filter_form(slot: u8) -> u8
    ensures { result ≡ filter_form slot }
{
    match slot {
        LETTER_E | LETTER_P | IDS | AUTHORS => HEXES,
        LOWER.. => TEXTS,
        KINDS => SMALLS,
        SINCE | UNTIL => TIME,
        LIMIT => SMALL,
        _ => NEVER,
    }
}

#[tactic(auto, unfolding(crate::specs::Inner::member_form))]
pub(crate) fn member_form(form: u8, slot: u8) -> u8
    ensures { result ≡ member_form form slot }
{
    match form {
        EVENT => event_form(slot),
        FILTER => filter_form(slot),
        _ => NEVER,
    }
}

// Element k of a message: its word, the second, and those after it.
#[tactic(auto, unfolding(crate::specs::Inner::message_form))]
pub(crate) fn message_form(k: usize, second: u8, later: u8) -> u8
    ensures { result ≡ message_form k second later }
{
    match k {
        0 => TEXT,
        1 => second,
        _ => later,
    }
}

// Element k of an array.
#[tactic(auto, unfolding(crate::specs::Inner::element_form))]
pub(crate) fn element_form(form: u8, k: usize) -> u8
    ensures { result ≡ element_form form k }
{
    match form {
        TAGLIST => TAG,
        TAG | TEXTS => TEXT,
        HEXES => HEX64,
        SMALLS => SMALL,
        OFFER => message_form(k, EVENT, NEVER),
        REQUEST => message_form(k, LABEL, FILTER),
        CLOSING => message_form(k, LABEL, NEVER),
        _ => NEVER,
    }
}

#[tactic(auto, unfolding(crate::specs::Inner::word_form, crate::specs::Shape::word_of))]
pub(crate) fn word_form(p: &[u8]) -> u8
    ensures { result ≡ word_form (word_of (decode p.now)) }
{
    if spell::spells(p, b"EVENT") {
        OFFER
    } else if spell::spells(p, b"REQ") {
        REQUEST
    } else if spell::spells(p, b"CLOSE") {
        CLOSING
    } else {
        NEVER
    }
}

#[tactic(auto, unfolding(crate::specs::Values::form_of))]
pub(crate) fn sort_form(k: Sort) -> u8
    ensures { result ≡ form_of k }
{
    match k {
        Sort::Tags => TAGLIST,
        Sort::Hexes => HEXES,
        Sort::Smalls => SMALLS,
        Sort::Filter => FILTER,
    }
}
