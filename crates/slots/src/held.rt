// One held slot: its text and its d, and whether its bytes are sound.
ghost use Rattle.std.specs.Prelude.{◌≡◌};
ghost use Rattle.text.specs.Event.{all};
ghost use Rattle.text.specs.Kinds.{class_of};
ghost use Rattle.table.specs.Layout.{text_in};
ghost use Rattle.table.specs.Sound.{slot_sound};
ghost use Rattle.slots.specs.Slots.{d_agrees, agrees_text, d_bytes_in, slots_from};

use crate::{
    D_LENGTH_PLACE, D_OFFSET_PLACE, KIND_PLACE, LENGTH_PLACE, TEXT_PLACE, TIME_PLACE, plain, slot,
};

// The text of a slot.
pub(crate) fn text_of(s: &[u8]) -> &[u8]
    ensures { result.now ≡ text_in s.now }
{
    wire::piece(s, TEXT_PLACE, wire::le_at(s, LENGTH_PLACE, 2) as usize)
}

// d's escaped bytes, of a slot.
pub(crate) fn d_of(s: &[u8]) -> &[u8]
    ensures { result.now ≡ d_bytes_in s.now }
{
    let at = wire::le_at(s, D_OFFSET_PLACE, 2) as usize;
    let len = wire::le_at(s, D_LENGTH_PLACE, 2) as usize;
    wire::piece(text_of(s), at, len)
}

// Whether d's place in a slot is the one that the kind asks for. No ephemeral kind is held.
fn d_agrees(at: u64, len: u64, kind: u16, d: u64, d_len: u64) -> bool
    ensures { result ≡ d_agrees (class_of kind) at len d d_len }
{
    match text::class_of(kind) {
        text::Class::Addressable => (at, len) == (d, d_len),
        text::Class::Ephemeral => false,
        text::Class::Regular | text::Class::Replaceable => (at, len) == (0, 0),
    }
}

// Whether the fields of a slot agree with what was read from its text: time, kind and d's place.
fn agrees(s: &[u8], t: text::Text) -> bool
    ensures { result ≡ agrees_text s.now t }
{
    wire::le_at(s, TIME_PLACE, 8) == wire::to_unsigned(t.time)
        && wire::le_at(s, KIND_PLACE, 2) == t.kind as u64
        && d_agrees(
            wire::le_at(s, D_OFFSET_PLACE, 2),
            wire::le_at(s, D_LENGTH_PLACE, 2),
            t.kind,
            t.d as u64,
            t.d_len as u64,
        )
}

// Whether the bytes of a held slot are sound.
fn slot_sound(s: &[u8]) -> bool
    ensures { result ≡ slot_sound s.now }
{
    let n = wire::le_at(s, LENGTH_PLACE, 2) as usize;
    if wire::MOST_TEXT < n {
        return false;
    }
    match text::read_text(wire::piece(s, TEXT_PLACE, n)) {
        Ok(t) => { agrees(s, t) && plain::is_zero(wire::piece(s, TEXT_PLACE + n, s.len())) }
        Err(_) => false,
    }
}

pub(crate) fn slots_sound(table: &[u8], c: usize) -> bool
    ensures { result ≡ all slot_sound (slots_from table.now 0 c) }
{
    for k in 0..c {
        if !slot_sound(slot(table, k)) {
            return false;
        }
    }
    true
}
