// The slot that an event would fill: id and signature from their hex, the numbers of the text, the text; or the row that
// refuses the event.
ghost use Rattle.std.specs.Prelude.{◌≡◌, true, ◌+◌, ◌≤◌, length, replicate};
ghost use Rattle.wire.specs.Limits.{hex_length, sig_length};
ghost use Rattle.wire.specs.Bytes.{part, is_hex};
ghost use Rattle.wire.specs.Put.{Puts};
ghost use Rattle.spell.specs.Spell.{hex_val, unhex, all};
ghost use Rattle.text.specs.Event.{Event};
ghost use Rattle.text.specs.Read.{read, read_text};
ghost use Rattle.text.specs.Answer.{text_parts};
ghost use Rattle.text.specs.Kinds.{class_of};
ghost use Rattle.shape.specs.Offsets.{refusal_for};
ghost use Rattle.event.specs.Lent.{said};
ghost use Rattle.event.specs.Answer.{offered_row};
ghost use Rattle.table.specs.Layout.{slot_size, text_place, slot_bytes};
ghost use Rattle.table.specs.Offer.{parts_of, message_offer_row, held_of};
ghost use Rattle.offers.specs.Taken.{Makes};
ghost use Rattle.offers.specs.Inner.{SpellsHex, if_addressable, slot_numbers};
ghost use Rattle.offers.specs.Inner.{head_of};

// The number of a digit of lower-case hex, told with no branch.
pub(crate) fn digit(x: u8) -> u8
    requires { is_hex x ≡ true }
    ensures { (result ≡ hex_val x) × (result ≤ 15) }
{
    x % 16 + 9 * (x / 64)
}

// The bytes that pairs of such digits stand for. No way out of the loop, so that the compiler takes many at a time. By
// index: two bytes are read for each that is written.
pub(crate) fn put_digits(out: &mut [u8], at: usize, s: &[u8]) -> usize
    requires s_value { all is_hex s.now ≡ true }
    requires s_in_bounds { at + length s.now ≤ length out.old }
    ensures { Puts out.old at (unhex s.now) result out.new }
{
    let n = s.len() / 2;
    for k in 0..n {
        out[at + k] = digit(s[2 * k]) * 16 + digit(s[2 * k + 1]);
    }
    at + n
}

// The bytes of the n hex digits that a part spells. A part of n bytes has no escapes: they are the digits.
pub(crate) fn put_spelled(out: &mut [u8], at: usize, b: &[u8], p: message::Span, n: usize) -> usize
    requires spells_hex { SpellsHex b.now p n }
    requires n_le_sig_length { (n ≤ sig_length) × (at + n ≤ length out.old) }
    ensures { Puts out.old at (unhex (said b.now p)) result out.new }
{
    let s = wire::piece(b, p.start, p.len);
    if s.len() == n {
        return put_digits(out, at, s);
    }
    let mut hex = [0u8; wire::SIG_LENGTH];
    let k = spell::put_decoded(&mut hex, 0, s);
    put_digits(out, at, &hex[..k])
}

// A number of d's place: 0 unless the kind is addressable.
pub(crate) fn d_if(kind: u16, x: usize) -> usize
    ensures { result ≡ if_addressable (class_of kind) x }
{
    match text::class_of(kind) {
        text::Class::Addressable => x,
        text::Class::Ephemeral | text::Class::Regular | text::Class::Replaceable => 0,
    }
}

// The numbers of a slot, by what was read from its text of n bytes.
pub(crate) fn put_numbers(out: &mut [u8], at: usize, n: usize, t: text::Text) -> usize
    ensures { Puts out.old at (slot_numbers t n) result out.new }
{
    let a = wire::put_le(out, at, 8, wire::to_unsigned(t.time));
    let b = wire::put_le(out, a, 2, t.kind as u64);
    let c = wire::put_le(out, b, 2, n as u64);
    let d = wire::put_le(out, c, 2, d_if(t.kind, t.d) as u64);
    wire::put_le(out, d, 2, d_if(t.kind, t.d_len) as u64)
}

// Id, signature and numbers, before the text.
pub(crate) fn put_head(
    out: &mut [u8],
    b: &[u8],
    p: message::EventParts,
    n: usize,
    t: text::Text,
) -> usize
    requires spells_hex { SpellsHex b.now p.id hex_length × SpellsHex b.now p.sig sig_length }
    requires slot_size_in_bounds { slot_size ≤ length out.old }
    ensures { Puts out.old 0 (head_of b.now p n t) result out.new }
{
    let id = p.id;
    let sig = p.sig;
    let a = put_spelled(out, 0, b, id, wire::HEX_LENGTH);
    let c = put_spelled(out, a, b, sig, wire::SIG_LENGTH);
    put_numbers(out, c, n, t)
}

// The head of a slot in which the text, of n bytes, is written: its numbers are read back from there.
pub(crate) fn put_fields(out: &mut [u8], b: &[u8], p: message::EventParts, n: usize) -> usize
    requires spells_hex { SpellsHex b.now p.id hex_length × SpellsHex b.now p.sig sig_length }
    requires slot_size_in_bounds { slot_size ≤ length out.old }
    ensures { (e : Event) → read_text (part out.old text_place n) ≡ read e →
        Puts out.old 0 (head_of b.now p n (text_parts e)) result out.new }
{
    match text::read_text(wire::piece(out, slots::TEXT_PLACE, n)) {
        Ok(t) => put_head(out, b, p, n, t),
        Err(_) => 0,
    }
}

// The whole slot, in bytes that are zero; or the lowest of rows 2 and 4 to 10 that refuses the parts. The slot's own
// place for the text is lent on, so the text is serialised once and hashed once.
pub(crate) fn make_slot(out: &mut [u8], b: &[u8], p: message::EventParts) -> u8
    requires { out.old ≡ replicate slot_size 0 }
    ensures value { result ≡ offered_row b.now p }
    ensures out_after { result ≡ 0 → out.new ≡ slot_bytes (held_of b.now p) }
{
    match event::offered_text(b, p, &mut out[slots::TEXT_PLACE..slots::SLOT_SIZE]) {
        Ok(n) => {
            put_fields(out, b, p, n);
            0
        }
        Err(row) => row,
    }
}

// The same, of the event of a message, with its parts; or the lowest of rows 1 to 10: the reader tests its parts, and
// nobody tests them again.
pub(crate) fn make_event(
    out: &mut [u8],
    m: &[u8],
) -> Result<(message::EventParts, usize), shape::Refusal>
    requires { out.old ≡ replicate slot_size 0 }
    ensures { Makes m.now result out.new }
{
    let (p, n) = event::sent_text(m, &mut out[slots::TEXT_PLACE..slots::SLOT_SIZE])?;
    put_fields(out, m, p, n);
    Ok((p, n))
}

// What refuses the message alone, row 0 where none does.
pub(crate) fn make_from(out: &mut [u8], m: &[u8]) -> shape::Refusal
    requires { out.old ≡ replicate slot_size 0 }
    ensures value { result ≡ refusal_for m.now (message_offer_row m.now) }
    ensures out_after { result.row ≡ 0 →
        out.new ≡ slot_bytes (held_of m.now (parts_of m.now)) }
{
    match make_event(out, m) {
        Ok(_) => shape::plain_refusal(0),
        Err(r) => r,
    }
}
