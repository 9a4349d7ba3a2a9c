// Rows 9, 10 and 13 of an event whose parts pass the rows before them.
ghost use Rattle.std.specs.Prelude.{◌≡◌, length, Ok};
ghost use Rattle.wire.specs.Bytes.{same_bytes};
ghost use Rattle.message.specs.Lent.{event_row};
ghost use Rattle.message.specs.declared.Message.TheVariants.{Event};
ghost use Rattle.event.specs.Lent.{said};
ghost use Rattle.event.specs.Inner.{Tested};
ghost use Rattle.event.specs.Answer.{hex_of, hashed_of, short_row, answered, output_after, written_number};
ghost use Rattle.event.specs.Answer.{offered_text_row, offered, offered_out};
ghost use Rattle.event.specs.Sent.{unread_refusal, sent_row_of, sent_text_of, sent_out_of, sent_text_number};

use crate::{Identified, writing};

// SHA-256 of a text, or row 9.
pub(crate) fn hashed(t: &[u8]) -> Identified
    ensures { result ≡ hashed_of t.now }
{
    if wire::MOST_TEXT < t.len() {
        return Identified {
            row: 9,
            id: [0u8; 32],
        };
    }
    let id = digest::digest_of(t).bytes;
    Identified { row: 0, id }
}

// A text from the start of an output, or row 13.
pub(crate) fn give(t: &[u8], out: &mut [u8]) -> Result<usize, u8>
    ensures value { result ≡ answered (short_row t.now out.old) (length t.now) }
    ensures out_after { out.new ≡ output_after (short_row t.now out.old) t.now
        out.old }
{
    if out.len() < t.len() {
        return Err(13);
    }
    Ok(wire::put(out, 0, t))
}

// Whether a string part decodes to the hex of an id.
pub(crate) fn spells_id(b: &[u8], s: message::Span, id: [u8; 32]) -> bool
    ensures { result ≡ same_bytes (said b.now s) (hex_of id) }
{
    let mut hex = [0u8; wire::HEX_LENGTH];
    crate::put_hex(&mut hex, 0, &id);
    spell::spells(wire::piece(b, s.start, s.len), &hex)
}

// Rows 9 and 10 of an event whose parts rows 2 and 4 to 8 let pass; where neither holds, its text stands at the start
// of `t`.
pub(crate) fn rest(b: &[u8], p: message::EventParts, t: &mut [u8]) -> Result<usize, u8>
    requires t_len { length t.old ≡ 4097 }
    requires p_value { event_row b.now p ≡ 0 }
    ensures { Tested b.now p result t.new }
{
    let body = p.body;
    let known = writing::begun(b, body.tags);
    let n = writing::put_whole(t, 0, b, body, known);
    let h = hashed(&t[..n]);
    if h.row != 0 {
        return Err(h.row);
    }
    if spells_id(b, p.id, h.id) {
        return Ok(n);
    }
    Err(10)
}

// The same rows, then 13; where none holds, the text from the start of `out`. It is serialised once and hashed once.
pub(crate) fn rest_text(b: &[u8], p: message::EventParts, out: &mut [u8]) -> Result<usize, u8>
    requires { event_row b.now p ≡ 0 }
    ensures value { result ≡ offered b.now p out.old }
    ensures result_value { written_number result ≡ offered_text_row b.now p out.old }
    ensures out_after { out.new ≡ offered_out b.now p out.old }
{
    let mut t = [0u8; 4097];
    let n = rest(b, p, &mut t)?;
    give(&t[..n], out)
}

// What refuses a message that the reader refused: "gives 5 also if it isn't an EVENT", after rows 1 to 4.
pub(crate) fn unread(m: &[u8], x: shape::Refusal) -> shape::Refusal
    ensures { result ≡ unread_refusal m.now x }
{
    if x.row <= 4 || message::is_event(m) {
        return x;
    }
    shape::plain_refusal(5)
}

// The event of a message that the reader took.
pub(crate) fn sent_event(
    m: &[u8],
    p: message::EventParts,
    out: &mut [u8],
) -> Result<(message::EventParts, usize), shape::Refusal>
    requires { event_row m.now p ≡ 0 }
    ensures value { result ≡ sent_text_of m.now out.old (Ok (Event p)) }
    ensures result_value { sent_text_number result ≡ sent_row_of m.now out.old (Ok (Event p)) }
    ensures out_after { out.new ≡ sent_out_of m.now out.old (Ok (Event p)) }
{
    match rest_text(m, p, out) {
        Ok(n) => Ok((p, n)),
        Err(row) => Err(shape::plain_refusal(row)),
    }
}
