// An event's text: written, read back, hashed.
ghost use Rattle.std.specs.Prelude.{◌≡◌};
ghost use Rattle.capi.specs.Calls.{read_text_row, read_text_out, serialise_row, serialise_out, serialise_length, id_row};
ghost use Rattle.capi.specs.Calls.{id_out};

use crate::digests;
use text::Unread;

// The numbers of a text that is read back.
const TEXT_NUMBERS: usize = 7;

// A text read back alone, and its parts as numbers into `out`: 9, 5, 13 if `out` has room for fewer than seven numbers,
// or 0.
pub fn plavdrosa_read_text(bytes: &[u8], out: &mut [u64]) -> u8
    ensures value { result ≡ read_text_row bytes.now out.old }
    ensures out_after { out.new ≡ read_text_out bytes.now out.old }
{
    match text::read_text(bytes) {
        Err(Unread::TooLarge) => 9,
        Err(Unread::WrongShape) => 5,
        Ok(x) => {
            if out.len() < TEXT_NUMBERS {
                return 13;
            }
            let l = numbers::text_numbers(x);
            numbers::put(out, 0, &l);
            0
        }
    }
}

// The text of the event that the row gives, from the start of `out`, and how many bytes it has into `len`: the row that
// refuses it, 13, or 0. On a refusal both stay as found.
pub fn plavdrosa_serialise(bytes: &[u8], event: &[u64], out: &mut [u8], len: &mut usize) -> u8
    ensures value { result ≡ serialise_row bytes.now event.now out.old }
    ensures out_after { out.new ≡ serialise_out bytes.now event.now out.old }
    ensures len_after { len.new ≡ serialise_length bytes.now event.now out.old
        len.old }
{
    let p = numbers::event_from(event);
    let body = p.body;
    match event::serialise(bytes, body, out) {
        Ok(n) => {
            *len = n;
            0
        }
        Err(r) => r,
    }
}

// The id of the event that the row gives, into the first 32 bytes of `out`: the row that refuses it, 13, or 0.
pub fn plavdrosa_id(bytes: &[u8], event: &[u64], out: &mut [u8]) -> u8
    ensures value { result ≡ id_row bytes.now event.now out.old }
    ensures out_after { out.new ≡ id_out bytes.now event.now out.old }
{
    let p = numbers::event_from(event);
    let body = p.body;
    let x = event::id_of(bytes, body);
    let row = x.row;
    if row != 0 {
        return row;
    }
    let id = x.id;
    digests::put_digest(out, id)
}
