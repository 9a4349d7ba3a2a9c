// Messages tested, and read into rows of numbers.
ghost use Rattle.std.specs.Prelude.{◌≡◌, length};
ghost use Rattle.rows.specs.Rows.{text_row};
ghost use Rattle.shape.specs.Rows.{message_row};
ghost use Rattle.shape.specs.Offsets.{refusal_of};
ghost use Rattle.numbers.specs.Numbers.{request_numbers};
ghost use Rattle.capi.specs.Calls.{lent_row, lent_out, offset_or, read_row, read_out};

use message::{Message, ReqParts};
use shape::Refusal;

// The lowest of rows 1 to 4 that holds of a text, or 0.
pub fn plavdrosa_text_row(bytes: &[u8]) -> u8
    ensures { result ≡ text_row bytes.now }
{
    rows::text_row(bytes)
}

// The offset that a refusal carries, into `offset`, which stays where there is none.
pub(crate) fn put_offset(offset: &mut usize, x: Refusal)
    ensures { offset.new ≡ offset_or x offset.old }
{
    if let Some(p) = x.offset {
        *offset = p;
    }
}

// Rows 1 to 8 of a client message: the lowest that holds, or 0. With rows 6 and 7 the offset of the earliest number, or
// opening quote of a string, that breaks that row goes into `offset`, which else stays as found.
pub fn plavdrosa_message_row(bytes: &[u8], offset: &mut usize) -> u8
    ensures value { result ≡ message_row bytes.now }
    ensures offset_after { offset.new ≡ offset_or (refusal_of bytes.now) offset.old }
{
    let r = shape::message_refusal(bytes);
    put_offset(offset, r);
    r.row
}

// Numbers from the start of `out`: 13 if it has no room for them, or 0.
fn put_row(out: &mut [u64], l: &[u64]) -> u8
    ensures value { result ≡ lent_row 0 (length l.now) out.old }
    ensures out_after { out.new ≡ lent_out 0 (length l.now) l.now out.old }
{
    if out.len() < l.len() {
        return 13;
    }
    numbers::put(out, 0, l);
    0
}

fn put_request(out: &mut [u64], s: &[u8], p: ReqParts) -> u8
    ensures value { result ≡ lent_row 0 (length (request_numbers s.now p)) out.old }
    ensures out_after { out.new ≡ lent_out 0 (length (request_numbers s.now p))
        (request_numbers s.now p) out.old }
{
    let subscription = p.subscription;
    let fs = message::filters_at(s, p.filters);
    let parts = fs.parts;
    let n = fs.n;
    let head = [
        2,
        subscription.start as u64,
        subscription.len as u64,
        n as u64,
    ];
    let mut l = [0u64; 44];
    let a = numbers::put(&mut l, 0, &head);
    let e = numbers::put_filters(&mut l, a, parts, n);
    put_row(out, &l[..e])
}

// A client message read, and its parts as numbers into `out`: the lowest of rows 1 to 8 that holds, 13 if `out` has no
// room for them, or 0. The first number says what was read: 1 an EVENT (12 numbers), 2 a REQ (4, of which the last says
// how many filters follow, and 10 a filter), 3 a CLOSE (3). `offset` is as plavdrosa_message_row leaves it.
pub fn plavdrosa_read(bytes: &[u8], out: &mut [u64], offset: &mut usize) -> u8
    ensures value { result ≡ read_row bytes.now out.old }
    ensures out_after { out.new ≡ read_out bytes.now out.old }
    ensures offset_after { offset.new ≡ offset_or (refusal_of bytes.now) offset.old }
{
    match message::read(bytes) {
        Ok(Message::Event(p)) => {
            let l = numbers::event_numbers(p);
            put_row(out, &l)
        }
        Ok(Message::Req(p)) => put_request(out, bytes, p),
        Ok(Message::Close(p)) => {
            let l = [3, p.start as u64, p.len as u64];
            put_row(out, &l)
        }
        Err(r) => {
            put_offset(offset, r);
            r.row
        }
    }
}
