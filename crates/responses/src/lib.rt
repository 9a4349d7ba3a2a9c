// One message answered into a lent output, over a lent table; and the reply to a refused message alone. Every reply's
// length is known before its first byte is written.
#![tactic(auto)]

ghost use Rattle.std.specs.Prelude.{◌≡◌, true, ◌+◌, ◌≤◌, length, Ok};
ghost use Rattle.wire.specs.Put.{Puts};
ghost use Rattle.message.specs.Read.{read_of};
ghost use Rattle.message.specs.declared.Message.TheVariants as message;
ghost use Rattle.event.specs.Lent.{said};
ghost use Rattle.event.specs.Answer.{written_number};
ghost use Rattle.reply.specs.Replies.{string_json, reason_of, offset_text, refusal_reason};
ghost use Rattle.program.specs.Respond.{response, responded, respond_row, responded_out, responded_table};
ghost use Rattle.replies.specs.Inner.{Room};
ghost use Rattle.responses.specs.Refused.{refused_reply, refused_row, refused_out};
ghost use Rattle.responses.specs.Inner.{open_text, end_text, verdict_text, ok_text, closed_text, notice_text};
ghost use Rattle.responses.specs.Inner.{naming_for, naming_text, ended, eose_line, answer_text, AllHeld, Said};

use message::{EventParts, Message, Named, Naming, ReqParts, Span};
use offers::Taken;
use shape::Refusal;
use table::Offered;

// How long the reply text of each row is, between quotes, from row 0 on.
const LENGTHS: [usize; 13] = [2, 27, 20, 19, 29, 22, 17, 14, 26, 26, 28, 18, 16];

// No OK to an EVENT that was read is longer, its 0A included.
const LONGEST_OK: usize = 116;

// ---- pieces of a reply
// The reply text of a row behind a quote; rows 0, 13 and later have none.
fn put_row(out: &mut [u8], at: usize, row: u8) -> usize
    ensures { Puts out.old at (open_text row) result out.new }
{
    match row {
        1 => wire::put(out, at, b"\"invalid: message too long"),
        2 => wire::put(out, at, b"\"invalid: not UTF-8"),
        3 => wire::put(out, at, b"\"invalid: not JSON"),
        4 => wire::put(out, at, b"\"invalid: string not allowed"),
        5 => wire::put(out, at, b"\"invalid: wrong shape"),
        6 => wire::put(out, at, b"\"invalid: number"),
        7 => wire::put(out, at, b"\"invalid: hex"),
        8 => wire::put(out, at, b"\"invalid: count or length"),
        9 => wire::put(out, at, b"\"invalid: event too large"),
        10 => wire::put(out, at, b"\"invalid: id does not match"),
        11 => wire::put(out, at, b"\"error: bad table"),
        12 => wire::put(out, at, b"\"error: no room"),
        _ => wire::put(out, at, b"\""),
    }
}

// How long it is between quotes.
fn row_len(row: u8) -> usize
    ensures { (result ≡ length (reason_of row) + 2) × (result ≤ 29) }
{
    if row < 13 {
        return LENGTHS[row as usize];
    }
    2
}

// ` at ` and the decimal offset, where there is one, and the quote behind the reply text.
fn put_offset(out: &mut [u8], at: usize, x: Option<usize>) -> usize
    ensures { Puts out.old at (end_text x) result out.new }
{
    match x {
        None => wire::put(out, at, b"\""),
        Some(p) => {
            let a = wire::put(out, at, b" at ");
            let b = numeral::put_natural(out, a, p as u64);
            wire::put(out, b, b"\"")
        }
    }
}

// How much longer the reply text is by it.
fn offset_len(x: Option<usize>) -> usize
    ensures { (result ≡ length (offset_text x)) × (result ≤ 24) }
{
    match x {
        None => 0,
        Some(p) => 4 + numeral::natural_len(p as u64),
    }
}

// The reply text of a refusal, between quotes.
fn put_reason(out: &mut [u8], at: usize, x: Refusal) -> usize
    ensures { Puts out.old at (string_json (refusal_reason x)) result out.new }
{
    let row = x.row;
    let offset = x.offset;
    let a = put_row(out, at, row);
    put_offset(out, a, offset)
}

// How long it is.
fn reason_len(x: Refusal) -> usize
    ensures { (result ≡ length (string_json (refusal_reason x))) × (result ≤ 53) }
{
    let row = x.row;
    let offset = x.offset;
    row_len(row) + offset_len(offset)
}

// ACCEPTED,REASON of an OK, by what the offer was answered.
fn put_verdict(out: &mut [u8], at: usize, a: Result<Offered, Refusal>) -> usize
    ensures { Puts out.old at (verdict_text a) result out.new }
{
    match a {
        Ok(Offered::Ephemeral) => wire::put(out, at, b"true,\"\""),
        Ok(Offered::Duplicate) => wire::put(
            out,
            at,
            b"true,\"duplicate: already have this event\"",
        ),
        Ok(Offered::Older) => wire::put(out, at, b"true,\"duplicate: have a newer version\""),
        Ok(Offered::Stored) => wire::put(out, at, b"true,\"\""),
        Err(x) => {
            let b = wire::put(out, at, b"false,");
            put_reason(out, b, x)
        }
    }
}

fn verdict_len(a: Result<Offered, Refusal>) -> usize
    ensures { (result ≡ length (verdict_text a)) × (result ≤ 59) }
{
    match a {
        Ok(Offered::Ephemeral) => 7,
        Ok(Offered::Duplicate) => 41,
        Ok(Offered::Older) => 38,
        Ok(Offered::Stored) => 7,
        Err(x) => 6 + reason_len(x),
    }
}

// Whether m and n bytes have room. By subtraction: the sum may be more than a number holds.
fn has_room(room: usize, m: usize, n: usize) -> bool
    ensures { Room (m + n) room result }
{
    if room < m {
        return false;
    }
    n <= room - m
}

// ---- the short replies
// ["OK",ID,ACCEPTED,REASON]
fn put_ok(out: &mut [u8], m: &[u8], id: Span, a: Result<Offered, Refusal>) -> usize
    ensures { Puts out.old 0 (ok_text (said m.now id) a) result out.new }
{
    let b = wire::put(out, 0, b"[\"OK\",");
    let c = event::put_part(out, b, m, id);
    let d = wire::put(out, c, b",");
    let e = put_verdict(out, d, a);
    wire::put(out, e, b"]")
}

// ["CLOSED",SUB,REASON]. Like `put_ok` but for the head and what is put last: one function for both would be handed these
// two, and be no plainer.
fn put_closed(out: &mut [u8], m: &[u8], sub: Span, x: Refusal) -> usize
    ensures { Puts out.old 0 (closed_text (said m.now sub) x) result out.new }
{
    let b = wire::put(out, 0, b"[\"CLOSED\",");
    let c = event::put_part(out, b, m, sub);
    let d = wire::put(out, c, b",");
    let e = put_reason(out, d, x);
    wire::put(out, e, b"]")
}

// ["NOTICE",REASON]
fn put_notice(out: &mut [u8], x: Refusal) -> usize
    ensures { Puts out.old 0 (notice_text x) result out.new }
{
    let b = wire::put(out, 0, b"[\"NOTICE\",");
    let c = put_reason(out, b, x);
    wire::put(out, c, b"]")
}

// ["EOSE",SUB] and 0A
fn put_eose(out: &mut [u8], at: usize, m: &[u8], sub: Span) -> usize
    ensures { Puts out.old at (eose_line (said m.now sub)) result out.new }
{
    let b = wire::put(out, at, b"[\"EOSE\",");
    let c = event::put_part(out, b, m, sub);
    wire::put(out, c, b"]\n")
}

// ---- a refused message
// What the reply to a refusal by a row says: the offset goes with the message's own row, and "Rows 1-5 give NOTICE".
fn naming_for(m: &[u8], row: u8) -> Naming
    ensures { result ≡ naming_for m.now row }
{
    let alone = shape::plain_refusal(row);
    if row <= 5 {
        return Naming {
            refusal: alone,
            named: Named::Nothing,
        };
    }
    let x = message::names(m);
    let own = x.refusal;
    if own.row == row {
        return x;
    }
    let named = x.named;
    Naming {
        refusal: alone,
        named,
    }
}

// "OK with false if the id field is 64 lower-case hex; CLOSED for a REQ whose subscription id is within bounds;
// otherwise NOTICE"
fn put_refusal(out: &mut [u8], m: &[u8], x: Naming) -> usize
    ensures { Puts out.old 0 (naming_text m.now x) result out.new }
{
    let refusal = x.refusal;
    let named = x.named;
    match named {
        Named::Id(p) => put_ok(out, m, p, Err(refusal)),
        Named::Subscription(p) => put_closed(out, m, p, refusal),
        Named::Nothing => put_notice(out, refusal),
    }
}

fn refusal_fits(m: &[u8], x: Naming, room: usize) -> bool
    ensures { Room (length (naming_text m.now x)) room result }
{
    let refusal = x.refusal;
    let named = x.named;
    let k = reason_len(refusal);
    match named {
        Named::Id(p) => has_room(room, 16 + k, event::part_len(m, p)),
        Named::Subscription(p) => has_room(room, 14 + k, event::part_len(m, p)),
        Named::Nothing => has_room(room, 11 + k, 0),
    }
}

// The reply that a refused message gets, without 0A (NOTICE, OK with false, or CLOSED), for a row of 01's table.
pub fn refused(m: &[u8], row: u8, out: &mut [u8]) -> Result<usize, u8>
    ensures value { result ≡ refused_reply m.now row out.old }
    ensures result_value { written_number result ≡ refused_row m.now row out.old }
    ensures out_after { out.new ≡ refused_out m.now row out.old }
{
    let x = naming_for(m, row);
    if refusal_fits(m, x, out.len()) {
        return Ok(put_refusal(out, m, x));
    }
    Err(13)
}

// ---- one message
// The same reply, with 0A, where what it says is known.
fn respond_refused(m: &[u8], x: Naming, out: &mut [u8]) -> Result<usize, u8>
    ensures { Said (ended (naming_text m.now x)) out.old result out.new }
{
    let room = out.len();
    if room == 0 {
        return Err(13);
    }
    if refusal_fits(m, x, room - 1) {
        let a = put_refusal(out, m, x);
        return Ok(wire::put(out, a, b"\n"));
    }
    Err(13)
}

// Whether the OK to an EVENT that was read has room. Its length depends on the verdict, which is asked for before the
// offer only where the longest OK has no room.
fn ok_fits(table: &[u8], m: &[u8], p: EventParts, room: usize) -> bool
    requires { read_of m.now ≡ Ok (message.Event p) }
    ensures { Room (length (response table.now m.now)) room result }
{
    if LONGEST_OK <= room {
        return true;
    }
    75 + verdict_len(offers::judge_message(table, m)) <= room
}

// An EVENT that was read: the table stays as found where the reply has no room.
fn respond_event(table: &mut [u8], m: &[u8], p: EventParts, out: &mut [u8]) -> Result<usize, u8>
    requires { read_of m.now ≡ Ok (message.Event p) }
    ensures said { Said (response table.old m.now) out.old result out.new }
    ensures table_after { table.new ≡ responded_table table.old m.now out.old }
{
    if ok_fits(table, m, p, out.len()) {
        let id = p.id;
        let a = offers::offer_parts(table, m, p);
        let n = put_ok(out, m, id, a);
        return Ok(wire::put(out, n, b"\n"));
    }
    Err(13)
}

// The EVENTs of held slots, then EOSE.
fn put_answer(table: &[u8], m: &[u8], sub: Span, ks: &[u16], out: &mut [u8]) -> Result<usize, u8>
    requires { AllHeld table.now ks.now }
    ensures { Said (answer_text table.now (said m.now sub) ks.now)
        out.old result out.new }
{
    let id = wire::piece(m, sub.start, sub.len);
    let Some(room) = slot_replies::events_left(table, id, ks, out.len()) else {
        return Err(13);
    };
    if has_room(room, 12, event::string_len(id)) {
        let a = slot_replies::put_events(out, 0, table, id, ks);
        return Ok(put_eose(out, a, m, sub));
    }
    Err(13)
}

// A REQ that was read.
fn respond_request(table: &[u8], m: &[u8], q: ReqParts, out: &mut [u8]) -> Result<usize, u8>
    requires { read_of m.now ≡ Ok (message.Req q) }
    ensures { Said (response table.now m.now) out.old result out.new }
{
    let sub = q.subscription;
    let fs = message::filters_at(m, q.filters);
    let parts = fs.parts;
    let n = fs.n;
    let mut row = [0u16; wire::MOST_SLOTS];
    match matching::answer(table, m, parts, n, &mut row) {
        Ok(k) => put_answer(table, m, sub, &row[..k], out),
        Err(k) => {
            let refusal = shape::plain_refusal(k);
            let named = Named::Subscription(sub);
            respond_refused(m, Naming { refusal, named }, out)
        }
    }
}

// Whether a message is taken before it is known what it is: the longest OK has room, and the message begins as EVENTs
// mostly do. Either way it gets the same reply.
fn taken_first(m: &[u8], room: usize) -> bool
    ensures { result ≡ true → 116 ≤ room }
{
    if room < LONGEST_OK {
        return false;
    }
    if m.len() < 3 {
        return false;
    }
    m[2] == b'E'
}

// One message, where the longest OK has room: an EVENT is offered as it is read, and its parts are tested once.
fn respond_taken(table: &mut [u8], m: &[u8], out: &mut [u8]) -> Result<usize, u8>
    requires { 116 ≤ length out.old }
    ensures value { result ≡ responded table.old m.now out.old }
    ensures result_value { written_number result ≡ respond_row table.old m.now out.old }
    ensures out_after { out.new ≡ responded_out table.old m.now out.old }
    ensures table_after { table.new ≡ responded_table table.old m.now out.old }
{
    match offers::take(table, m) {
        Ok(Taken::Event(id, a)) => {
            let n = put_ok(out, m, id, a);
            Ok(wire::put(out, n, b"\n"))
        }
        Ok(Taken::Req(q)) => respond_request(table, m, q, out),
        Ok(Taken::Close(_)) => Ok(0),
        Err(x) => respond_refused(m, naming_for(m, x.row), out),
    }
}

// One message answered, each reply ended with 0A, and the table updated. 13 is the only refusal; table and output then
// stay as found.
pub fn respond(table: &mut [u8], m: &[u8], out: &mut [u8]) -> Result<usize, u8>
    ensures value { result ≡ responded table.old m.now out.old }
    ensures result_value { written_number result ≡ respond_row table.old m.now out.old }
    ensures out_after { out.new ≡ responded_out table.old m.now out.old }
    ensures table_after { table.new ≡ responded_table table.old m.now out.old }
{
    if taken_first(m, out.len()) {
        return respond_taken(table, m, out);
    }
    match message::read(m) {
        Ok(Message::Event(p)) => respond_event(table, m, p, out),
        Ok(Message::Req(q)) => respond_request(table, m, q, out),
        Ok(Message::Close(_)) => Ok(0),
        Err(x) => respond_refused(m, naming_for(m, x.row), out),
    }
}
