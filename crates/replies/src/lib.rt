// Replies written into lent bytes, from lent parts. 01: "Writers copy byte-string heads such as ["OK", and reason
// texts". Every row is tested before the first byte is written.
#![tactic(auto)]

ghost use Rattle.std.specs.Prelude.{◌≡◌, ◌+◌, ◌≤◌, length};
ghost use Rattle.wire.specs.Put.{Puts};
ghost use Rattle.event.specs.Lent.{said, event_of};
ghost use Rattle.event.specs.Answer.{written_number};
ghost use Rattle.reply.specs.Replies.{truth, reply_text};
ghost use Rattle.reply.specs.Lent.{reply_of, parts_row, reply_row, replied, replied_out};
ghost use Rattle.replies.specs.Inner.{front_text, middle_text, back_text, ok_parts, event_parts, eose_parts};
ghost use Rattle.replies.specs.Inner.{closed_parts, notice_parts, Room};

use message::{Body, EventParts, Span};
use reply::ReplyParts;

// true or false
fn put_truth(out: &mut [u8], at: usize, accepted: bool) -> usize
    ensures { Puts out.old at (truth accepted) result out.new }
{
    if accepted {
        return wire::put(out, at, b"true");
    }
    wire::put(out, at, b"false")
}

fn truth_len(accepted: bool) -> usize
    ensures { (result ≡ length (truth accepted)) × (result ≤ 5) }
{
    if accepted {
        return 4;
    }
    5
}

// ["OK",ID,ACCEPTED,REASON]
fn put_ok(out: &mut [u8], b: &[u8], id: Span, accepted: bool, reason: Span) -> usize
    ensures { Puts out.old 0 (reply_text (reply_of b.now (ok_parts id accepted reason))) result
        out.new }
{
    let a = wire::put(out, 0, b"[\"OK\",");
    let c = event::put_part(out, a, b, id);
    let d = wire::put(out, c, b",");
    let e = put_truth(out, d, accepted);
    let f = wire::put(out, e, b",");
    let g = event::put_part(out, f, b, reason);
    wire::put(out, g, b"]")
}

// ["EOSE",SUB]
fn put_eose(out: &mut [u8], b: &[u8], sub: Span) -> usize
    ensures { Puts out.old 0 (reply_text (reply_of b.now (eose_parts sub))) result
        out.new }
{
    let a = wire::put(out, 0, b"[\"EOSE\",");
    let c = event::put_part(out, a, b, sub);
    wire::put(out, c, b"]")
}

// ["NOTICE",REASON]
fn put_notice(out: &mut [u8], b: &[u8], reason: Span) -> usize
    ensures { Puts out.old 0 (reply_text (reply_of b.now (notice_parts reason))) result
        out.new }
{
    let a = wire::put(out, 0, b"[\"NOTICE\",");
    let c = event::put_part(out, a, b, reason);
    wire::put(out, c, b"]")
}

// ["CLOSED",SUB,REASON]
fn put_closed(out: &mut [u8], b: &[u8], sub: Span, reason: Span) -> usize
    ensures { Puts out.old 0 (reply_text (reply_of b.now (closed_parts sub reason))) result
        out.new }
{
    let a = wire::put(out, 0, b"[\"CLOSED\",");
    let c = event::put_part(out, a, b, sub);
    let d = wire::put(out, c, b",");
    let e = event::put_part(out, d, b, reason);
    wire::put(out, e, b"]")
}

// ["EVENT",SUB,{"id":ID,"pubkey":PUBKEY
fn put_front(out: &mut [u8], b: &[u8], sub: Span, id: Span, p: Body) -> usize
    ensures { Puts out.old 0 (front_text (said b.now sub) (said b.now id)
        (event_of b.now p)) result out.new }
{
    let pubkey = p.pubkey;
    let a = wire::put(out, 0, b"[\"EVENT\",");
    let c = event::put_part(out, a, b, sub);
    let d = wire::put(out, c, b",{\"id\":");
    let e = event::put_part(out, d, b, id);
    let f = wire::put(out, e, b",\"pubkey\":");
    event::put_part(out, f, b, pubkey)
}

// ,"created_at":TIME,"kind":KIND,"tags":TAGS
fn put_middle(out: &mut [u8], at: usize, b: &[u8], p: Body) -> usize
    ensures { Puts out.old at (middle_text (event_of b.now p)) result out.new }
{
    let time = p.created_at;
    let kind = event::kind_of(p.kind);
    let tags = p.tags;
    let a = wire::put(out, at, b",\"created_at\":");
    let c = numeral::put_decimal(out, a, time);
    let d = wire::put(out, c, b",\"kind\":");
    let e = numeral::put_natural(out, d, kind);
    let f = wire::put(out, e, b",\"tags\":");
    event::put_tags(out, f, b, tags)
}

// ,"content":CONTENT,"sig":SIG}]
fn put_back(out: &mut [u8], at: usize, b: &[u8], p: Body, sig: Span) -> usize
    ensures { Puts out.old at (back_text (event_of b.now p) (said b.now sig)) result
        out.new }
{
    let content = p.content;
    let a = wire::put(out, at, b",\"content\":");
    let c = event::put_part(out, a, b, content);
    let d = wire::put(out, c, b",\"sig\":");
    let e = event::put_part(out, d, b, sig);
    wire::put(out, e, b"}]")
}

// ["EVENT",SUB,EVENT]
fn put_event(out: &mut [u8], b: &[u8], sub: Span, p: EventParts) -> usize
    ensures { Puts out.old 0 (reply_text (reply_of b.now (event_parts sub p))) result
        out.new }
{
    let id = p.id;
    let body = p.body;
    let sig = p.sig;
    let a = put_front(out, b, sub, id, body);
    let c = put_middle(out, a, b, body);
    put_back(out, c, b, body, sig)
}

// The reply that the parts spell, from the start of `out`.
fn put_reply(out: &mut [u8], b: &[u8], p: ReplyParts) -> usize
    ensures { Puts out.old 0 (reply_text (reply_of b.now p)) result out.new }
{
    match p {
        ReplyParts::Ok(id, accepted, reason) => put_ok(out, b, id, accepted, reason),
        ReplyParts::Event(sub, e) => put_event(out, b, sub, e),
        ReplyParts::Eose(sub) => put_eose(out, b, sub),
        ReplyParts::Closed(sub, reason) => put_closed(out, b, sub, reason),
        ReplyParts::Notice(reason) => put_notice(out, b, reason),
    }
}

// Rows 2 and 4 to 9 of an EVENT.
fn event_row(b: &[u8], sub: Span, p: EventParts) -> u8
    ensures { result ≡ parts_row b.now (event_parts sub p) }
{
    let body = p.body;
    let row = message::lower_row(message::subscription_row(b, sub), message::event_row(b, p));
    if row != 0 {
        return row;
    }
    if wire::MOST_TEXT < event::text_len(b, body) {
        return 9;
    }
    0
}

// Rows 2 and 4 to 9 of the parts.
fn parts_row(b: &[u8], p: ReplyParts) -> u8
    ensures { result ≡ parts_row b.now p }
{
    match p {
        ReplyParts::Ok(id, _, reason) => {
            message::lower_row(
                message::hex_row(b, id, wire::HEX_LENGTH),
                message::string_row(b, reason),
            )
        }
        ReplyParts::Event(sub, e) => event_row(b, sub, e),
        ReplyParts::Eose(sub) => message::subscription_row(b, sub),
        ReplyParts::Closed(sub, reason) => {
            message::lower_row(
                message::subscription_row(b, sub),
                message::string_row(b, reason),
            )
        }
        ReplyParts::Notice(reason) => message::string_row(b, reason),
    }
}

// Whether a text of `fixed`, m and n bytes has room. By subtraction: the sum may be more than a number holds.
fn has_room(room: usize, fixed: usize, m: usize, n: usize) -> bool
    ensures { Room (fixed + m + n) room result }
{
    if room < fixed {
        return false;
    }
    if room - fixed < m {
        return false;
    }
    n <= room - fixed - m
}

// Whether an EVENT has room: it is 266 bytes longer than its text and the subscription id, as these stand in a reply.
fn event_fits(b: &[u8], sub: Span, p: EventParts, room: usize) -> bool
    requires { parts_row b.now (event_parts sub p) ≡ 0 }
    ensures { Room (length (reply_text (reply_of b.now (event_parts sub p)))) room result }
{
    let body = p.body;
    has_room(room, 266, event::json_len(b, body), event::part_len(b, sub))
}

// Whether the reply has room; its parts are tested.
fn reply_fits(b: &[u8], p: ReplyParts, room: usize) -> bool
    requires { parts_row b.now p ≡ 0 }
    ensures { Room (length (reply_text (reply_of b.now p))) room result }
{
    match p {
        ReplyParts::Ok(id, accepted, reason) => {
            has_room(
                room,
                13 + truth_len(accepted),
                event::part_len(b, id),
                event::part_len(b, reason),
            )
        }
        ReplyParts::Event(sub, e) => event_fits(b, sub, e, room),
        ReplyParts::Eose(sub) => has_room(room, 11, event::part_len(b, sub), 0),
        ReplyParts::Closed(sub, reason) => {
            has_room(
                room,
                16,
                event::part_len(b, sub),
                event::part_len(b, reason),
            )
        }
        ReplyParts::Notice(reason) => has_room(room, 13, event::part_len(b, reason), 0),
    }
}

// The reply that the parts spell, from the start of `out`.
pub fn reply(b: &[u8], p: ReplyParts, out: &mut [u8]) -> Result<usize, u8>
    ensures value { result ≡ replied b.now p out.old }
    ensures result_value { written_number result ≡ reply_row b.now p out.old }
    ensures out_after { out.new ≡ replied_out b.now p out.old }
{
    let row = parts_row(b, p);
    if row != 0 {
        return Err(row);
    }
    if reply_fits(b, p, out.len()) {
        return Ok(put_reply(out, b, p));
    }
    Err(13)
}
