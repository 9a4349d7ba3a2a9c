// The calls that answer messages and write replies, for Rust or C to link (crate capi_relay_c exports them), in the manner
// of crate capi: a count or a length goes to a lent number, and on a refusal every lent number stays as found.
#![tactic(auto)]

ghost use Rattle.std.specs.Prelude.{◌≡◌};
ghost use Rattle.event.specs.Answer.{written_number};
ghost use Rattle.text.specs.Kinds.{class_of};
ghost use Rattle.program.specs.Respond.{responded, respond_row, responded_out, responded_table, slot_event, slot_event_row};
ghost use Rattle.program.specs.Respond.{slot_event_out, sent_events, events_row, sent_events_out};
ghost use Rattle.program.specs.Feed.{turned, turn_row, turn_table, turn_line, turn_out};
ghost use Rattle.feed.specs.Turn.{looked_at};
ghost use Rattle.feed.specs.Finish.{feed_finished, finish_row, finish_table, finish_out};
ghost use Rattle.responses.specs.Refused.{refused_reply, refused_row, refused_out};
ghost use Rattle.capi.specs.Calls.{length_or};
ghost use Rattle.capi_relay.specs.Counts.{used_or, kept_or, written_or, bytes_or, slots_or, class_number};
ghost use Rattle.capi_relay.specs.Reply.{span_of_numbers, written_reply, written_reply_out};

mod given;

use message::Span;
use text::Class;

// The number of what was answered; how many bytes were written goes to `written`.
fn told(x: Result<usize, u8>, written: &mut usize) -> u8
    ensures value { result ≡ written_number x }
    ensures written_after { written.new ≡ length_or x written.old }
{
    match x {
        Ok(n) => {
            *written = n;
            0
        }
        Err(r) => r,
    }
}

// ---- Messages.
// One message answered into `out`, each reply ended with 0A, and the table updated: 13 or 0.
pub fn plavdrosa_respond(
    table: &mut [u8],
    message: &[u8],
    out: &mut [u8],
    written: &mut usize,
) -> u8
    ensures value { result ≡ respond_row table.old message.now out.old }
    ensures table_after { table.new ≡ responded_table table.old message.now out.old }
    ensures out_after { out.new ≡ responded_out table.old message.now out.old }
    ensures written_after { written.new ≡ length_or (responded table.old message.now
        out.old) written.old }
{
    let x = responses::respond(table, message, out);
    told(x, written)
}

// A piece of the input fed up to its first line's end, and with it; where the first `kept` bytes of `line` are the line
// so far and more of it come, up to its end, which the next call takes: 13 or 0.
pub fn plavdrosa_turn(
    table: &mut [u8],
    line: &mut [u8],
    kept: &mut usize,
    piece: &[u8],
    out: &mut [u8],
    used: &mut usize,
    written: &mut usize,
) -> u8
    ensures value { result ≡ turn_row table.old line.old kept.old
        (looked_at kept.old piece.now) out.old }
    ensures table_after { table.new ≡ turn_table table.old line.old kept.old
        (looked_at kept.old piece.now) out.old }
    ensures line_after { line.new ≡ turn_line table.old line.old kept.old
        (looked_at kept.old piece.now) out.old }
    ensures kept_after { kept.new ≡ kept_or (turned table.old line.old kept.old
        (looked_at kept.old piece.now) out.old) kept.old }
    ensures out_after { out.new ≡ turn_out table.old line.old kept.old
        (looked_at kept.old piece.now) out.old }
    ensures used_after { used.new ≡ used_or (turned table.old line.old kept.old
        (looked_at kept.old piece.now) out.old) used.old }
    ensures written_after { written.new ≡ written_or (turned table.old line.old
        kept.old (looked_at kept.old piece.now) out.old)
        written.old }
{
    let n = *kept;
    match feed::turn(table, line, n, piece, out) {
        Ok(f) => {
            *used = f.used;
            *kept = f.kept;
            *written = f.written;
            0
        }
        Err(r) => r,
    }
}

// The end of the input: a last line without 0A is answered if it is not empty: 13 or 0.
pub fn plavdrosa_finish(
    table: &mut [u8],
    line: &[u8],
    kept: usize,
    out: &mut [u8],
    written: &mut usize,
) -> u8
    ensures value { result ≡ finish_row table.old line.now kept out.old }
    ensures table_after { table.new ≡ finish_table table.old line.now kept out.old }
    ensures out_after { out.new ≡ finish_out table.old line.now kept out.old }
    ensures written_after { written.new ≡ length_or (feed_finished table.old line.now kept
        out.old) written.old }
{
    let x = feed::finish(table, line, kept, out);
    told(x, written)
}

// The reply that a message gets which the row refuses, without 0A: 13 or 0.
pub fn plavdrosa_refused(message: &[u8], row: u8, out: &mut [u8], written: &mut usize) -> u8
    ensures value { result ≡ refused_row message.now row out.old }
    ensures out_after { out.new ≡ refused_out message.now row out.old }
    ensures written_after { written.new ≡ length_or (refused_reply message.now row out.old)
        written.old }
{
    let x = responses::refused(message, row, out);
    told(x, written)
}

// ---- Replies.
// The EVENT of a slot, for the subscription id that is a part of `message`, without 0A: the row that refuses the id,
// 11, 14, 13 or 0.
pub fn plavdrosa_slot_event(
    table: &[u8],
    slot: usize,
    message: &[u8],
    subscription: usize,
    subscription_len: usize,
    out: &mut [u8],
    written: &mut usize,
) -> u8
    ensures value { result ≡ slot_event_row table.now slot message.now
        (span_of_numbers subscription subscription_len) out.old }
    ensures out_after { out.new ≡ slot_event_out table.now slot message.now
        (span_of_numbers subscription subscription_len) out.old }
    ensures written_after { written.new ≡ length_or (slot_event table.now slot message.now
        (span_of_numbers subscription subscription_len) out.old) written.old }
{
    let sub = Span {
        start: subscription,
        len: subscription_len,
    };
    let x = slot_replies::slot_event(table, slot, message, sub, out);
    told(x, written)
}

// The EVENTs of some slots, each ended with 0A, as many as fit whole: the row that refuses the subscription id, 11, 13,
// 14 or 0.
pub fn plavdrosa_events(
    table: &[u8],
    slots: &[u16],
    message: &[u8],
    subscription: usize,
    subscription_len: usize,
    out: &mut [u8],
    written: &mut usize,
    sent: &mut usize,
) -> u8
    ensures value { result ≡ events_row table.now slots.now message.now
        (span_of_numbers subscription subscription_len) out.old }
    ensures out_after { out.new ≡ sent_events_out table.now slots.now message.now
        (span_of_numbers subscription subscription_len) out.old }
    ensures written_after { written.new ≡ bytes_or (sent_events table.now slots.now
        message.now (span_of_numbers subscription subscription_len) out.old)
        written.old }
    ensures sent_after { sent.new ≡ slots_or (sent_events table.now slots.now
        message.now (span_of_numbers subscription subscription_len) out.old) sent.old }
{
    let sub = Span {
        start: subscription,
        len: subscription_len,
    };
    match slot_replies::events(table, slots, message, sub, out) {
        Ok((n, k)) => {
            *written = n;
            *sent = k;
            0
        }
        Err(r) => r,
    }
}

// A reply of parts of `bytes`, without 0A: 5 if the first number is that of no reply, the row that refuses the parts,
// 13 or 0.
pub fn plavdrosa_reply(bytes: &[u8], reply: &[u64], out: &mut [u8], written: &mut usize) -> u8
    ensures value { result ≡ written_number (written_reply bytes.now reply.now out.old) }
    ensures out_after { out.new ≡ written_reply_out bytes.now reply.now out.old }
    ensures written_after { written.new ≡ length_or (written_reply bytes.now reply.now
        out.old) written.old }
{
    let form = numbers::number_in(reply, 0);
    if form == 0 {
        return 5;
    }
    if 5 < form {
        return 5;
    }
    let p = given::reply_from(form, reply);
    let x = replies::reply(bytes, p, out);
    told(x, written)
}

// ---- What is only told.
fn class_number(x: Class) -> u8
    ensures { result ≡ class_number x }
{
    match x {
        Class::Regular => 0,
        Class::Replaceable => 1,
        Class::Ephemeral => 2,
        Class::Addressable => 3,
    }
}

// The class of a kind: 0 regular, 1 replaceable, 2 ephemeral, 3 addressable.
pub fn plavdrosa_class(kind: u16) -> u8
    ensures { result ≡ class_number (class_of kind) }
{
    class_number(text::class_of(kind))
}
