// The calls of crate capi_relay as Rust or C link them (`rt lib` in this folder), in the manner of crate capi_c. Each says
// again what crate capi_relay says of it.
#![tactic(auto)]

ghost use Rattle.std.specs.Prelude.{◌≡◌};
ghost use Rattle.program.specs.Respond.{responded, respond_row, responded_out, responded_table, slot_event};
ghost use Rattle.program.specs.Respond.{slot_event_row, slot_event_out, sent_events, events_row, sent_events_out};
ghost use Rattle.capi.specs.Calls.{length_or};
ghost use Rattle.program.specs.Feed.{turned, turn_row, turn_table, turn_line, turn_out};
ghost use Rattle.feed.specs.Turn.{looked_at};
ghost use Rattle.capi_relay.specs.Counts.{used_or, kept_or, written_or, bytes_or, slots_or, class_number};
ghost use Rattle.feed.specs.Finish.{feed_finished, finish_row, finish_table, finish_out};
ghost use Rattle.responses.specs.Refused.{refused_reply, refused_row, refused_out};
ghost use Rattle.capi_relay.specs.Reply.{span_of_numbers, written_reply, written_reply_out};
ghost use Rattle.event.specs.Answer.{written_number};
ghost use Rattle.text.specs.Kinds.{class_of};

// ---- Messages.
// One message answered into `out`, each reply ended with 0A, and the table updated: 13 or 0.
#[unsafe(no_mangle)]
pub extern "C" fn plavdrosa_respond(
    table: &mut [u8],
    message: &[u8],
    out: &mut [u8],
    written: &mut usize,
) -> u8
    ensures value { result ≡ respond_row table.old message.now out.old }
    ensures table_after { table.new ≡ responded_table table.old message.now out.old }
    ensures out_after { out.new ≡ responded_out table.old message.now out.old }
    ensures written_after { written.new ≡ length_or (responded table.old message.now
        out.old) written.old }
{
    capi_relay::plavdrosa_respond(table, message, out, written)
}

// A piece of the input fed up to its first line's end, and with it; where the first `kept` bytes of `line` are the line
// so far and more of it come, up to its end, which the next call takes: 13 or 0.
#[unsafe(no_mangle)]
pub extern "C" fn plavdrosa_turn(
    table: &mut [u8],
    line: &mut [u8],
    kept: &mut usize,
    piece: &[u8],
    out: &mut [u8],
    used: &mut usize,
    written: &mut usize,
) -> u8
    ensures value { result ≡ turn_row table.old line.old kept.old
        (looked_at kept.old piece.now) out.old }
    ensures table_after { table.new ≡ turn_table table.old line.old kept.old
        (looked_at kept.old piece.now) out.old }
    ensures line_after { line.new ≡ turn_line table.old line.old kept.old
        (looked_at kept.old piece.now) out.old }
    ensures kept_after { kept.new ≡ kept_or (turned table.old line.old kept.old
        (looked_at kept.old piece.now) out.old) kept.old }
    ensures out_after { out.new ≡ turn_out table.old line.old kept.old
        (looked_at kept.old piece.now) out.old }
    ensures used_after { used.new ≡ used_or (turned table.old line.old kept.old
        (looked_at kept.old piece.now) out.old) used.old }
    ensures written_after { written.new ≡ written_or (turned table.old line.old
        kept.old (looked_at kept.old piece.now) out.old)
        written.old }
{
    capi_relay::plavdrosa_turn(table, line, kept, piece, out, used, written)
}

// The end of the input: a last line without 0A is answered if it is not empty: 13 or 0.
#[unsafe(no_mangle)]
pub extern "C" fn plavdrosa_finish(
    table: &mut [u8],
    line: &[u8],
    kept: usize,
    out: &mut [u8],
    written: &mut usize,
) -> u8
    ensures value { result ≡ finish_row table.old line.now kept out.old }
    ensures table_after { table.new ≡ finish_table table.old line.now kept out.old }
    ensures out_after { out.new ≡ finish_out table.old line.now kept out.old }
    ensures written_after { written.new ≡ length_or (feed_finished table.old line.now kept
        out.old) written.old }
{
    capi_relay::plavdrosa_finish(table, line, kept, out, written)
}

// The reply that a message gets which the row refuses, without 0A: 13 or 0.
#[unsafe(no_mangle)]
pub extern "C" fn plavdrosa_refused(
    message: &[u8],
    row: u8,
    out: &mut [u8],
    written: &mut usize,
) -> u8
    ensures value { result ≡ refused_row message.now row out.old }
    ensures out_after { out.new ≡ refused_out message.now row out.old }
    ensures written_after { written.new ≡ length_or (refused_reply message.now row out.old)
        written.old }
{
    capi_relay::plavdrosa_refused(message, row, out, written)
}

// ---- Replies.
// The EVENT of a slot, for the subscription id that is a part of `message`, without 0A: the row that refuses the id,
// 11, 14, 13 or 0.
#[unsafe(no_mangle)]
pub extern "C" fn plavdrosa_slot_event(
    table: &[u8],
    slot: usize,
    message: &[u8],
    subscription: usize,
    subscription_len: usize,
    out: &mut [u8],
    written: &mut usize,
) -> u8
    ensures value { result ≡ slot_event_row table.now slot message.now
        (span_of_numbers subscription subscription_len) out.old }
    ensures out_after { out.new ≡ slot_event_out table.now slot message.now
        (span_of_numbers subscription subscription_len) out.old }
    ensures written_after { written.new ≡ length_or (slot_event table.now slot message.now
        (span_of_numbers subscription subscription_len) out.old) written.old }
{
    capi_relay::plavdrosa_slot_event(
        table,
        slot,
        message,
        subscription,
        subscription_len,
        out,
        written,
    )
}

// The EVENTs of some slots, each ended with 0A, as many as fit whole: the row that refuses the subscription id, 11, 13,
// 14 or 0.
#[unsafe(no_mangle)]
pub extern "C" fn plavdrosa_events(
    table: &[u8],
    slots: &[u16],
    message: &[u8],
    subscription: usize,
    subscription_len: usize,
    out: &mut [u8],
    written: &mut usize,
    sent: &mut usize,
) -> u8
    ensures value { result ≡ events_row table.now slots.now message.now
        (span_of_numbers subscription subscription_len) out.old }
    ensures out_after { out.new ≡ sent_events_out table.now slots.now message.now
        (span_of_numbers subscription subscription_len) out.old }
    ensures written_after { written.new ≡ bytes_or (sent_events table.now slots.now
        message.now (span_of_numbers subscription subscription_len) out.old)
        written.old }
    ensures sent_after { sent.new ≡ slots_or (sent_events table.now slots.now
        message.now (span_of_numbers subscription subscription_len) out.old) sent.old }
{
    capi_relay::plavdrosa_events(
        table,
        slots,
        message,
        subscription,
        subscription_len,
        out,
        written,
        sent,
    )
}

// A reply of parts of `bytes`, without 0A: 5 if the first number is that of no reply, the row that refuses the parts,
// 13 or 0.
#[unsafe(no_mangle)]
pub extern "C" fn plavdrosa_reply(
    bytes: &[u8],
    reply: &[u64],
    out: &mut [u8],
    written: &mut usize,
) -> u8
    ensures value { result ≡ written_number (written_reply bytes.now reply.now out.old) }
    ensures out_after { out.new ≡ written_reply_out bytes.now reply.now out.old }
    ensures written_after { written.new ≡ length_or (written_reply bytes.now reply.now
        out.old) written.old }
{
    capi_relay::plavdrosa_reply(bytes, reply, out, written)
}

// The class of a kind: 0 regular, 1 replaceable, 2 ephemeral, 3 addressable.
#[unsafe(no_mangle)]
pub extern "C" fn plavdrosa_class(kind: u16) -> u8
    ensures { result ≡ class_number (class_of kind) }
{
    capi_relay::plavdrosa_class(kind)
}
