// EVENT replies of held slots, written into lent bytes. The text of a slot is copied, its control characters spelled
// out, and never decoded. Every row is tested before the first byte is written.
#![tactic(auto)]

ghost use Rattle.std.specs.Prelude.{◌≡◌, true, ◌+◌, ◌≤◌, length, get_or};
ghost use Rattle.wire.specs.Put.{Puts};
ghost use Rattle.wire.specs.Escape.{escape, json_of};
ghost use Rattle.spell.specs.Spell.{decode};
ghost use Rattle.event.specs.Answer.{hex_of, written_number};
ghost use Rattle.table.specs.Layout.{text_in};
ghost use Rattle.table.specs.Sound.{sound};
ghost use Rattle.table.specs.Format.{shown_row};
ghost use Rattle.reply.specs.Replies.{string_json};
ghost use Rattle.program.specs.Program.{events_of, written};
ghost use Rattle.program.specs.Respond.{slot_event, slot_event_row, slot_event_out, events_row, sent_events, sent_events_out};
ghost use Rattle.program.specs.Respond.{sent_number};
ghost use Rattle.replies.specs.Inner.{Room};
ghost use Rattle.slot_replies.specs.Inner.{number_bytes, string_bytes, ReadAs, front_text, back_text, held_text};
ghost use Rattle.slot_replies.specs.Inner.{held_line, sizes, fitted_in, held_len, fit_row, sent_lines, sent_lines_out};
ghost use Rattle.slot_replies.specs.Left.{lines_size, left_in};

use message::Span;
use text::Text;

// Bytes in hex, between quotes.
fn put_hex(out: &mut [u8], at: usize, s: &[u8]) -> usize
    ensures { Puts out.old at (string_json (hex_of s.now)) result out.new }
{
    let a = wire::put(out, at, b"\"");
    let c = event::put_hex(out, a, s);
    wire::put(out, c, b"\"")
}

// ["EVENT",SUB,{"id":ID
fn put_front(out: &mut [u8], at: usize, sub: &[u8], id: &[u8]) -> usize
    ensures { Puts out.old at (front_text (decode sub.now) (hex_of id.now)) result
        out.new }
{
    let a = wire::put(out, at, b"[\"EVENT\",");
    let b = event::put_json(out, a, sub);
    let c = wire::put(out, b, b",{\"id\":");
    put_hex(out, c, id)
}

// ,"pubkey":PUBKEY,"created_at":TIME,"kind":KIND of the text that was read.
fn put_numbers(out: &mut [u8], at: usize, t: &[u8], x: Text) -> usize
    requires { ReadAs t.now x }
    ensures { Puts out.old at (number_bytes t.now) result out.new }
{
    let time = x.time;
    let kind = x.kind as u64;
    let a = wire::put(out, at, b",\"pubkey\":");
    let b = wire::put(out, a, wire::piece(t, 3, 66));
    let c = wire::put(out, b, b",\"created_at\":");
    let d = numeral::put_decimal(out, c, time);
    let e = wire::put(out, d, b",\"kind\":");
    numeral::put_natural(out, e, kind)
}

// ,"tags":TAGS,"content":CONTENT from it.
fn put_strings(out: &mut [u8], at: usize, t: &[u8], x: Text) -> usize
    requires { ReadAs t.now x }
    ensures { Puts out.old at (string_bytes t.now) result out.new }
{
    let tags = x.tags;
    let content = x.content;
    let len = x.content_len;
    let tags_len = content - 2 - tags;
    let quote = content - 1;
    let quoted_len = len + 2;
    let a = wire::put(out, at, b",\"tags\":");
    let b = wire::put_json(out, a, wire::piece(t, tags, tags_len));
    let c = wire::put(out, b, b",\"content\":");
    wire::put_json(out, c, wire::piece(t, quote, quoted_len))
}

// ,"sig":SIG}]
fn put_back(out: &mut [u8], at: usize, sig: &[u8]) -> usize
    ensures { Puts out.old at (back_text (hex_of sig.now)) result out.new }
{
    let a = wire::put(out, at, b",\"sig\":");
    let b = put_hex(out, a, sig);
    wire::put(out, b, b"}]")
}

// The EVENT of a slot; nothing where its text does not read.
fn put_slot(out: &mut [u8], at: usize, sub: &[u8], s: &[u8]) -> usize
    ensures { Puts out.old at (held_text (decode sub.now) s.now) result
        out.new }
{
    let n = wire::le_at(s, slots::LENGTH_PLACE, 2) as usize;
    let t = wire::piece(s, slots::TEXT_PLACE, n);
    match text::read_text(t) {
        Ok(x) => {
            let a = put_front(
                out,
                at,
                sub,
                wire::piece(s, slots::ID_PLACE, slots::ID_SIZE),
            );
            let b = put_numbers(out, a, t, x);
            let c = put_strings(out, b, t, x);
            put_back(out, c, wire::piece(s, slots::SIG_PLACE, slots::SIG_SIZE))
        }
        Err(_) => wire::put(out, at, b""),
    }
}

// How long the text of a slot is as it stands in a reply.
fn text_size(s: &[u8]) -> usize
    ensures { (result ≡ length (json_of (text_in s.now))) × (result ≤ 393210) }
{
    let n = wire::le_at(s, slots::LENGTH_PLACE, 2) as usize;
    let t = wire::piece(s, slots::TEXT_PLACE, n);
    t.len() + 5 * wire::control_count(t)
}

// Whether the EVENT of a sound slot has room: it is 266 bytes longer than its text and the subscription id. By
// subtraction: the sum may be more than a number holds.
fn slot_fits(s: &[u8], sub: &[u8], room: usize) -> bool
    ensures { Room (length (json_of (text_in s.now)) +
        length (json_of (escape (decode sub.now))) + 266) room result }
{
    let n = event::string_len(sub);
    let size = text_size(s) + 266;
    if room < size {
        return false;
    }
    n <= room - size
}

// Row 11 or 14, or 0 where the slot is held.
fn shown_row(table: &[u8], slot: usize) -> u8
    ensures { result ≡ shown_row table.now slot }
{
    match slots::shown_at(table, slot) {
        Ok((_, _)) => 0,
        Err(row) => row,
    }
}

// The EVENT of a held slot, for the subscription id that stands at `sub` in m, from the start of `out`.
pub fn slot_event(
    table: &[u8],
    slot: usize,
    m: &[u8],
    sub: Span,
    out: &mut [u8],
) -> Result<usize, u8>
    ensures value { result ≡ slot_event table.now slot m.now sub out.old }
    ensures result_value { written_number result ≡ slot_event_row table.now slot m.now sub out.old }
    ensures out_after { out.new ≡ slot_event_out table.now slot m.now sub out.old }
{
    let row = message::subscription_row(m, sub);
    if row != 0 {
        return Err(row);
    }
    let later = shown_row(table, slot);
    if later != 0 {
        return Err(later);
    }
    let s = slots::slot(table, slot);
    let id = wire::piece(m, sub.start, sub.len);
    if slot_fits(s, id, out.len()) {
        return Ok(put_slot(out, 0, id, s));
    }
    Err(13)
}

// ---- the EVENTs of many slots, each a line
// How many lines fit whole, from the first on, and what they leave of the room.
#[derive(Clone, Copy)]
struct Fitted {
    lines: usize,
    left: usize,
}

// The EVENT of a slot, ended with 0A; nothing where its text does not read.
fn put_line(out: &mut [u8], at: usize, sub: &[u8], s: &[u8]) -> usize
    ensures { Puts out.old at (held_line (decode sub.now) s.now) result
        out.new }
{
    let n = put_slot(out, at, sub, s);
    if n == at {
        return n;
    }
    wire::put(out, n, b"\n")
}

// The EVENTs of the slots ks, each ended with 0A, from `at` on; nothing of a slot whose text does not read. `sub` is
// the subscription id as spelled.
pub fn put_events(out: &mut [u8], at: usize, table: &[u8], sub: &[u8], ks: &[u16]) -> usize
    ensures { Puts out.old at
        (written (events_of table.now (decode sub.now) ks.now)) result out.new }
{
    if out.len() < at {
        return out.len();
    }
    let mut o = at;
    for k in ks {
        let s = slots::slot(table, *k as usize);
        o = put_line(out, o, sub, s);
    }
    o
}

// What the line of a sound slot leaves of a room: it is 267 bytes longer than the slot's text and the subscription id,
// which takes n bytes. By subtraction: the sum may be more than a number holds.
fn line_left(s: &[u8], n: usize, room: usize) -> Option<usize>
    ensures { result ≡ left_in room (length (json_of (text_in s.now)) + n + 267) }
{
    let size = text_size(s) + 267;
    if room < size {
        return None;
    }
    let rest = room - size;
    if rest < n {
        return None;
    }
    Some(rest - n)
}

// The lines of the slots ks that fit, for a subscription id that takes n bytes.
fn fit_lines(table: &[u8], n: usize, ks: &[u16], room: usize) -> Fitted
    ensures { result ≡ fitted_in 0 room (sizes table.now n ks.now) }
{
    let mut left = room;
    for (i, k) in ks.iter().enumerate() {
        let s = slots::slot(table, *k as usize);
        let Some(x) = line_left(s, n, left) else {
            return Fitted { lines: i, left };
        };
        left = x;
    }
    Fitted {
        lines: ks.len(),
        left,
    }
}

// What the lines of the slots ks leave of a room, if the table is sound and holds the slots.
pub fn events_left(table: &[u8], sub: &[u8], ks: &[u16], room: usize) -> Option<usize>
    ensures { result ≡ left_in room (lines_size table.now (decode sub.now) ks.now) }
{
    let n = event::string_len(sub);
    let f = fit_lines(table, n, ks, room);
    if f.lines < ks.len() {
        return None;
    }
    Some(f.left)
}

// How many of the slots ks are held, from the first on.
fn held_len(table: &[u8], ks: &[u16]) -> usize
    ensures { result ≡ held_len table.now ks.now }
{
    let c = wire::le_at(table, slots::COUNT_PLACE, 4) as usize;
    for (i, k) in ks.iter().enumerate() {
        if c <= *k as usize {
            return i;
        }
    }
    ks.len()
}

// Row 13 where slots are held and the line of none fits; then 14 where not all are held; else 0.
fn fit_row(lines: usize, held: usize, all: usize) -> u8
    ensures { result ≡ fit_row lines held all }
{
    if held == 0 {
        if all == 0 {
            return 0;
        }
        return 14;
    }
    if lines == 0 {
        return 13;
    }
    if held < all {
        return 14;
    }
    0
}

// As many lines as fit, of a sound table. `sub` is the subscription id as spelled.
fn send(table: &[u8], ks: &[u16], sub: &[u8], out: &mut [u8]) -> Result<(usize, usize), u8>
    requires { sound table.now ≡ true }
    ensures value { result ≡ sent_lines table.now (decode sub.now) ks.now out.old }
    ensures out_after { out.new ≡ sent_lines_out table.now (decode sub.now) ks.now
        out.old }
{
    let n = event::string_len(sub);
    let held = held_len(table, ks);
    let f = fit_lines(table, n, &ks[..held], out.len());
    let lines = f.lines;
    let row = fit_row(lines, held, ks.len());
    if row != 0 {
        return Err(row);
    }
    Ok((put_events(out, 0, table, sub, &ks[..lines]), lines))
}

// As many whole EVENTs of the slots ks as fit, each ended with 0A, from the start of `out`; for the subscription id
// that stands at `sub` in m. The table is tested once.
pub fn events(
    table: &[u8],
    ks: &[u16],
    m: &[u8],
    sub: Span,
    out: &mut [u8],
) -> Result<(usize, usize), u8>
    ensures value { result ≡ sent_events table.now ks.now m.now sub out.old }
    ensures result_value { sent_number result ≡ events_row table.now ks.now m.now sub
        out.old }
    ensures out_after { out.new ≡ sent_events_out table.now ks.now m.now sub
        out.old }
{
    let row = message::subscription_row(m, sub);
    if row != 0 {
        return Err(row);
    }
    if slots::sound(table) {
        let id = wire::piece(m, sub.start, sub.len);
        return send(table, ks, id, out);
    }
    Err(11)
}
