// An event given as parts: its text serialised, its id, and the order of two events.
#![tactic(auto)]

ghost use Rattle.std.specs.Prelude.{◌≡◌, length};
ghost use Rattle.wire.specs.Put.{Puts};
ghost use Rattle.wire.specs.Escape.{escape, json_of};
ghost use Rattle.spell.specs.Spell.{decode};
ghost use Rattle.text.specs.Event.{quoted, tags_text};
ghost use Rattle.event.specs.Lent.{said, natural, lent_tags_at, text_of};
ghost use Rattle.event.specs.Lent.{length_of};
ghost use Rattle.event.specs.Answer.{hex_of, written_number, serialised_row, serialised, serialised_out, identified};
ghost use Rattle.event.specs.Answer.{offered_row, offered_text_row, offered, offered_out};
ghost use Rattle.event.specs.Sent.{sent_row, sent_text, sent_out, sent_text_number};
ghost use Rattle.event.specs.Order.{is_lower, is_newer};

mod counting;
mod tested;
mod writing;

// Where a writer stopped in its output or what a counter counted, and where what it read ends.
#[derive(Clone, Copy)]
struct Reached {
    at: usize,
    next: usize,
}

// A row, or 0, and beside it the id; zeros where a row refuses the parts. No Result: `identified` says of a refusal too
// what the bytes are.
#[derive(Clone, Copy)]
pub struct Identified {
    pub row: u8,
    pub id: [u8; 32],
}

// A string as spelled, decoded and escaped between quotes.
pub fn put_quoted(out: &mut [u8], at: usize, p: &[u8]) -> usize
    ensures { Puts out.old at (quoted (decode p.now)) result out.new }
{
    let a = wire::put(out, at, b"\"");
    let c = spell::put_escaped(out, a, p);
    wire::put(out, c, b"\"")
}

// The same as it stands in a reply. Two functions of three lines: one for both would be handed the writer between the
// quotes, and be no plainer.
pub fn put_json(out: &mut [u8], at: usize, p: &[u8]) -> usize
    ensures { Puts out.old at (json_of (quoted (decode p.now))) result out.new }
{
    let a = wire::put(out, at, b"\"");
    let c = spell::put_json(out, a, p);
    wire::put(out, c, b"\"")
}

// A string part, decoded, as it stands in a reply.
pub fn put_part(out: &mut [u8], at: usize, b: &[u8], s: message::Span) -> usize
    ensures { Puts out.old at (json_of (quoted (said b.now s))) result out.new }
{
    put_json(out, at, wire::piece(b, s.start, s.len))
}

// How long a string as spelled is in a reply, but for the quotes, up to the most that a number holds.
pub fn string_len(p: &[u8]) -> usize
    ensures { result ≡ length_of (json_of (escape (decode p.now))) }
{
    counting::string_len(p, true)
}

// The same of a string part.
pub fn part_len(b: &[u8], s: message::Span) -> usize
    ensures { result ≡ length_of (json_of (escape (said b.now s))) }
{
    string_len(wire::piece(b, s.start, s.len))
}

// The tags of the array at `tags`, as they stand in a reply; [] where there is none.
pub fn put_tags(out: &mut [u8], at: usize, b: &[u8], tags: usize) -> usize
    ensures { Puts out.old at (json_of (tags_text (lent_tags_at b.now tags))) result
        out.new }
{
    let known = writing::first_tag(b, tags);
    writing::put_tags_from(out, at, b, tags, known, true)
}

// A kind that is not negative, and 0 for one that is.
pub fn kind_of(kind: i64) -> u64
    ensures { result ≡ natural kind }
{
    u64::try_from(kind).unwrap_or(0)
}

// 01, "The text that is hashed", of the event that the parts spell, into `out` from `at` on; the index after it.
pub fn put_text(out: &mut [u8], at: usize, b: &[u8], p: message::Body) -> usize
    ensures { Puts out.old at (text_of b.now p) result out.new }
{
    let known = writing::first_tag(b, p.tags);
    writing::put_whole(out, at, b, p, known)
}

// How long the text is, up to the most that a number holds: parts of absurd buffers may overlap.
pub fn text_len(b: &[u8], p: message::Body) -> usize
    ensures { result ≡ length_of (text_of b.now p) }
{
    counting::length_in(b, p, false)
}

// How long it would be with every string as it stands in a reply.
pub fn json_len(b: &[u8], p: message::Body) -> usize
    ensures { result ≡ length_of (json_of (text_of b.now p)) }
{
    counting::length_in(b, p, true)
}

// The hex digits of bytes, in lower case, into `out` from `at` on; the index after them.
pub fn put_hex(out: &mut [u8], at: usize, s: &[u8]) -> usize
    ensures { Puts out.old at (hex_of s.now) result out.new }
{
    if out.len() < at {
        return out.len();
    }
    let mut o = at;
    for b in s {
        o = wire::put_byte(out, o, writing::hex_digit(*b / 16));
        o = wire::put_byte(out, o, writing::hex_digit(*b % 16));
    }
    o
}

// The id of the event that the parts spell. The text is put together in a buffer: a byte more than a text may have
// shows that it is too long.
pub fn id_of(b: &[u8], p: message::Body) -> Identified
    ensures { result ≡ identified b.now p }
{
    let row = message::body_row(b, p);
    if row != 0 {
        return Identified { row, id: [0u8; 32] };
    }
    let mut t = [0u8; 4097];
    let known = writing::begun(b, p.tags);
    let n = writing::put_whole(&mut t, 0, b, p, known);
    tested::hashed(&t[..n])
}

// The text of the event that the parts spell, from the start of `out`. It is put together in a buffer of its own, so
// that nothing is written to `out` before every row is tested.
pub fn serialise(b: &[u8], p: message::Body, out: &mut [u8]) -> Result<usize, u8>
    ensures value { result ≡ serialised b.now p out.old }
    ensures result_value { written_number result ≡ serialised_row b.now p out.old }
    ensures out_after { out.new ≡ serialised_out b.now p out.old }
{
    let row = message::body_row(b, p);
    if row != 0 {
        return Err(row);
    }
    let mut t = [0u8; 4097];
    let known = writing::begun(b, p.tags);
    let n = writing::put_whole(&mut t, 0, b, p, known);
    if wire::MOST_TEXT < n {
        return Err(9);
    }
    tested::give(&t[..n], out)
}

// Rows 2 and 4 to 10 of an event that is offered as parts.
pub fn offered_row(b: &[u8], p: message::EventParts) -> u8
    ensures { result ≡ offered_row b.now p }
{
    let early = message::event_row(b, p);
    if early != 0 {
        return early;
    }
    let mut t = [0u8; 4097];
    match tested::rest(b, p, &mut t) {
        Ok(_) => 0,
        Err(row) => row,
    }
}

// Rows 2 and 4 to 10 of an event that is offered as parts, then 13; where none holds, its text from the start of `out`.
pub fn offered_text(b: &[u8], p: message::EventParts, out: &mut [u8]) -> Result<usize, u8>
    ensures value { result ≡ offered b.now p out.old }
    ensures result_value { written_number result ≡ offered_text_row b.now p out.old }
    ensures out_after { out.new ≡ offered_out b.now p out.old }
{
    let row = message::event_row(b, p);
    if row != 0 {
        return Err(row);
    }
    tested::rest_text(b, p, out)
}

// Rows 1 to 10 of an event that is offered as a message, then 13; where none holds, its parts, and its text from the
// start of `out`. Rows 2 and 4 to 8 are tested once: the parts of a message that the reader took pass them.
pub fn sent_text(m: &[u8], out: &mut [u8]) -> Result<(message::EventParts, usize), shape::Refusal>
    ensures value { result ≡ sent_text m.now out.old }
    ensures result_value { sent_text_number result ≡ sent_row m.now out.old }
    ensures out_after { out.new ≡ sent_out m.now out.old }
{
    let read = match message::read(m) {
        Ok(x) => x,
        Err(r) => return Err(tested::unread(m, r)),
    };
    match read {
        message::Message::Event(p) => tested::sent_event(m, p, out),
        message::Message::Req(_) | message::Message::Close(_) => Err(shape::plain_refusal(5)),
    }
}

// Whether p is the lower: by the first byte that differs, and of two where one begins the other, the shorter.
fn is_lower(p: &[u8], q: &[u8]) -> bool
    ensures { result ≡ is_lower p.now q.now }
{
    p < q
}

// 01, "Kinds and keys": whether event a is newer than event b.
pub fn newer(time_a: i64, id_a: &[u8], time_b: i64, id_b: &[u8]) -> bool
    ensures { result ≡ is_newer time_a id_a.now time_b id_b.now }
{
    time_b < time_a || (time_b == time_a && is_lower(id_a, id_b))
}
