// Calls that take parts lent by anybody, numbers and texts, one call a line. A line is a letter and its fields with
// single spaces between: a buffer in lower-case hex (`-` for the empty one), then decimal numbers (`x` for an absent
// one). Of a field that is none of these nothing is claimed.
//
//   B BUF pubkey pubkey_len created_at kind tags content content_len room the row of a body; its id; its text into
// `room` bytes
//   E BUF id id_len (the seven of B) sig sig_len                             the row of an event, and of one offered
//   F BUF ids authors kinds since until limit conditions                     the row of a filter
//   M BUF a message: rows, with `@` and the offset of rows 6 and 7, what its reply names, its parts
//   N IDS len time time is the first event newer? The first id has len bytes
//   K - kind                                                                 the class of a kind
//   T BUF                                                                    a text read back: its parts, and d's bytes
//   L BUF at width number the number into the buffer, and out of it again
//   D BUF times the digest of the bytes, so many times over
#![tactic(auto)]

use digest::Sha256;
use lines::Output;
use message::{Body, EventParts, FilterParts, Message, Named, Naming, ReqParts, Span};
use std::io;
use std::io::Write;
use text::{Class, Text, Unread};

// ---- What is written.
fn put_row(out: &mut [u8], at: usize, row: u8) -> usize {
    fields::put_number(out, at, row as u64)
}

fn put_hex(out: &mut [u8], at: usize, p: &[u8]) -> usize {
    let a = fields::put_gap(out, at);
    event::put_hex(out, a, p)
}

fn put_span(out: &mut [u8], at: usize, p: Span) -> usize {
    let a = fields::put_number(out, at, p.start as u64);
    fields::put_number(out, a, p.len as u64)
}

fn put_listed(out: &mut [u8], at: usize, x: Option<usize>) -> usize {
    match x {
        None => fields::put_word(out, at, b"x"),
        Some(v) => fields::put_number(out, at, v as u64),
    }
}

fn put_bound(out: &mut [u8], at: usize, x: Option<i64>) -> usize {
    match x {
        None => fields::put_word(out, at, b"x"),
        Some(z) => fields::put_integer(out, at, z),
    }
}

// ---- B and E: the parts of an event.
// The first n bytes.
fn put_head(out: &mut [u8], at: usize, p: &[u8], n: usize) -> usize {
    put_hex(out, at, wire::piece(p, 0, n))
}

// The id, or four zero bytes of it where a row refuses the parts.
fn put_id(out: &mut [u8], at: usize, b: &[u8], p: Body) -> usize {
    let x = event::id_of(b, p);
    let row = x.row;
    let id = x.id;
    let a = put_row(out, at, row);
    if row == 0 {
        return put_hex(out, a, &id);
    }
    put_head(out, a, &id, 4)
}

// The first four bytes of a buffer's digest.
fn put_print(out: &mut [u8], at: usize, p: &[u8]) -> usize {
    let d = digest::digest_of(p);
    let bytes = d.bytes;
    put_head(out, at, &bytes, 4)
}

// What serialising answers, a print of all that the lent output then holds, and the text.
fn put_written(out: &mut [u8], at: usize, lent: &[u8], w: Result<usize, u8>) -> usize {
    match w {
        Err(row) => {
            let a = put_row(out, at, row);
            put_print(out, a, lent)
        }
        Ok(n) => {
            let a = put_row(out, at, 0);
            let c = fields::put_number(out, a, n as u64);
            let d = put_print(out, c, lent);
            fields::put_word(out, d, wire::piece(lent, 0, n))
        }
    }
}

fn put_into(out: &mut [u8], at: usize, b: &[u8], p: Body, lent: &mut [u8]) -> usize {
    let w = event::serialise(b, p, lent);
    put_written(out, at, lent, w)
}

fn put_text(out: &mut [u8], at: usize, b: &[u8], p: Body, room: usize) -> usize {
    let mut space = [b'.'; 4200];
    if room <= 4200 {
        return put_into(out, at, b, p, &mut space[..room]);
    }
    at
}

fn put_body(out: &mut [u8], line: &[u8], b: &[u8]) -> usize {
    let p = fields::body(fields::from(line, 2));
    let a = put_row(out, 0, message::body_row(b, p));
    let c = put_id(out, a, b, p);
    put_text(out, c, b, p, fields::count(line, 9))
}

fn put_event(out: &mut [u8], line: &[u8], b: &[u8]) -> usize {
    let p = fields::event(fields::from(line, 2));
    let a = put_row(out, 0, message::event_row(b, p));
    put_row(out, a, event::offered_row(b, p))
}

// ---- F: the parts of a filter.
fn put_filter(out: &mut [u8], line: &[u8], b: &[u8]) -> usize {
    put_row(
        out,
        0,
        message::filter_row(b, fields::filter(fields::from(line, 2))),
    )
}

// ---- M: a message.
fn put_named(out: &mut [u8], at: usize, x: Named) -> usize {
    match x {
        Named::Id(p) => {
            let a = fields::put_word(out, at, b"id");
            put_span(out, a, p)
        }
        Named::Subscription(p) => {
            let a = fields::put_word(out, at, b"sub");
            put_span(out, a, p)
        }
        Named::Nothing => fields::put_word(out, at, b"none"),
    }
}

fn put_body_parts(out: &mut [u8], at: usize, p: Body) -> usize {
    let pubkey = p.pubkey;
    let content = p.content;
    let a = put_span(out, at, pubkey);
    let b = fields::put_integer(out, a, p.created_at);
    let c = fields::put_integer(out, b, p.kind);
    let d = fields::put_number(out, c, p.tags as u64);
    put_span(out, d, content)
}

fn put_event_parts(out: &mut [u8], at: usize, p: EventParts) -> usize {
    let id = p.id;
    let body = p.body;
    let sig = p.sig;
    let w = fields::put_word(out, at, b"EVENT");
    let a = put_span(out, w, id);
    let b = put_body_parts(out, a, body);
    put_span(out, b, sig)
}

fn put_filter_parts(out: &mut [u8], at: usize, p: FilterParts) -> usize {
    let ids = p.ids;
    let authors = p.authors;
    let kinds = p.kinds;
    let since = p.since;
    let until = p.until;
    let limit = p.limit;
    let conditions = p.conditions;
    let a = put_listed(out, at, ids);
    let b = put_listed(out, a, authors);
    let c = put_listed(out, b, kinds);
    let d = put_bound(out, c, since);
    let e = put_bound(out, d, until);
    let f = put_bound(out, e, limit);
    put_listed(out, f, conditions)
}

// The subscription id, and the parts of the first filter.
fn put_req(out: &mut [u8], at: usize, s: &[u8], p: ReqParts) -> usize {
    let subscription = p.subscription;
    let w = fields::put_word(out, at, b"REQ");
    let a = put_span(out, w, subscription);
    put_filter_parts(out, a, message::filter_at(s, p.filters))
}

fn put_read(out: &mut [u8], at: usize, s: &[u8], m: Result<Message, shape::Refusal>) -> usize {
    match m {
        Ok(Message::Event(p)) => put_event_parts(out, at, p),
        Ok(Message::Req(p)) => put_req(out, at, s, p),
        Ok(Message::Close(p)) => {
            let a = fields::put_word(out, at, b"CLOSE");
            put_span(out, a, p)
        }
        Err(x) => fields::put_refusal(out, at, x),
    }
}

fn put_naming(out: &mut [u8], at: usize, x: Naming) -> usize {
    let refusal = x.refusal;
    let named = x.named;
    let a = fields::put_refusal(out, at, refusal);
    put_named(out, a, named)
}

fn put_message(out: &mut [u8], s: &[u8]) -> usize {
    let a = put_row(out, 0, rows::text_row(s));
    let b = put_naming(out, a, message::names(s));
    put_read(out, b, s, message::read(s))
}

// ---- N and K: order and class.
fn put_newer(out: &mut [u8], line: &[u8], b: &[u8]) -> usize {
    let n = fields::count(line, 2);
    if b.len() < n {
        return 0;
    }
    if event::newer(
        fields::integer(fields::field(line, 3)),
        &b[..n],
        fields::integer(fields::field(line, 4)),
        &b[n..],
    ) {
        return wire::put(out, 0, b"newer");
    }
    wire::put(out, 0, b"not")
}

fn put_class(out: &mut [u8], line: &[u8]) -> usize {
    let kind = fields::natural(fields::field(line, 2));
    if 65535 < kind {
        return 0;
    }
    match text::class_of(kind as u16) {
        Class::Regular => wire::put(out, 0, b"regular"),
        Class::Replaceable => wire::put(out, 0, b"replaceable"),
        Class::Ephemeral => wire::put(out, 0, b"ephemeral"),
        Class::Addressable => wire::put(out, 0, b"addressable"),
    }
}

// ---- T: a text read back.
fn put_d(out: &mut [u8], at: usize, t: &[u8], d: Span) -> usize {
    fields::put_word(out, at, wire::piece(t, d.start, d.len))
}

fn put_places(out: &mut [u8], t: &[u8], x: Text) -> usize {
    let content = Span {
        start: x.content,
        len: x.content_len,
    };
    let d = Span {
        start: x.d,
        len: x.d_len,
    };
    let a = put_row(out, 0, 0);
    let b = fields::put_integer(out, a, x.time);
    let c = fields::put_number(out, b, x.kind as u64);
    let e = fields::put_number(out, c, x.tags as u64);
    let f = put_span(out, e, content);
    let g = put_span(out, f, d);
    put_d(out, g, t, d)
}

fn put_again(out: &mut [u8], t: &[u8]) -> usize {
    match text::read_text(t) {
        Ok(x) => put_places(out, t, x),
        Err(Unread::TooLarge) => put_row(out, 0, 9),
        Err(Unread::WrongShape) => put_row(out, 0, 5),
    }
}

// ---- L: little-endian fields, and two's complement.
fn put_field(out: &mut [u8], line: &[u8], b: &mut [u8]) -> usize {
    let at = fields::count(line, 2);
    let width = fields::count(line, 3);
    let v = fields::natural(fields::field(line, 4));
    let end = wire::put_le(b, at, width, v);
    let a = fields::put_number(out, 0, end as u64);
    let c = fields::put_number(out, a, wire::le_at(b, at, width));
    let z = wire::to_signed(v);
    let d = fields::put_integer(out, c, z);
    let e = fields::put_number(out, d, wire::to_unsigned(z));
    put_hex(out, e, b)
}

// ---- D: long messages.
fn put_digest(out: &mut [u8], line: &[u8], b: &[u8]) -> usize {
    let times = fields::natural(fields::field(line, 2));
    let mut st = Sha256::new();
    for _ in 0..times {
        st = st.update(b).state;
    }
    let f = st.finish();
    let bytes = f.bytes;
    put_hex(out, 0, &bytes)
}

fn put_answer(out: &mut [u8], line: &[u8], b: &mut [u8]) -> usize {
    match fields::letter(line) {
        b'B' => put_body(out, line, b),
        b'E' => put_event(out, line, b),
        b'F' => put_filter(out, line, b),
        b'M' => put_message(out, b),
        b'N' => put_newer(out, line, b),
        b'K' => put_class(out, line),
        b'T' => put_again(out, b),
        b'L' => put_field(out, line, b),
        b'D' => put_digest(out, line, b),
        _ => 0,
    }
}

fn respond<W: Write>(output: &mut Output<W>, line: &[u8]) -> io::Result<()> {
    let mut out = [0u8; 65536];
    let mut space = [0u8; 65536];
    let n = spell::put_unhex(&mut space, 0, fields::field(line, 1));
    let k = put_answer(&mut out, line, &mut space[..n]);
    lines::write_line(output, &mut out, k)
}

// Of a line of 65,536 bytes or more it is only said that it is too long.
fn main(rt: HostRuntime) -> io::Result<()> {
    let mut input = lines::from_reader(rt.stdin());
    let mut output = lines::to_writer(rt.stdout());
    let mut line = [0u8; 65536];
    let mut chunk = [0u8; 65536];
    let mut l = lines::next_within(
        &mut input,
        &mut output,
        &mut line,
        &mut chunk,
        lines::none(),
        b"too long\n",
    )?;
    while 0 < l.left {
        respond(&mut output, wire::piece(&line, 0, l.n))?;
        l = lines::next_within(
            &mut input,
            &mut output,
            &mut line,
            &mut chunk,
            l,
            b"too long\n",
        )?;
    }
    Ok(())
}
