// Client messages on standard input, one a line: the number of the row that refuses each, with `@` and the offset of
// rows 6 and 7, or 0 and the message spelled anew from its parts: no white space, strings with the seven escapes, filter
// fields in the order of 01 and # conditions by their letter's byte.
#![tactic(auto)]

use json_tree::{Next, Start};
use lines::Output;
use message::{Body, Element, EventParts, FilterParts, Message, ReqParts, Span};
use std::io;
use std::io::Write;

// The part of a text, between quotes, spelled anew.
fn put_string(out: &mut [u8], at: usize, s: &[u8], start: usize, len: usize) -> usize {
    if s.len() < start {
        return at;
    }
    if s.len() - start < len {
        return at;
    }
    let end = start + len;
    let a = wire::put(out, at, b"\"");
    let b = spell::put_escaped(out, a, &s[start..end]);
    wire::put(out, b, b"\"")
}

fn put_span(out: &mut [u8], at: usize, s: &[u8], p: Span) -> usize {
    put_string(out, at, s, p.start, p.len)
}

// Where writing and reading go on.
#[derive(Clone, Copy)]
struct Piece {
    out: usize,
    next: usize,
}

// A string of the text, or a byte of it that is no white space.
fn put_piece(out: &mut [u8], at: usize, s: &[u8], i: usize) -> Piece {
    if s.len() <= i {
        return Piece { out: at, next: i };
    }
    let b = s[i];
    if b == b'"' {
        match json_tree::string(s, i) {
            Some(n) => {
                if n < i + 2 {
                    return Piece {
                        out: at,
                        next: i + 1,
                    };
                }
                let o = put_string(out, at, s, i + 1, n - i - 2);
                return Piece { out: o, next: n };
            }
            None => {
                return Piece {
                    out: at,
                    next: i + 1,
                };
            }
        }
    }
    if b <= b' ' {
        return Piece {
            out: at,
            next: i + 1,
        };
    }
    let o = wire::put_byte(out, at, b);
    Piece {
        out: o,
        next: i + 1,
    }
}

fn value_end(s: &[u8], at: usize) -> usize {
    match json_tree::value(s, at, 8) {
        Some(n) => n,
        None => at,
    }
}

// The value at a place, spelled anew.
fn put_value(out: &mut [u8], at: usize, s: &[u8], from: usize) -> usize {
    let end = value_end(s, from);
    let mut o = at;
    let mut i = from;
    for _ in 0..s.len() {
        if end <= i {
            return o;
        }
        let p = put_piece(out, o, s, i);
        o = p.out;
        i = p.next;
    }
    o
}

fn put_front(out: &mut [u8], at: usize, s: &[u8], e: EventParts) -> usize {
    let id = e.id;
    let body = e.body;
    let pubkey = body.pubkey;
    let a = wire::put(out, at, b"[\"EVENT\",{\"id\":");
    let b = put_span(out, a, s, id);
    let c = wire::put(out, b, b",\"pubkey\":");
    let d = put_span(out, c, s, pubkey);
    let f = wire::put(out, d, b",\"created_at\":");
    numeral::put_decimal(out, f, body.created_at)
}

fn put_middle(out: &mut [u8], at: usize, s: &[u8], body: Body) -> usize {
    let content = body.content;
    let a = wire::put(out, at, b",\"kind\":");
    let b = numeral::put_decimal(out, a, body.kind);
    let c = wire::put(out, b, b",\"tags\":");
    let d = put_value(out, c, s, body.tags);
    let f = wire::put(out, d, b",\"content\":");
    put_span(out, f, s, content)
}

fn put_event(out: &mut [u8], at: usize, s: &[u8], e: EventParts) -> usize {
    let body = e.body;
    let sig = e.sig;
    let a = put_front(out, at, s, e);
    let b = put_middle(out, a, s, body);
    let c = wire::put(out, b, b",\"sig\":");
    let d = put_span(out, c, s, sig);
    wire::put(out, d, b"}]")
}

// A comma, but for the first field of an object.
fn put_comma(out: &mut [u8], at: usize, first: usize) -> usize {
    if at == first {
        at
    } else {
        wire::put(out, at, b",")
    }
}

fn put_list(
    out: &mut [u8],
    at: usize,
    first: usize,
    name: &[u8],
    s: &[u8],
    x: Option<usize>,
) -> usize {
    match x {
        None => at,
        Some(v) => {
            let a = put_comma(out, at, first);
            let b = wire::put(out, a, name);
            put_value(out, b, s, v)
        }
    }
}

fn put_bound(out: &mut [u8], at: usize, first: usize, name: &[u8], x: Option<i64>) -> usize {
    match x {
        None => at,
        Some(n) => {
            let a = put_comma(out, at, first);
            let b = wire::put(out, a, name);
            numeral::put_decimal(out, b, n)
        }
    }
}

// Whether the name that begins at a place is # and the letter.
fn is_condition(s: &[u8], at: usize, letter: u8) -> bool {
    match json_tree::string(s, at) {
        Some(n) => {
            if s.len() < n {
                return false;
            }
            if n < 2 {
                return false;
            }
            let from = n - 1;
            if from <= at {
                return false;
            }
            let start = at + 1;
            let w = [b'#', letter];
            spell::spells(&s[start..from], &w)
        }
        None => false,
    }
}

// The member after the one whose value is at a place.
fn next_member(s: &[u8], v: usize) -> Option<usize> {
    match json_tree::value(s, v, 7) {
        Some(n) => match json_tree::after(s, n, true) {
            Next::More(j) => Some(j),
            Next::Done(_) => None,
            Next::Wrong => None,
        },
        None => None,
    }
}

fn first_member(s: &[u8], at: usize) -> Option<usize> {
    match json_tree::begin(s, at) {
        Start::Leaf => None,
        Start::Empty(_, _) => None,
        Start::Many(i, _) => Some(i),
    }
}

fn value_of(s: &[u8], at: usize) -> usize {
    match json_tree::head(s, at, true) {
        Some(v) => v,
        None => at,
    }
}

// The list of the condition of a letter, in the object at a place.
fn condition(s: &[u8], object: usize, letter: u8) -> Option<usize> {
    let mut x = first_member(s, object);
    for _ in 0..s.len() {
        let i = x?;
        let v = value_of(s, i);
        if is_condition(s, i, letter) {
            return Some(v);
        }
        x = next_member(s, v);
    }
    None
}

fn put_condition(
    out: &mut [u8],
    at: usize,
    first: usize,
    s: &[u8],
    object: usize,
    letter: u8,
) -> usize {
    let name = [b'"', b'#', letter, b'"', b':'];
    put_list(out, at, first, &name, s, condition(s, object, letter))
}

fn put_conditions(out: &mut [u8], at: usize, first: usize, s: &[u8], object: usize) -> usize {
    let mut o = at;
    for letter in b'A'..=b'z' {
        o = put_condition(out, o, first, s, object, letter);
    }
    o
}

fn put_lists(out: &mut [u8], first: usize, s: &[u8], p: FilterParts) -> usize {
    let ids = p.ids;
    let authors = p.authors;
    let kinds = p.kinds;
    let a = put_list(out, first, first, b"\"ids\":", s, ids);
    let b = put_list(out, a, first, b"\"authors\":", s, authors);
    put_list(out, b, first, b"\"kinds\":", s, kinds)
}

fn put_bounds(out: &mut [u8], at: usize, first: usize, p: FilterParts) -> usize {
    let since = p.since;
    let until = p.until;
    let limit = p.limit;
    let a = put_bound(out, at, first, b"\"since\":", since);
    let b = put_bound(out, a, first, b"\"until\":", until);
    put_bound(out, b, first, b"\"limit\":", limit)
}

fn put_filter(out: &mut [u8], at: usize, s: &[u8], place: usize) -> usize {
    let p = message::filter_at(s, place);
    let first = wire::put(out, at, b"{");
    let a = put_lists(out, first, s, p);
    let b = put_bounds(out, a, first, p);
    let c = put_conditions(out, b, first, s, place);
    wire::put(out, c, b"}")
}

fn put_filters(out: &mut [u8], at: usize, s: &[u8], place: usize) -> usize {
    let mut o = at;
    let mut x = Element::At(place);
    for _ in 0..s.len() {
        let Element::At(v) = x else {
            return o;
        };
        o = wire::put(out, o, b",");
        o = put_filter(out, o, s, v);
        x = message::next(s, v);
    }
    o
}

fn put_req(out: &mut [u8], at: usize, s: &[u8], r: ReqParts) -> usize {
    let sub = r.subscription;
    let a = wire::put(out, at, b"[\"REQ\",");
    let b = put_span(out, a, s, sub);
    let c = put_filters(out, b, s, r.filters);
    wire::put(out, c, b"]")
}

fn put_close(out: &mut [u8], at: usize, s: &[u8], p: Span) -> usize {
    let a = wire::put(out, at, b"[\"CLOSE\",");
    let b = put_span(out, a, s, p);
    wire::put(out, b, b"]")
}

// The answer to a line, and how long it is.
fn put_answer(out: &mut [u8], line: &[u8]) -> usize {
    let m = message::read(line);
    match m {
        Err(x) => fields::put_refusal(out, 0, x),
        Ok(Message::Event(e)) => {
            let a = wire::put(out, 0, b"0 ");
            put_event(out, a, line, e)
        }
        Ok(Message::Req(r)) => {
            let a = wire::put(out, 0, b"0 ");
            put_req(out, a, line, r)
        }
        Ok(Message::Close(p)) => {
            let a = wire::put(out, 0, b"0 ");
            put_close(out, a, line, p)
        }
    }
}

fn respond<W: Write>(output: &mut Output<W>, line: &[u8]) -> io::Result<()> {
    let mut buffer = [0u8; 65536];
    let out: &mut [u8] = &mut buffer;
    let n = put_answer(out, line);
    lines::write_line(output, out, n)
}

fn main(rt: HostRuntime) -> io::Result<()> {
    let mut input = lines::from_reader(rt.stdin());
    let mut output = lines::to_writer(rt.stdout());
    let mut line = [0u8; 65536];
    let mut chunk = [0u8; 65536];
    let mut l = lines::next(&mut input, &mut line, &mut chunk, lines::none())?;
    while 0 < l.left {
        respond(&mut output, wire::piece(&line, 0, l.n))?;
        l = lines::next(&mut input, &mut line, &mut chunk, l)?;
    }
    Ok(())
}
