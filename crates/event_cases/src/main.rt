// Events on standard input, one a line. A line is a message: the lowest of rows 1 to 10 that refuses it when offered,
// with `@` and the offset of rows 6 and 7, or 0, and, where none of rows 1 to 9 does, the SHA-256 of its text in hex and
// the text. A line that begins with `T` and a space is a text to read back alone: 9, 5, or 0 and what writing it again
// gives.
#![tactic(auto)]

use json_tree::Start;
use message::{Body, EventParts, Message, Span};
use shape::Refusal;
use std::io;
use text::{Text, Unread};

// Whether the string that begins at a place is the word EVENT.
fn is_word(s: &[u8], at: usize) -> bool {
    match json_tree::string(s, at) {
        Some(n) => {
            if s.len() < n {
                return false;
            }
            if n < 2 {
                return false;
            }
            let end = n - 1;
            if end <= at {
                return false;
            }
            let start = at + 1;
            spell::spells(&s[start..end], b"EVENT")
        }
        None => false,
    }
}

fn is_event(s: &[u8]) -> bool {
    match json_tree::begin(s, json_tree::space(s, 0)) {
        Start::Leaf => false,
        Start::Empty(_, _) => false,
        Start::Many(i, _) => is_word(s, i),
    }
}

// A row of one or two digits.
fn put_row(out: &mut [u8], at: usize, row: u8) -> usize {
    numeral::put_natural(out, at, row as u64)
}

// The text of a body, after a space; nothing where it is refused.
fn put_text(out: &mut [u8], at: usize, s: &[u8], b: Body) -> usize {
    let mut buffer = [0u8; 4096];
    match event::serialise(s, b, &mut buffer) {
        Ok(n) => {
            if n <= 4096 {
                let a = wire::put(out, at, b" ");
                return wire::put(out, a, &buffer[..n]);
            }
            at
        }
        Err(_) => at,
    }
}

fn put_id(out: &mut [u8], at: usize, s: &[u8], b: Body) -> usize {
    let x = event::id_of(s, b);
    let id = x.id;
    let a = wire::put(out, at, b" ");
    event::put_hex(out, a, &id)
}

fn put_event(out: &mut [u8], s: &[u8], p: EventParts) -> usize {
    let row = event::offered_row(s, p);
    let body = p.body;
    let a = put_row(out, 0, row);
    if row == 0 {
        let b = put_id(out, a, s, body);
        return put_text(out, b, s, body);
    }
    if row == 10 {
        let b = put_id(out, a, s, body);
        return put_text(out, b, s, body);
    }
    a
}

// Row 5 also if the message is no EVENT; rows 1 to 4 go first.
fn put_refused(out: &mut [u8], s: &[u8], x: Refusal) -> usize {
    if x.row <= 5 {
        return fields::put_refusal(out, 0, x);
    }
    if is_event(s) {
        return fields::put_refusal(out, 0, x);
    }
    put_row(out, 0, 5)
}

fn put_offer(out: &mut [u8], s: &[u8]) -> usize {
    let m = message::read(s);
    match m {
        Ok(Message::Event(p)) => put_event(out, s, p),
        Ok(Message::Req(_)) => put_row(out, 0, 5),
        Ok(Message::Close(_)) => put_row(out, 0, 5),
        Err(x) => put_refused(out, s, x),
    }
}

fn put_again(out: &mut [u8], s: &[u8], x: Text) -> usize {
    let b = Body {
        pubkey: Span { start: 4, len: 64 },
        created_at: x.time,
        kind: x.kind as i64,
        tags: x.tags,
        content: Span {
            start: x.content,
            len: x.content_len,
        },
    };
    let a = put_row(out, 0, 0);
    put_text(out, a, s, b)
}

fn put_read(out: &mut [u8], s: &[u8]) -> usize {
    match text::read_text(s) {
        Ok(x) => put_again(out, s, x),
        Err(Unread::TooLarge) => put_row(out, 0, 9),
        Err(Unread::WrongShape) => put_row(out, 0, 5),
    }
}

fn put_answer(out: &mut [u8], line: &[u8]) -> usize {
    if 2 <= line.len() {
        if line[0] == b'T' {
            if line[1] == b' ' {
                return put_read(out, &line[2..]);
            }
        }
    }
    put_offer(out, line)
}

// Of a line over 65,536 bytes the first of them are kept, which the same rows refuse.
fn main(rt: HostRuntime) -> io::Result<()> {
    let mut input = lines::from_reader(rt.stdin());
    let mut output = lines::to_writer(rt.stdout());
    let mut line = [0u8; 65536];
    let mut chunk = [0u8; 65536];
    let mut out = [0u8; 65536];
    let mut l = lines::next(&mut input, &mut line, &mut chunk, lines::none())?;
    while 0 < l.left {
        let k = put_answer(&mut out, wire::piece(&line, 0, l.n));
        lines::write_line(&mut output, &mut out, k)?;
        l = lines::next(&mut input, &mut line, &mut chunk, l)?;
    }
    Ok(())
}
