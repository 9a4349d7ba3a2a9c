// Filters asked of events, one call a line: of the events of a table, or of an event that is lent. The table stands in
// one room that is as large as 1,024 slots and some bytes more; beside it lie lent bytes: messages, and the parts of
// events and filters. A line is a letter and decimal numbers with single spaces between, `x` for an absent one. Of any
// other line nothing is claimed.
//
//   L len fill                  every byte of the room becomes `fill`; its first `len` bytes are the table
//   B bytes                     these bytes to the start of the lent ones
//   F capacity                  formats the table
//   M at len                    offers that part of the lent bytes as a message
//   X at bits                   turns these bits of a byte of the room over; is the table then sound?
//   R fill size at len          the slots that answer the REQ there, into a row of `size` numbers that are all `fill`
//   Q fill size n FILTERS       the slots that answer the first n of lent filters
//   W at len at len             does the EVENT there match a filter of the REQ there?
//   E EVENT n FILTERS           does the event of lent parts match one of the first n of lent filters?
//
//   EVENT is id id_len pubkey pubkey_len created_at kind tags content content_len sig sig_len; FILTERS is four times
// ids authors kinds since
//   until limit conditions, and what is missing at the line's end is absent.
//
// A listing prints its row of 01, then the count and the row of numbers, up to the last that is not `fill`: also
// numbers behind the lent ones would show. A message that is refused by row 6 or 7 has `@` and the offset behind the
// row.
#![tactic(auto)]

ghost use Rattle.std.specs.Prelude.{◌≤◌, length};

use lines::{Input, Output};
use message::{EventParts, FilterParts, Message};
use std::io;
use std::io::{Read, Write};
use table::Offered;

// The numbers of the row: as many as a table has slots at most, and 16 more.
const ROW: usize = wire::MOST_SLOTS + 16;

// The four filters that begin at the line's start.
fn filters(line: &[u8]) -> [FilterParts; 4] {
    let a = fields::filter(line);
    let b = fields::filter(fields::from(line, 7));
    let c = fields::filter(fields::from(line, 14));
    let d = fields::filter(fields::from(line, 21));
    [a, b, c, d]
}

// ---- What is written.
fn put_sound(out: &mut [u8], table: &[u8]) -> usize {
    if slots::sound(table) {
        return wire::put(out, 0, b"sound");
    }
    wire::put(out, 0, b"unsound")
}

fn put_matched(out: &mut [u8], x: Result<bool, u8>) -> usize {
    match x {
        Ok(true) => wire::put(out, 0, b"matches"),
        Ok(false) => wire::put(out, 0, b"differs"),
        Err(row) => fields::put_number(out, 0, row as u64),
    }
}

// How many numbers of a row stand up to the last that is not `fill`.
fn changed(row: &[u16], fill: u16) -> usize
    ensures { result ≤ length row.now }
{
    for i in (0..row.len()).rev() {
        if row[i] != fill {
            return i + 1;
        }
    }
    0
}

fn put_short(out: &mut [u8], at: usize, x: u16) -> usize {
    fields::put_number(out, at, x as u64)
}

// The first n numbers of a row.
fn put_row(out: &mut [u8], at: usize, row: &[u16], n: usize) -> usize
    requires { n ≤ length row.now }
{
    let mut a = at;
    for x in &row[..n] {
        a = put_short(out, a, *x);
    }
    a
}

fn put_changed(out: &mut [u8], at: usize, row: &[u16], fill: u16) -> usize {
    let n = changed(row, fill);
    put_row(out, at, row, n)
}

fn put_listing(out: &mut [u8], x: Result<usize, u8>, row: &[u16], fill: u16) -> usize {
    match x {
        Ok(n) => {
            let a = fields::put_number(out, 0, 0);
            let b = fields::put_number(out, a, n as u64);
            put_changed(out, b, row, fill)
        }
        Err(r) => {
            let a = fields::put_number(out, 0, r as u64);
            put_changed(out, a, row, fill)
        }
    }
}

// ---- The calls.
fn list(
    table: &[u8],
    m: &[u8],
    fs: [FilterParts; 4],
    n: usize,
    row: &mut [u16],
    size: usize,
) -> Result<usize, u8> {
    if row.len() < size {
        return Err(0);
    }
    matching::answer(table, m, fs, n, &mut row[..size])
}

fn put_list(
    out: &mut [u8],
    line: &[u8],
    table: &[u8],
    m: &[u8],
    fs: [FilterParts; 4],
    n: usize,
) -> usize {
    let fill = fields::short(line, 1);
    let mut row = [fill; ROW];
    let x = list(table, m, fs, n, &mut row, fields::count(line, 2));
    put_listing(out, x, &row, fill)
}

fn put_req(out: &mut [u8], line: &[u8], lent: &[u8], table: &[u8]) -> usize {
    let m = wire::piece(lent, fields::count(line, 3), fields::count(line, 4));
    match message::read(m) {
        Ok(Message::Req(p)) => {
            let f = message::filters_at(m, p.filters);
            let fs = f.parts;
            put_list(out, line, table, m, fs, f.n)
        }
        Err(x) => fields::put_refusal(out, 0, x),
        Ok(Message::Event(_)) | Ok(Message::Close(_)) => wire::put(out, 0, b"no REQ"),
    }
}

fn put_asked(out: &mut [u8], b: &[u8], p: EventParts, m: &[u8]) -> usize {
    match message::read(m) {
        Ok(Message::Req(q)) => {
            let f = message::filters_at(m, q.filters);
            let fs = f.parts;
            put_matched(out, matching::matched(b, p, m, fs, f.n))
        }
        Err(x) => fields::put_refusal(out, 0, x),
        Ok(Message::Event(_)) | Ok(Message::Close(_)) => wire::put(out, 0, b"no REQ"),
    }
}

fn put_met(out: &mut [u8], line: &[u8], lent: &[u8]) -> usize {
    let b = wire::piece(lent, fields::count(line, 1), fields::count(line, 2));
    let m = wire::piece(lent, fields::count(line, 3), fields::count(line, 4));
    match message::read(b) {
        Ok(Message::Event(p)) => put_asked(out, b, p, m),
        Err(x) => fields::put_refusal(out, 0, x),
        Ok(Message::Req(_)) | Ok(Message::Close(_)) => wire::put(out, 0, b"no EVENT"),
    }
}

fn put_offered(out: &mut [u8], x: Result<Offered, shape::Refusal>) -> usize {
    match x {
        Err(r) => fields::put_refusal(out, 0, r),
        _ => fields::put_number(out, 0, 0),
    }
}

// The row of an offer, and the table's count.
fn put_offer(out: &mut [u8], line: &[u8], lent: &[u8], table: &mut [u8]) -> usize {
    let m = wire::piece(lent, fields::count(line, 1), fields::count(line, 2));
    let a = put_offered(out, offers::offer_message(table, m));
    fields::put_number(out, a, wire::le_at(table, slots::COUNT_PLACE, 4))
}

fn put_answer(out: &mut [u8], line: &[u8], lent: &[u8], table: &mut [u8]) -> usize {
    match fields::letter(line) {
        b'F' => {
            let row = slots::format(table, fields::count(line, 1));
            fields::put_number(out, 0, row as u64)
        }
        b'M' => put_offer(out, line, lent, table),
        b'X' => put_sound(out, table),
        b'R' => put_req(out, line, lent, table),
        b'Q' => put_list(
            out,
            line,
            table,
            lent,
            filters(fields::from(line, 4)),
            fields::count(line, 3),
        ),
        b'W' => put_met(out, line, lent),
        b'E' => put_matched(
            out,
            matching::matched(
                lent,
                fields::event(fields::from(line, 1)),
                lent,
                filters(fields::from(line, 13)),
                fields::count(line, 12),
            ),
        ),
        _ => 0,
    }
}

fn put_call(out: &mut [u8], line: &[u8], lent: &[u8], room: &mut [u8], n: usize) -> usize {
    if room.len() < n {
        return 0;
    }
    put_answer(out, line, lent, &mut room[..n])
}

// The longest answer, a list of 1,024 slots, has 4,016 bytes.
fn step<W: Write>(
    output: &mut Output<W>,
    line: &[u8],
    lent: &mut [u8],
    room: &mut [u8],
    n: usize,
) -> io::Result<usize> {
    fields::change_lent(line, lent);
    fields::change_room(line, room);
    let len = fields::table_len(line, n);
    let mut out = [0u8; 4096];
    let a = put_call(&mut out, line, lent, room, len);
    lines::write_line(output, &mut out, a)?;
    Ok(len)
}

// Of a line of 65,536 bytes or more it is only said that it is too long.
fn read_all<R: Read, W: Write>(
    input: &mut Input<R>,
    output: &mut Output<W>,
    room: &mut [u8],
) -> io::Result<()> {
    let mut line = [0u8; 65536];
    let mut chunk = [0u8; 65536];
    let mut lent = [0u8; 65536];
    let mut n: usize = 0;
    let mut l = lines::next_within(
        input,
        output,
        &mut line,
        &mut chunk,
        lines::none(),
        b"too long\n",
    )?;
    while 0 < l.left {
        n = step(output, wire::piece(&line, 0, l.n), &mut lent, room, n)?;
        l = lines::next_within(input, output, &mut line, &mut chunk, l, b"too long\n")?;
    }
    Ok(())
}

fn main(rt: HostRuntime) -> io::Result<()> {
    let mut input = lines::from_reader(rt.stdin());
    let mut output = lines::to_writer(rt.stdout());
    let mut room = fields::allocated_room(rt.alloc())?;
    read_all(&mut input, &mut output, room.as_mut_slice())
}
