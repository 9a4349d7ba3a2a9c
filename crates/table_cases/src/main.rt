// The calls on a table, one a line, over one room that is as large as 1,024 slots and some bytes more. Beside it lie lent
// bytes: messages, and the parts of events. A line is a letter and decimal numbers with single spaces between. Of any
// other line nothing is claimed.
//
//   L len fill every byte of the room becomes `fill`; its first `len` bytes are the table
//   B bytes                                           these bytes to the start of the lent ones
//   F capacity                                        formats the table
//   M at len                                          offers that part of the lent bytes as a message
//   J at len                                          asks what the same offer would be answered
//   P id id_len pubkey pubkey_len created_at kind tags content content_len sig sig_len offers parts of the lent bytes
//   S                                                 is the table sound?
//   H slot                                            shows a slot: its place, its length, a print of its bytes
//   X at bits turns these bits of a byte of the room over; is the table then sound?
//
// Each line prints its answer, the table's count and a print of the table and the 64 bytes behind it: what a call wrote
// shows in it. A message that is refused by row 6 or 7 has `@` and the offset behind the row, parts have not.
#![tactic(auto)]

use lines::{Input, Output};
use std::io;
use std::io::{Read, Write};
use table::Offered;

// ---- What is written.
// The first eight bytes of a digest.
fn put_print(out: &mut [u8], at: usize, p: &[u8]) -> usize {
    let d = digest::digest_of(p);
    let bytes = d.bytes;
    let a = fields::put_gap(out, at);
    event::put_hex(out, a, wire::piece(&bytes, 0, 8))
}

fn put_sound(out: &mut [u8], table: &[u8]) -> usize {
    if slots::sound(table) {
        return fields::put_word(out, 0, b"sound");
    }
    fields::put_word(out, 0, b"unsound")
}

fn put_shown(out: &mut [u8], table: &[u8], slot: usize) -> usize {
    let text = slots::show(table, slot);
    match slots::shown_at(table, slot) {
        Ok((at, len)) => {
            let a = fields::put_number(out, 0, 0);
            let b = fields::put_number(out, a, at as u64);
            let c = fields::put_number(out, b, len as u64);
            put_print(out, c, text)
        }
        Err(row) => {
            let a = fields::put_number(out, 0, row as u64);
            put_print(out, a, text)
        }
    }
}

fn put_offered(out: &mut [u8], x: Result<Offered, shape::Refusal>) -> usize {
    match x {
        Ok(Offered::Ephemeral) => fields::put_word(out, 0, b"0 ephemeral"),
        Ok(Offered::Duplicate) => fields::put_word(out, 0, b"0 duplicate"),
        Ok(Offered::Older) => fields::put_word(out, 0, b"0 older"),
        Ok(Offered::Stored) => fields::put_word(out, 0, b"0 stored"),
        Err(r) => {
            let a = fields::put_refusal(out, 0, r);
            fields::put_word(out, a, b"refused")
        }
    }
}

// ---- The calls.
fn put_message(out: &mut [u8], line: &[u8], lent: &[u8], table: &mut [u8]) -> usize {
    let m = wire::piece(lent, fields::count(line, 1), fields::count(line, 2));
    put_offered(out, offers::offer_message(table, m))
}

fn put_judged(out: &mut [u8], line: &[u8], lent: &[u8], table: &[u8]) -> usize {
    let m = wire::piece(lent, fields::count(line, 1), fields::count(line, 2));
    put_offered(out, offers::judge_message(table, m))
}

fn put_answer(out: &mut [u8], line: &[u8], lent: &[u8], table: &mut [u8]) -> usize {
    match fields::letter(line) {
        b'F' => {
            let row = slots::format(table, fields::count(line, 1));
            fields::put_number(out, 0, row as u64)
        }
        b'M' => put_message(out, line, lent, table),
        b'J' => put_judged(out, line, lent, table),
        b'P' => put_offered(
            out,
            offers::offer_parts(table, lent, fields::event(fields::from(line, 1))),
        ),
        b'S' => put_sound(out, table),
        b'X' => put_sound(out, table),
        b'H' => put_shown(out, table, fields::count(line, 1)),
        _ => 0,
    }
}

fn put_call(out: &mut [u8], line: &[u8], lent: &[u8], room: &mut [u8], n: usize) -> usize {
    if room.len() < n {
        return 0;
    }
    put_answer(out, line, lent, &mut room[..n])
}

// The table and 64 bytes behind it, as far as the room goes.
fn looked_at(room: &[u8], n: usize) -> &[u8] {
    if room.len() <= n {
        return room;
    }
    wire::piece(room, 0, n + 64)
}

fn step<W: Write>(
    output: &mut Output<W>,
    line: &[u8],
    lent: &mut [u8],
    room: &mut [u8],
    n: usize,
) -> io::Result<usize> {
    fields::change_lent(line, lent);
    fields::change_room(line, room);
    let len = fields::table_len(line, n);
    let mut out = [0u8; 4096];
    let a = put_call(&mut out, line, lent, room, len);
    let b = fields::put_number(&mut out, a, wire::le_at(room, slots::COUNT_PLACE, 4));
    let c = put_print(&mut out, b, looked_at(room, len));
    lines::write_line(output, &mut out, c)?;
    Ok(len)
}

// Of a line of 65,536 bytes or more it is only said that it is too long.
fn read_all<R: Read, W: Write>(
    input: &mut Input<R>,
    output: &mut Output<W>,
    room: &mut [u8],
) -> io::Result<()> {
    let mut line = [0u8; 65536];
    let mut chunk = [0u8; 65536];
    let mut lent = [0u8; 65536];
    let mut n: usize = 0;
    let mut l = lines::next_within(
        input,
        output,
        &mut line,
        &mut chunk,
        lines::none(),
        b"too long\n",
    )?;
    while 0 < l.left {
        n = step(output, wire::piece(&line, 0, l.n), &mut lent, room, n)?;
        l = lines::next_within(input, output, &mut line, &mut chunk, l, b"too long\n")?;
    }
    Ok(())
}

fn main(rt: HostRuntime) -> io::Result<()> {
    let mut input = lines::from_reader(rt.stdin());
    let mut output = lines::to_writer(rt.stdout());
    let mut room = fields::allocated_room(rt.alloc())?;
    read_all(&mut input, &mut output, room.as_mut_slice())
}
