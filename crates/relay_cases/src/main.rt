// Runs of the relay, each over a fresh table of 8 slots. A line is a letter and, with nothing between, what belongs to
// it:
//
//   N cut       a new run, fed in pieces of `cut` bytes; 0: as they come
//   L bytes     feeds these bytes and 0A
//   P bytes     feeds these bytes
//   R b count   feeds the byte b, `count` times
//   E           the end of the run's input
//
// What the relay writes is printed, and after each end a line `E`. Of any other line nothing is claimed.
#![tactic(auto)]

ghost use Rattle.std.specs.Prelude.{◌≡◌, ◌≤◌, length};
ghost use Rattle.program.specs.Feed.{most_line};

use lines::{Input, Output};
use numeral::Whole;
use std::io;
use std::io::{Read, Write};

// How many bytes the relay's line has so far, and how large the pieces are.
#[derive(Clone, Copy)]
struct Run {
    n: usize,
    cut: usize,
}

// The number that is spelled there; 0 where there is none, or one below 0.
fn number(p: &[u8]) -> usize {
    match numeral::read_whole(p) {
        Whole::Value(z) => {
            if z < 0 {
                return 0;
            }
            wire::to_unsigned(z) as usize
        }
        Whole::Large => 0,
        Whole::Malformed => 0,
    }
}

fn write_out<W: Write>(output: &mut Output<W>, out: &[u8], n: usize) -> io::Result<()> {
    lines::write(output, wire::piece(out, 0, n))
}

// A piece, line by line; how many bytes the line has then.
fn feed_piece<W: Write>(
    output: &mut Output<W>,
    table: &mut [u8],
    line: &mut [u8],
    n: usize,
    piece: &[u8],
    out: &mut [u8],
) -> io::Result<usize> {
    let mut k = n;
    let mut at: usize = 0;
    for _ in 0..piece.len() {
        if piece.len() <= at {
            return Ok(k);
        }
        let left = piece.len() - at;
        let Ok(f) = feed::turn(table, line, k, &piece[at..], out) else {
            return Ok(k);
        };
        write_out(output, out, f.written)?;
        at = at + f.used.min(left);
        k = f.kept;
    }
    Ok(k)
}

fn size_of(cut: usize, most: usize) -> usize {
    if cut == 0 {
        return most;
    }
    cut
}

// Bytes in pieces; how many bytes the line has then.
fn feed_all<W: Write>(
    output: &mut Output<W>,
    table: &mut [u8],
    line: &mut [u8],
    r: Run,
    p: &[u8],
    out: &mut [u8],
) -> io::Result<usize> {
    let size = size_of(r.cut, p.len());
    let mut k = r.n;
    let mut rest = p.len();
    for _ in 0..p.len() {
        let at = p.len() - rest.min(p.len());
        k = feed_piece(output, table, line, k, wire::piece(p, at, size), out)?;
        rest = rest - size.min(rest);
    }
    Ok(k)
}

// One byte, many times.
fn feed_many<W: Write>(
    output: &mut Output<W>,
    table: &mut [u8],
    line: &mut [u8],
    r: Run,
    b: u8,
    count: usize,
    out: &mut [u8],
) -> io::Result<usize> {
    let cut = r.cut;
    let mut bytes = [0u8; 4096];
    fields::fill(&mut bytes, b);
    let mut k = r.n;
    let mut rest = count;
    while 0 < rest {
        let size = rest.min(bytes.len());
        if size == 0 {
            return Ok(k);
        }
        k = feed_all(output, table, line, Run { n: k, cut }, &bytes[..size], out)?;
        rest = rest - size;
    }
    Ok(k)
}

fn end_run<W: Write>(
    output: &mut Output<W>,
    table: &mut [u8],
    line: &[u8],
    n: usize,
    out: &mut [u8],
) -> io::Result<()> {
    match feed::finish(table, line, n, out) {
        Ok(w) => write_out(output, out, w)?,
        Err(_) => {}
    }
    lines::write(output, b"E\n")
}

// The letter R, a byte, and how often.
fn feed_repeated<W: Write>(
    output: &mut Output<W>,
    table: &mut [u8],
    line: &mut [u8],
    r: Run,
    given: &[u8],
    out: &mut [u8],
) -> io::Result<usize> {
    let n = given.len();
    if n < 3 {
        return Ok(r.n);
    }
    feed_many(
        output,
        table,
        line,
        r,
        given[1],
        number(wire::piece(given, 2, n - 3)),
        out,
    )
}

// How many bytes the relay's line has after a line that feeds it.
fn feed_given<W: Write>(
    output: &mut Output<W>,
    table: &mut [u8],
    line: &mut [u8],
    r: Run,
    given: &[u8],
    out: &mut [u8],
) -> io::Result<usize> {
    let n = given.len();
    if n < 2 {
        return Ok(r.n);
    }
    match given[0] {
        b'L' => feed_all(output, table, line, r, &given[1..], out),
        b'P' => feed_all(output, table, line, r, wire::piece(given, 1, n - 2), out),
        b'R' => feed_repeated(output, table, line, r, given, out),
        _ => Ok(r.n),
    }
}

// The run after a line, which ends with 0A.
fn step<W: Write>(
    output: &mut Output<W>,
    table: &mut [u8],
    line: &mut [u8],
    r: Run,
    given: &[u8],
    out: &mut [u8],
) -> io::Result<Run> {
    let n = given.len();
    if n < 2 {
        return Ok(r);
    }
    let cut = r.cut;
    if given[0] == b'N' {
        slots::format(table, 8);
        let size = number(wire::piece(given, 1, n - 2));
        return Ok(Run { n: 0, cut: size });
    }
    if given[0] == b'E' {
        end_run(output, table, line, r.n, out)?;
        return Ok(Run { n: 0, cut });
    }
    let k = feed_given(output, table, line, r, given, out)?;
    Ok(Run { n: k, cut })
}

// A line of k bytes; one of 65,536 or more is left out.
fn respond<W: Write>(
    output: &mut Output<W>,
    table: &mut [u8],
    line: &mut [u8],
    r: Run,
    given: &mut [u8],
    k: usize,
    out: &mut [u8],
) -> io::Result<Run> {
    if k < given.len() {
        given[k] = b'\n';
        let n = k + 1;
        return step(output, table, line, r, &given[..n], out);
    }
    Ok(r)
}

fn read_all<R: Read, W: Write>(
    input: &mut Input<R>,
    output: &mut Output<W>,
    table: &mut [u8],
    line: &mut [u8],
    given: &mut [u8],
    chunk: &mut [u8],
    out: &mut [u8],
) -> io::Result<()> {
    let mut now = Run { n: 0, cut: 0 };
    let mut l = lines::none();
    for _ in 0..0xffff_ffff_ffff_u64 {
        l = lines::next(input, given, chunk, l)?;
        if l.left == 0 {
            return Ok(());
        }
        now = respond(output, table, line, now, given, l.n, out)?;
    }
    Ok(())
}

// 16 + 8 * 4208 bytes.
fn no_slots() -> [u8; 33680]
    ensures { 33680 ≡ length result }
{
    [0; 33680]
}

// A byte more than a message may have.
fn no_line() -> [u8; feed::MOST_LINE]
    ensures { most_line ≡ length result }
{
    [0; feed::MOST_LINE]
}

// 8 * 24,827 + 428 bytes: no answer is longer.
fn no_output() -> [u8; 199044]
    ensures { 199044 ≡ length result }
{
    [0; 199044]
}

fn main(rt: HostRuntime) -> io::Result<()> {
    let mut input = lines::from_reader(rt.stdin());
    let mut output = lines::to_writer(rt.stdout());
    let mut table = no_slots();
    let mut line = no_line();
    let mut given = [0u8; 65536];
    let mut chunk = [0u8; 65536];
    let mut out = no_output();
    read_all(
        &mut input,
        &mut output,
        &mut table,
        &mut line,
        &mut given,
        &mut chunk,
        &mut out,
    )
}
