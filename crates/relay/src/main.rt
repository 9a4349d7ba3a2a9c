// The relay: messages on standard input, one a line, over a fresh table of 8 slots; their replies on standard output,
// each ended with 0A. What matters is proved of `feed`; here are the buffers, and the order of reading and writing.
#![tactic(auto)]

ghost use Rattle.std.specs.Prelude.{◌≡◌, ◌≤◌, ◌<◌, length, replicate, IfOk};
ghost use Rattle.program.specs.Program.{program_slots, fresh_table};
ghost use Rattle.program.specs.Feed.{most_line};
ghost use Rattle.program.specs.Claims.Respond.{enough_for};
ghost use Rattle.relay.specs.Inner.{Ready, Stands, waiting_from};

use std::io;
use std::io::{Read, Write};

// How many bytes of the chunk are used up, how many the line so far has, and how many of the output wait to be written.
#[derive(Clone, Copy)]
struct Place {
    at: usize,
    n: usize,
    w: usize,
}

fn write<W: Write>(output: &mut W, out: &[u8], w: usize) -> io::Result<()>
    requires { w ≤ length out.now }
{
    output.write_all(&out[..w])
}

// One turn, into the free rest of the output. Where that is too short, what waits is written, and the next turn has the
// whole output. After an error too the buffers are ready.
fn step<W: Write>(
    output: &mut W,
    table: &mut [u8],
    line: &mut [u8],
    chunk: &[u8],
    out: &mut [u8],
    p: Place,
) -> io::Result<Place>
    requires ready { Ready table.old line.old out.old }
    requires stands { Stands chunk.now out.old p }
    requires at_in_bounds { p.at < length chunk.now }
    ensures ready_2 { Ready table.new line.new out.new }
    ensures stands_2 { IfOk result (λ q. Stands chunk.now out.new q) }
    ensures result_bound { IfOk result (λ q. waiting_from chunk.now q < waiting_from chunk.now p) }
{
    let at = p.at;
    let w = p.w;
    match feed::turn(table, line, p.n, &chunk[at..], &mut out[w..]) {
        Ok(f) => {
            let next = at + f.used;
            let filled = w + f.written;
            Ok(Place {
                at: next,
                n: f.kept,
                w: filled,
            })
        }
        Err(_) => {
            write(output, out, w)?;
            Ok(Place { at, n: p.n, w: 0 })
        }
    }
}

// A chunk of the input is fed, and all that it is answered written; how many bytes the line so far has then.
fn feed_chunk<W: Write>(
    output: &mut W,
    table: &mut [u8],
    line: &mut [u8],
    n: usize,
    chunk: &[u8],
    out: &mut [u8],
) -> io::Result<usize>
    requires { Ready table.old line.old out.old }
    ensures { Ready table.new line.new out.new }
{
    let mut p = Place { at: 0, n, w: 0 };
    while p.at < chunk.len() {
        p = step(output, table, line, chunk, out, p)?;
    }
    write(output, out, p.w)?;
    output.flush()?;
    Ok(p.n)
}

// What the input has at the moment, as far as it fits the chunk; how many bytes the line so far has then, or none at the
// input's end.
fn read_once<R: Read, W: Write>(
    input: &mut R,
    output: &mut W,
    table: &mut [u8],
    line: &mut [u8],
    n: usize,
    chunk: &mut [u8],
    out: &mut [u8],
) -> io::Result<Option<usize>>
    requires { Ready table.old line.old out.old }
    ensures { Ready table.new line.new out.new }
{
    let k = input.read(chunk)?;
    if k == 0 {
        return Ok(None);
    }
    let next = feed_chunk(output, table, line, n, &chunk[..k], out)?;
    Ok(Some(next))
}

// The end of the input.
fn end<W: Write>(
    output: &mut W,
    table: &mut [u8],
    line: &[u8],
    n: usize,
    out: &mut [u8],
) -> io::Result<()> {
    match feed::finish(table, line, n, out) {
        Ok(w) => write(output, out, w)?,
        Err(_) => {}
    }
    output.flush()
}

fn run<R: Read, W: Write>(
    input: &mut R,
    output: &mut W,
    table: &mut [u8],
    line: &mut [u8],
    chunk: &mut [u8],
    out: &mut [u8],
) -> io::Result<()>
    requires table_value { table.old ≡ fresh_table }
    requires most_line_in_bounds { most_line ≤ length line.old }
    requires program_slots_in_bounds { enough_for program_slots ≤ length out.old }
{
    let mut n: usize = 0;
    for _ in 0..0xffff_ffff_ffff_u64 {
        let Some(next) = read_once(input, output, table, line, n, chunk, out)? else {
            return end(output, table, line, n, out);
        };
        n = next;
    }
    Ok(())
}

// As many zeros as a table of 8 slots has bytes.
fn zeros() -> [u8; 33680]
    ensures { result ≡ replicate 33680 0 }
{
    [0; 33680]
}

// As many as what is kept of a line.
fn line_zeros() -> [u8; feed::MOST_LINE]
    ensures { most_line ≡ length result }
{
    [0; feed::MOST_LINE]
}

// An output that is never too short: 24,827 bytes for each of 8 slots, and 428.
fn output_zeros() -> [u8; 199044]
    ensures { 199044 ≡ length result }
{
    [0; 199044]
}

fn main(rt: HostRuntime) -> io::Result<()> {
    let mut input = rt.stdin();
    let mut output = rt.stdout();
    let mut table = zeros();
    slots::format(&mut table, 8);
    let mut line = line_zeros();
    let mut chunk = [0u8; 65536];
    let mut out = output_zeros();
    run(
        &mut input,
        &mut output,
        &mut table,
        &mut line,
        &mut chunk,
        &mut out,
    )
}
