// Standard input by lines, one at a call: 0A ends a line and is no part of it; a last line without it counts if it is
// not empty. And standard output by lines. A program reads so:
//
//   let mut input = lines::from_reader(rt.stdin());
//   let mut l = lines::next(&mut input, &mut line, &mut chunk, lines::none())?;
//   while 0 < l.left { ..; l = lines::next(&mut input, &mut line, &mut chunk, l)?; }
#![tactic(auto)]

ghost use Rattle.std.specs.Prelude.{◌≡◌, ◌∷◌, [], ◌≤◌, ◌<◌, length, false, IfOk, IfSome, MatchOption, is_err, ◌||◌};
ghost use Rattle.std.specs.Io.{ReadsAtMost};
ghost use Rattle.wire.specs.Put.{put};
ghost use Rattle.lines.specs.Line.{no_line, NoEnd, IsLine, KeepsLengths};

use std::io;
use std::io::{Read, Write};

// Where lines are read from, and whether a read of it has failed.
#[derive(Drop)]
pub struct Input<R> {
    reader: R,
    failed: bool,
}

// Where lines are written to, and whether a write to it has failed.
#[derive(Drop)]
pub struct Output<W> {
    writer: W,
    failed: bool,
}

pub fn from_reader<R: Read>(reader: R) -> Input<R>
    ensures { result.failed ≡ false }
{
    Input {
        reader,
        failed: false,
    }
}

pub fn to_writer<W: Write>(writer: W) -> Output<W>
    ensures { result.failed ≡ false }
{
    Output {
        writer,
        failed: false,
    }
}

// What there is to read at the moment, as far as it fits the chunk; 0 at the end.
fn read<R: Read>(input: &mut Input<R>, chunk: &mut [u8]) -> io::Result<usize>
    ensures in_bounds { ReadsAtMost result chunk.new }
    ensures failed { input.new.failed ≡ (input.old.failed || is_err result) }
{
    let result = input.reader.read(chunk);
    input.failed |= result.is_err();
    result
}

// These bytes to the output. Of what is written no clause says anything. `failed` tells afterwards whether this or an
// earlier call answered with an error; that the error is the writer's is read off the code, no clause says it.
pub fn write<W: Write>(output: &mut Output<W>, bytes: &[u8]) -> io::Result<()>
    ensures { output.new.failed ≡ (output.old.failed || is_err result) }
{
    let result = output.writer.write_all(bytes);
    output.failed |= result.is_err();
    result
}

// How many lines are left to read with this one, 0 where there was none; how many bytes of it the buffer holds; and
// what of the chunk is still to be taken. A line that fills the buffer may have been longer.
#[derive(Clone, Copy)]
pub struct Line {
    pub left: u64,
    pub n: usize,
    pub at: usize,
    pub end: usize,
}

// Where a text's first line ends, if it ends there.
fn line_end(part: &[u8]) -> Option<usize>
    ensures { MatchOption result (NoEnd part.now (length part.now))
        (λ e. (e < length part.now) × NoEnd part.now e) }
{
    part.iter().position(|b| *b == b'\n')
}

// The line's next bytes, up to its end if that is among them, behind its first n; how many it has then, and where its
// end is. What does not fit is dropped.
fn take(line: &mut [u8], n: usize, part: &[u8]) -> (usize, Option<usize>)
    requires { (n ≤ length line.old) × NoEnd line.old n }
    ensures { (result.0 ≤ length line.old) × (length line.new ≡ length line.old) ×
        NoEnd line.new result.0 × IfSome result.1 (λ e. e < length part.now) }
{
    let end = line_end(part);
    let k = wire::put(line, n, &part[..end.unwrap_or(part.len())]);
    (k, end)
}

// Before the first line. No more than 2^48 - 1 lines are read: a loop over them needs a number that falls.
pub fn none() -> Line
    ensures { result ≡ no_line }
{
    Line {
        left: 0x1_0000_0000_0000,
        n: 0,
        at: 0,
        end: 0,
    }
}

// How many lines are left after one more; nothing where there was none.
fn left_after(some: bool, left: u64) -> u64
    ensures { 0 < left → result < left }
{
    if some { left.saturating_sub(1) } else { 0 }
}

// The line of the input after the line `r`, into `line`; `chunk` holds what was read. An error is one
// of reading (`failed`, as at `write`); it leaves the buffers' lengths as they were.
pub fn next<R: Read>(
    input: &mut Input<R>,
    line: &mut [u8],
    chunk: &mut [u8],
    r: Line,
) -> io::Result<Line>
    ensures line { IfOk result (λ l. IsLine line.old chunk.old r l line.new chunk.new) }
    ensures kept { KeepsLengths line.old chunk.old line.new chunk.new }
    ensures failed { input.new.failed ≡ (input.old.failed || is_err result) }
{
    let mut n: usize = 0;
    let mut at = r.at;
    let mut end = r.end;
    for _turn in 0..0xffff_ffff_ffff_u64 {
        let part = wire::piece(chunk, at, end.saturating_sub(at));
        let (k, line_end) = take(line, n, part);
        n = k;
        if let Some(e) = line_end {
            return Ok(Line {
                left: left_after(true, r.left),
                n,
                at: at + e + 1,
                end,
            });
        }
        at = 0;
        end = read(input, chunk)?;
        if end == 0 {
            return Ok(Line {
                left: left_after(0 < n, r.left),
                n,
                at,
                end,
            });
        }
    }
    Ok(Line {
        left: 0,
        n,
        at: 0,
        end: 0,
    })
}

// The same, but of a line that fills the buffer only the refusal is written to the output, and the line after it is
// taken. An error is one of reading or writing (`failed`, as at `write`); the buffers keep their lengths.
pub fn next_within<R: Read, W: Write>(
    input: &mut Input<R>,
    output: &mut Output<W>,
    line: &mut [u8],
    chunk: &mut [u8],
    r: Line,
    refusal: &[u8],
) -> io::Result<Line>
    ensures line { IfOk result (λ l. IsLine line.old chunk.old r l line.new chunk.new) }
    ensures n_in_bounds { IfOk result (λ l. 0 < l.left → l.n < length line.old) }
    ensures kept { KeepsLengths line.old chunk.old line.new chunk.new }
    ensures failed { (input.new.failed || output.new.failed) ≡
        ((input.old.failed || output.old.failed) || is_err result) }
{
    let mut l = next(input, line, chunk, r)?;
    while 0 < l.left && line.len() <= l.n {
        write(output, refusal)?;
        l = next(input, line, chunk, l)?;
    }
    Ok(l)
}

// The first n bytes of `out` and 0A to the output, of which nothing is said. The 0A is stored there, if it fits, after
// an error too, which is one of writing (`failed`, as at `write`).
pub fn write_line<W: Write>(output: &mut Output<W>, out: &mut [u8], n: usize) -> io::Result<()>
    ensures out_after { out.new ≡ put out.old n (10 ∷ []) }
    ensures failed { output.new.failed ≡ (output.old.failed || is_err result) }
{
    let e = wire::put_byte(out, n, b'\n');
    write(output, wire::piece(out, 0, e))
}
