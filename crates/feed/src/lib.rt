// The program's input, fed in pieces: a call takes a piece up to its first line's end, and answers the line that ends
// there. The line so far stands in a lent buffer.
#![tactic(auto)]

ghost use Rattle.std.specs.Prelude.{◌≡◌, true, ◌+◌, ◌≤◌, min, length};
ghost use Rattle.event.specs.Answer.{written_number};
ghost use Rattle.program.specs.Feed.{most_line, before, turned, turn_row, turn_table, turn_line, turn_out, turned_number};
ghost use Rattle.feed.specs.Finish.{feed_finished, finish_row, finish_table, finish_out};
ghost use Rattle.feed.specs.Turn.{looked_at};
ghost use Rattle.feed.specs.Inner.{NoEndFrom, EndFrom, grown, Keeps, InOnePlace, Answers};

use program::Fed;

// A byte more than a message may have tells that the line is too long.
pub const MOST_LINE: usize = wire::MOST_MESSAGE + 1;

// Whether none of the bytes of a block ends a line. All are looked at, with no way out of the loop, so that it is
// compiled to vector code.
fn none_ends(block: &[u8]) -> bool
    ensures { result ≡ true → NoEndFrom block.now 0 (length block.now) }
{
    let mut none = true;
    for b in block {
        none &= *b != b'\n';
    }
    none
}

// Past bytes that end no line, 32 at a time.
fn past_blocks(piece: &[u8]) -> usize
    ensures { EndFrom piece.now result }
{
    let mut i = 0;
    while 32 <= piece.len() - i {
        if !none_ends(&piece[i..i + 32]) {
            return i;
        }
        i += 32;
    }
    i
}

// The place of a text's first line's end, or the text's own, byte after byte.
fn end_in(text: &[u8]) -> usize
    ensures { result ≡ length (before text.now) }
{
    text.iter().position(|b| *b == b'\n').unwrap_or(text.len())
}

// The place of the piece's first line's end, or the piece's own.
fn end_at(piece: &[u8]) -> usize
    ensures { result ≡ length (before piece.now) }
{
    let i = past_blocks(piece);
    i + end_in(&piece[i..])
}

// How many bytes the line so far has.
fn so_far(n: usize) -> usize
    ensures { result ≡ min n most_line }
{
    n.min(MOST_LINE)
}

// What is kept of `part`, behind the n bytes of the line so far; how many bytes the line has then.
fn keep(line: &mut [u8], n: usize, part: &[u8]) -> usize
    requires { most_line ≤ length line.old }
    ensures { Keeps line.old n part.now result line.new }
{
    let many = so_far(n);
    wire::put(line, many, wire::piece(part, 0, MOST_LINE - many))
}

// What a turn looks at of a piece: where the line so far has n bytes and the piece has more of the line, only these.
// They come to stand behind it, so that the next turn, which begins at the line's end, finds the line in one place.
fn looked_at(piece: &[u8], n: usize) -> &[u8]
    ensures { result.now ≡ looked_at n piece.now }
{
    if n == 0 {
        return piece;
    }
    let e = end_at(piece);
    if e == 0 {
        return piece;
    }
    &piece[..e]
}

// The line of which `part` is the end is answered where it stands: in `part`, or in the line buffer.
fn answer_line(
    table: &mut [u8],
    line: &[u8],
    n: usize,
    part: &[u8],
    out: &mut [u8],
) -> Result<usize, u8>
    requires most_line_in_bounds { most_line ≤ length line.now }
    requires part_len { (n ≡ 0 → ⊥) → length part.now ≡ 0 }
    ensures { Answers table.old (grown line.now n part.now) out.old result
        table.new out.new }
{
    if n == 0 {
        return responses::respond(table, part, out);
    }
    let many = so_far(n);
    responses::respond(table, wire::piece(line, 0, many), out)
}

// One turn over what it looks at.
fn turn_over(
    table: &mut [u8],
    line: &mut [u8],
    n: usize,
    piece: &[u8],
    out: &mut [u8],
) -> Result<Fed, u8>
    requires { InOnePlace n piece.now }
    ensures value { result ≡ turned table.old line.old n piece.now out.old }
    ensures result_value { turned_number result ≡ turn_row table.old line.old n piece.now
        out.old }
    ensures table_after { table.new ≡ turn_table table.old line.old n piece.now
        out.old }
    ensures line_after { line.new ≡ turn_line table.old line.old n piece.now
        out.old }
    ensures out_after { out.new ≡ turn_out table.old line.old n piece.now
        out.old }
{
    if line.len() < MOST_LINE {
        return Err(13);
    }
    let e = end_at(piece);
    if piece.len() <= e {
        let k = keep(line, n, piece);
        return Ok(Fed {
            used: e,
            kept: k,
            written: 0,
        });
    }
    let w = answer_line(table, line, n, &piece[..e], out)?;
    keep(line, n, &piece[..e]);
    Ok(Fed {
        used: e + 1,
        kept: 0,
        written: w,
    })
}

// A piece of the input is fed up to its first line's end, and with it; where the first n bytes of `line` are the line so
// far and more of it come, up to its end, which the next turn takes. Row 13 for a line buffer of fewer than 16,385
// bytes, or an output too short; table, line and output then stay as found.
pub fn turn(
    table: &mut [u8],
    line: &mut [u8],
    n: usize,
    piece: &[u8],
    out: &mut [u8],
) -> Result<Fed, u8>
    ensures value { result ≡ turned table.old line.old n (looked_at n piece.now)
        out.old }
    ensures result_value { turned_number result ≡ turn_row table.old line.old n
        (looked_at n piece.now) out.old }
    ensures table_after { table.new ≡ turn_table table.old line.old n
        (looked_at n piece.now) out.old }
    ensures line_after { line.new ≡ turn_line table.old line.old n
        (looked_at n piece.now) out.old }
    ensures out_after { out.new ≡ turn_out table.old line.old n
        (looked_at n piece.now) out.old }
{
    turn_over(table, line, n, looked_at(piece, n), out)
}

// The end of the input: a last line without 0A is answered if it is not empty. Row 13 for an output too short; table
// and output then stay as found.
pub fn finish(table: &mut [u8], line: &[u8], n: usize, out: &mut [u8]) -> Result<usize, u8>
    ensures value { result ≡ feed_finished table.old line.now n out.old }
    ensures result_value { written_number result ≡ finish_row table.old line.now n out.old }
    ensures table_after { table.new ≡ finish_table table.old line.now n out.old }
    ensures out_after { out.new ≡ finish_out table.old line.now n out.old }
{
    let many = so_far(n);
    let m = wire::piece(line, 0, many);
    if m.is_empty() {
        return Ok(0);
    }
    responses::respond(table, m, out)
}
