// Of each line of standard input the lowest of rows 1 to 4 that holds of it as a text, and the lowest of rows 1 to 8
// that holds of it as a message, with `@` and the offset of rows 6 and 7; 0 for none. A line ends at 0A, which is no part
// of it; a last line without it counts if it is not empty. Of a longer line the first 65,536 bytes are kept: they are
// row 1 too.
#![tactic(auto)]

use lines::Output;
use std::io;
use std::io::Write;

fn respond(output: &mut Output<impl Write>, s: &[u8]) -> io::Result<()> {
    let mut buffer = [0u8; 4096];
    let out: &mut [u8] = &mut buffer;
    let a = fields::put_number(out, 0, rows::text_row(s) as u64);
    let n = fields::put_refusal(out, a, shape::message_refusal(s));
    lines::write_line(output, out, n)
}

fn main(rt: HostRuntime) -> io::Result<()> {
    let mut input = lines::from_reader(rt.stdin());
    let mut output = lines::to_writer(rt.stdout());
    let mut line = [0u8; 65536];
    let mut chunk = [0u8; 65536];
    let mut l = lines::next(&mut input, &mut line, &mut chunk, lines::none())?;
    while 0 < l.left {
        respond(&mut output, wire::piece(&line, 0, l.n))?;
        l = lines::next(&mut input, &mut line, &mut chunk, l)?;
    }
    Ok(())
}
