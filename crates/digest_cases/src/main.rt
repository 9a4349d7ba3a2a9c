// Digests of the messages on standard input. A line is a message in lower-case hex (`-` for the empty one) of up to
// 8,192 bytes and then, after a space, the lengths of the pieces it is fed in, with commas; what is left over is the
// last piece. The answer is the digest in hex, or `bad line`.
#![tactic(auto)]

ghost use Rattle.std.specs.Prelude.{◌≤◌, ◌<◌, length, IfSome};

use digest::Sha256;
use lines::Output;
use std::io;
use std::io::Write;

// The number of a hex digit.
fn nibble(b: u8) -> Option<u8>
    ensures { IfSome result (λ d. d < 16) }
{
    match b {
        b'0'..=b'9' => Some(b - b'0'),
        b'a'..=b'f' => Some(b - b'a' + 10),
        _ => None,
    }
}

// The bytes that `hex` spells, into `out`; how many they are, if it spells any.
fn unhex(hex: &[u8], out: &mut [u8]) -> Option<usize>
    ensures { IfSome result (λ n. n ≤ length out.old) }
{
    let n = hex.len() / 2;
    if hex.len() % 2 != 0 || out.len() < n {
        return None;
    }
    for i in 0..n {
        let a = nibble(hex[2 * i])?;
        let b = nibble(hex[2 * i + 1])?;
        out[i] = a * 16 + b;
    }
    Some(n)
}

// The message before the first space, into `out`; how many bytes it has.
fn message(line: &[u8], end: usize, out: &mut [u8]) -> Option<usize>
    requires { end ≤ length line.now }
    ensures { IfSome result (λ n. n ≤ length out.old) }
{
    if end == 0 {
        return None;
    }
    if end == 1 && line[0] == b'-' {
        return Some(0);
    }
    unhex(&line[..end], out)
}

// Where the first byte b stands from `at` on, or the end.
fn find(line: &[u8], at: usize, b: u8) -> usize
    requires { at ≤ length line.now }
    ensures { (at ≤ result) × (result ≤ length line.now) }
{
    for i in at..line.len() {
        if line[i] == b {
            return i;
        }
    }
    line.len()
}

// A length of one to four digits with no needless leading zero.
fn number(p: &[u8]) -> Option<usize> {
    let n = p.len();
    if n == 0 || 4 < n {
        return None;
    }
    if 1 < n && p[0] == b'0' {
        return None;
    }
    let mut v: usize = 0;
    for d in p {
        if !(b'0'..=b'9').contains(d) {
            return None;
        }
        v = v * 10 % 10000 + (*d - b'0') as usize;
    }
    Some(v)
}

// How far a message is fed, and the state then.
#[derive(Clone, Copy)]
struct Fed {
    at: usize,
    state: Sha256,
}

// The piece of the message from `at` on that is as long as `p` says.
fn piece(state: Sha256, m: &[u8], at: usize, p: &[u8]) -> Option<Fed>
    requires { at ≤ length m.now }
    ensures { IfSome result (λ f. f.at ≤ length m.now) }
{
    let n = number(p)?;
    if m.len() - at < n {
        return None;
    }
    let end = at + n;
    let u = state.update(&m[at..end]);
    Some(Fed {
        at: end,
        state: u.state,
    })
}

// What is left of the message from `at` on.
fn last(state: Sha256, m: &[u8], at: usize) -> Sha256
    requires { at ≤ length m.now }
{
    let u = state.update(&m[at..]);
    u.state
}

// The pieces whose lengths stand in `line` from `from` on, and what is left over.
fn pieces(m: &[u8], line: &[u8], from: usize) -> Option<Sha256>
    requires { from ≤ length line.now }
{
    let mut f = Fed {
        at: 0,
        state: Sha256::new(),
    };
    let mut i = from;
    for _ in 0..line.len() {
        let e = find(line, i, b',');
        f = piece(f.state, m, f.at, &line[i..e])?;
        if line.len() <= e {
            break;
        }
        i = e + 1;
    }
    Some(last(f.state, m, f.at))
}

// The hex digit of a number below 16.
fn digit(x: u8) -> u8 {
    if x < 10 {
        b'0' + x
    } else {
        b'a' + (x - 10) % 16
    }
}

fn show<W: Write>(output: &mut Output<W>, state: Sha256) -> io::Result<()> {
    let f = state.finish();
    let d = f.bytes;
    let mut out = [b'\n'; 65];
    for i in 0..32 {
        out[2 * i] = digit(d[i] / 16);
        out[2 * i + 1] = digit(d[i] % 16);
    }
    lines::write(output, &out)
}

fn refuse<W: Write>(output: &mut Output<W>) -> io::Result<()> {
    lines::write(output, b"bad line\n")
}

// The answer to a line.
fn respond<W: Write>(output: &mut Output<W>, line: &[u8]) -> io::Result<()> {
    let end = find(line, 0, b' ');
    let mut buf = [0u8; 8192];
    let Some(n) = message(line, end, &mut buf) else {
        return refuse(output);
    };
    if end == line.len() {
        let u = Sha256::new().update(&buf[..n]);
        return show(output, u.state);
    }
    match pieces(&buf[..n], line, end + 1) {
        Some(s) => show(output, s),
        None => refuse(output),
    }
}

// A line of 65,536 bytes or more is a bad one.
fn main(rt: HostRuntime) -> io::Result<()> {
    let mut input = lines::from_reader(rt.stdin());
    let mut output = lines::to_writer(rt.stdout());
    let mut line = [0u8; 65536];
    let mut chunk = [0u8; 65536];
    let mut l = lines::next_within(
        &mut input,
        &mut output,
        &mut line,
        &mut chunk,
        lines::none(),
        b"bad line\n",
    )?;
    while 0 < l.left {
        respond(&mut output, wire::piece(&line, 0, l.n))?;
        l = lines::next_within(
            &mut input,
            &mut output,
            &mut line,
            &mut chunk,
            l,
            b"bad line\n",
        )?;
    }
    Ok(())
}
