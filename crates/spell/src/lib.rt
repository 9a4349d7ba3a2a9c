// Strings as they are spelled between their quotes: what they decode to, compared, measured and written.
#![tactic(auto)]

ghost use Rattle.std.specs.Prelude.{◌≡◌, length};
ghost use Rattle.wire.specs.Put.{Puts};
ghost use Rattle.wire.specs.Bytes.{same_bytes};
ghost use Rattle.spell.specs.Spell.{unhex, is_surrogate, is_refused, refuses, decode, is_tail, character_count};
ghost use Rattle.spell.specs.Spell.{is_hex_of};
ghost use Rattle.wire.specs.Escape.{escape, json_of, control_count};

mod escapes;
mod steps;

use steps::Decoded;

// One character of a spelling, and how many bytes spell it: a byte of the decoded string (raw), which stands as it is
// or after a backslash, or the code point of an escape with u.
#[derive(Clone, Copy)]
pub struct Char {
    pub code: u32,
    pub raw: bool,
    pub width: usize,
}

fn is_surrogate(n: u32) -> bool
    ensures { result ≡ is_surrogate n }
{
    0xd800 <= n && n <= 0xdfff
}

// A byte of the decoded string, and where what is left after it begins: how many bytes of the character at which place
// are taken.
#[derive(Clone, Copy)]
struct Step {
    pub byte: u8,
    pub at: usize,
    pub taken: usize,
}

fn is_refused(c: Char) -> bool
    ensures { result ≡ is_refused c }
{
    is_surrogate(c.code)
}

// Row 4: whether a spelling has a character that no string may have, which only an escape with u can spell.
pub fn refused(p: &[u8]) -> bool
    ensures { result ≡ refuses p.now }
{
    let mut i = 0;
    while i < p.len() {
        let b = p[i];
        if b != b'\\' {
            i += 1;
            continue;
        }
        let y = wire::byte(p, i + 1);
        if y != b'u' {
            i += 2;
            continue;
        }
        let c = escapes::escape_at(p, i);
        if is_refused(c) {
            return true;
        }
        i += c.width;
    }
    false
}

// Whether two spellings decode alike.
pub fn same(p: &[u8], q: &[u8]) -> bool
    ensures { result ≡ same_bytes (decode p.now) (decode q.now) }
{
    let mut left = Decoded::new(p);
    for b in Decoded::new(q) {
        if left.next() != Some(b) {
            return false;
        }
    }
    left.next().is_none()
}

// Whether a spelling decodes to the bytes of `word`.
pub fn spells(p: &[u8], word: &[u8]) -> bool
    ensures { result ≡ same_bytes (decode p.now) word.now }
{
    let mut rest = Decoded::new(p);
    for b in word {
        if rest.next() != Some(*b) {
            return false;
        }
    }
    rest.next().is_none()
}

fn is_tail(x: u8) -> bool
    ensures { result ≡ is_tail x }
{
    0x80 <= x && x <= 0xbf
}

// How many characters a spelling decodes to.
pub fn characters(p: &[u8]) -> usize
    ensures { result ≡ character_count p.now }
{
    let mut n: usize = 0;
    for b in Decoded::new(p) {
        if !is_tail(b) {
            n += 1;
        }
    }
    n
}

// Whether a spelling decodes to n characters of lower-case hex.
pub fn is_hex(p: &[u8], n: usize) -> bool
    ensures { result ≡ is_hex_of n p.now }
{
    let mut left = n;
    for b in Decoded::new(p) {
        if left == 0 || !wire::is_hex_digit(b) {
            return false;
        }
        left -= 1;
    }
    left == 0
}

// How many bytes a spelling decodes to.
pub fn decoded_len(p: &[u8]) -> usize
    ensures { result ≡ length (decode p.now) }
{
    Decoded::new(p).count()
}

// The bytes that a spelling decodes to, into `out` from `at` on; the index after them.
pub fn put_decoded(out: &mut [u8], at: usize, p: &[u8]) -> usize
    ensures { Puts out.old at (decode p.now) result out.new }
{
    if out.len() < at {
        return out.len();
    }
    let mut o = at;
    for b in Decoded::new(p) {
        o = wire::put_byte(out, o, b);
    }
    o
}

// How long a spelling is once it is decoded and escaped. It fits: a slice has fewer than 2^63 bytes.
// A `for` over `Decoded` takes twice the time on plain text: the two ways to a byte meet there, and each byte is tested
// for a backslash again.
pub fn escaped_len(p: &[u8]) -> usize
    ensures { result ≡ length (escape (decode p.now)) }
{
    let mut i = 0;
    let mut k = 0;
    let mut n: usize = 0;
    while i < p.len() {
        let b = p[i];
        if b != b'\\' {
            i += 1;
            n += wire::escaped_byte_len(b);
            continue;
        }
        let x = steps::advance(p, i, k);
        i = x.at;
        k = x.taken;
        n += wire::escaped_byte_len(x.byte);
    }
    n
}

// What a spelling decodes to, escaped as in the text that is hashed, into `out` from `at` on; the index after it.
pub fn put_escaped(out: &mut [u8], at: usize, p: &[u8]) -> usize
    ensures { Puts out.old at (escape (decode p.now)) result out.new }
{
    if out.len() < at {
        return out.len();
    }
    let mut rest = Decoded::new(p);
    let mut o = wire::put(out, at, rest.pass_same());
    while let Some(b) = rest.next() {
        o = wire::put_escaped_byte(out, o, b);
        o = wire::put(out, o, rest.pass_same());
    }
    o
}

// How many control characters a spelling decodes to that none of the seven escapes is for.
pub fn control_count(p: &[u8]) -> usize
    ensures { result ≡ control_count (decode p.now) }
{
    let mut n: usize = 0;
    for b in Decoded::new(p) {
        n += wire::one_if_control(b);
    }
    n
}

// What a spelling decodes to, escaped as in a reply, byte by byte.
fn put_spelled(out: &mut [u8], at: usize, p: &[u8]) -> usize
    ensures { Puts out.old at (json_of (escape (decode p.now))) result out.new }
{
    if out.len() < at {
        return out.len();
    }
    let mut o = at;
    for b in Decoded::new(p) {
        o = wire::put_json_escaped_byte(out, o, b);
    }
    o
}

// What a spelling decodes to, escaped as in a reply, into `out` from `at` on; the index after it. Most strings stand
// there as in the text that is hashed.
pub fn put_json(out: &mut [u8], at: usize, p: &[u8]) -> usize
    ensures { Puts out.old at (json_of (escape (decode p.now))) result out.new }
{
    if control_count(p) == 0 {
        return put_escaped(out, at, p);
    }
    put_spelled(out, at, p)
}

// The bytes that pairs of hex digits stand for, into `out` from `at` on; the index after them. Any other byte counts as
// the digit 0.
pub fn put_unhex(out: &mut [u8], at: usize, s: &[u8]) -> usize
    ensures { Puts out.old at (unhex s.now) result out.new }
{
    if out.len() < at {
        return out.len();
    }
    let mut o = at;
    for pair in s.chunks_exact(2) {
        let h = escapes::hex_val(pair[0]);
        let l = escapes::hex_val(pair[1]);
        o = wire::put_byte(out, o, (h * 16 + l) as u8);
    }
    o
}
