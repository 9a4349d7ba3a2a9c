// A string of the text, up to its closing quote.
ghost use Rattle.std.specs.Prelude.{◌≡◌, true, false, cond, ◌+◌, ◌≤◌, length, drop};
ghost use Rattle.utf8.specs.Utf8.{is_utf8};
ghost use Rattle.text.specs.Read.{stands_at, is_raw, body_from, string_at};
ghost use Rattle.text.specs.Inner.Parts.{got_end, is_letter, Passes, Raws, no_zero_byte};

// Whether the bytes of `w` stand at a place.
pub(crate) fn stands(s: &[u8], at: usize, w: &[u8]) -> bool
    requires { no_zero_byte w.now ≡ true }
    ensures { result ≡ stands_at s.now w.now at }
{
    let mut i = at;
    for b in w {
        if wire::byte(s, i) != *b {
            return false;
        }
        i += 1;
    }
    true
}

// Whether a letter after a backslash stands for a byte.
pub(crate) fn is_letter(c: u8) -> bool
    ensures { result ≡ is_letter c }
{
    (c == b'n')
        | ((c == b'"')
            | ((c == b'\\') | ((c == b'r') | ((c == b't') | ((c == b'b') | (c == b'f'))))))
}

// Whether a byte of a string stands as it is: it is none of the seven that have an escape. All seven are tested, with
// no branch.
pub(crate) fn is_raw(x: u8) -> bool
    ensures { result ≡ is_raw x }
{
    (x != b'\n')
        & (x != b'"')
        & (x != b'\\')
        & (x != b'\r')
        & (x != b'\t')
        & (x != 0x08)
        & (x != 0x0c)
}

// The place in a block where the bytes that stand as they are end at the latest: at k, unless the byte there is one.
pub(crate) fn end_at(k: u8, raw: bool) -> u8
    ensures { result ≡ cond raw 32 k }
{
    if raw { 32 } else { k }
}

// How many bytes of the 32 at i stand as they are, up to the first that does not. All are tested, with no way out of
// the loop, so that it is compiled to vector code.
pub(crate) fn raw_run(s: &[u8], i: usize) -> usize
    requires { i + 32 ≤ length s.now }
    ensures { Raws s.now i result }
{
    let mut n: u8 = 32;
    for k in 0..32 {
        n = n.min(end_at(k as u8, is_raw(s[i + k])));
    }
    n as usize
}

// Past bytes that stand as they are, 32 at a time.
pub(crate) fn past_raw(s: &[u8], at: usize) -> usize
    requires { at ≤ length s.now }
    ensures { Passes s.now at result }
{
    let mut i = at;
    while 32 <= s.len() - i {
        let n = raw_run(s, i);
        if n < 32 {
            return i + n;
        }
        i += 32;
    }
    i
}

// Past escapes that stand one after the other.
pub(crate) fn past_escapes(s: &[u8], at: usize) -> usize
    ensures { Passes s.now at result }
{
    let mut i = at;
    while i < s.len() && s[i] == b'\\' && is_letter(wire::byte(s, i + 1)) {
        i += 2;
    }
    i
}

// The place after the closing quote of a string whose opening quote stands before `at`. Bytes go one at a time until 16
// in a row stood as they are: short strings, and escapes close to each other, are faster so.
pub(crate) fn body_end(s: &[u8], at: usize) -> Option<usize>
    ensures { result ≡ got_end (body_from false at (drop at s.now)) }
{
    let mut i = at;
    let mut run: usize = 0;
    while i < s.len() {
        let x = s[i];
        if x == b'\\' {
            if !is_letter(wire::byte(s, i + 1)) {
                return None;
            }
            i = past_escapes(s, i + 2);
            run = 0;
            continue;
        }
        if x == b'"' {
            return Some(i + 1);
        }
        if !is_raw(x) {
            return None;
        }
        i += 1;
        run += 1;
        if run == 16 {
            i = past_raw(s, i);
            run = 0;
        }
    }
    None
}

// A string with its quotes. In a text that is UTF-8 each string is.
pub(crate) fn string_end(s: &[u8], at: usize) -> Option<usize>
    requires { is_utf8 s.now ≡ true }
    ensures { result ≡ got_end (string_at s.now at) }
{
    if wire::byte(s, at) != b'"' {
        return None;
    }
    body_end(s, at + 1)
}
