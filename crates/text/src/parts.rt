// The parts of the text: tags with d among them, numbers, and what follows the kind.
ghost use Rattle.std.specs.Prelude.{◌≡◌, true, ℕ, ◌+◌, ◌≤◌, length, None, position, ◌==◌};
ghost use Rattle.wire.specs.Escape.{escape};
ghost use Rattle.utf8.specs.Utf8.{is_utf8};
ghost use Rattle.text.specs.Event.{Tag, comma, is_pubkey};
ghost use Rattle.text.specs.Read.{got, closed_at, tag_at, tags_at, time_at, kind_at};
ghost use Rattle.text.specs.Kinds.{is_named_d, second};
ghost use Rattle.text.specs.Answer.{span_behind};
ghost use Rattle.text.specs.Inner.Parts.{got_end, time_got, kind_got, opens, found, look_of, tagged_of, rest_at};
ghost use Rattle.text.specs.Inner.Parts.{rest_of, comma_after};

use crate::{Found, body};

// No bytes of the text.
pub(crate) const NOWHERE: Found = Found { at: 0, len: 0 };

// 1 to 16 strings between brackets.
pub(crate) fn tag_end(s: &[u8], at: usize) -> Option<usize>
    requires { is_utf8 s.now ≡ true }
    ensures { result ≡ got_end (tag_at s.now at) }
{
    if wire::byte(s, at) != b'[' {
        return None;
    }
    let mut i = at + 1;
    for _ in 0..wire::MOST_STRINGS {
        // Not `?`, which comes to a select in place of a branch: strings of no bytes take a quarter more by it.
        let Some(n) = body::string_end(s, i) else {
            return None;
        };
        match wire::byte(s, n) {
            b',' => i = n + 1,
            b']' => return Some(n + 1),
            _ => return None,
        }
    }
    None
}

// The second string of a tag named d.
pub(crate) fn second_at(s: &[u8], i: usize) -> Found
    requires { i + 4 ≤ length s.now }
    ensures { (t : Tag) (n : ℕ) → tag_at s.now i ≡ got t n → is_named_d t ≡ true →
        result ≡ found (span_behind (i + 6) (escape (second t))) }
{
    let a = i + 4;
    if !body::stands(s, a, b",\"") {
        return NOWHERE;
    }
    let at = a + 2;
    let Some(n) = body::body_end(s, at) else {
        return NOWHERE;
    };
    let len = n - 1 - at;
    if len == 0 {
        return NOWHERE;
    }
    Found { at, len }
}

// What is known of d after the tag at `i`: the text is canonical, so the tag is named d where `["d"` stands.
pub(crate) fn look(s: &[u8], i: usize, d: Option<Found>) -> Option<Found>
    ensures { (t : Tag) (n : ℕ) → tag_at s.now i ≡ got t n → result ≡ look_of i d t }
{
    if d.is_some() || !body::stands(s, i, b"[\"d\"") {
        return d;
    }
    Some(second_at(s, i))
}

// Up to 64 tags between brackets, and d.
pub(crate) fn tags_end(s: &[u8], at: usize) -> Option<(usize, Found)>
    requires { is_utf8 s.now ≡ true }
    ensures { result ≡ tagged_of None (at + 1) (tags_at s.now at) }
{
    if wire::byte(s, at) != b'[' {
        return None;
    }
    let mut i = at + 1;
    if wire::byte(s, i) == b']' {
        return Some((i + 1, NOWHERE));
    }
    let mut d = None;
    for _ in 0..wire::MOST_TAGS {
        let n = tag_end(s, i)?;
        d = look(s, i, d);
        match wire::byte(s, n) {
            b',' => i = n + 1,
            b']' => return Some((n + 1, d.unwrap_or(NOWHERE))),
            _ => return None,
        }
    }
    None
}

// How many bytes stand before the first comma.
fn to_comma(l: &[u8]) -> Option<usize>
    ensures { result ≡ position (λ b. b == 44) l.now }
{
    l.iter().position(|b| *b == b',')
}

// The place of the next comma.
pub(crate) fn next_comma(s: &[u8], at: usize) -> Option<usize>
    ensures { result ≡ comma_after s.now at }
{
    let k = to_comma(s.get(at..)?)?;
    Some(at + k)
}

pub(crate) fn time_at(s: &[u8], at: usize) -> Option<(i64, usize)>
    ensures { result ≡ time_got (closed_at s.now comma (time_at s.now) at) }
{
    let n = next_comma(s, at)?;
    let numeral::Whole::Value(z) = numeral::read_whole(&s[at..n]) else {
        return None;
    };
    Some((z, n + 1))
}

pub(crate) fn kind_at(s: &[u8], at: usize) -> Option<(u16, usize)>
    ensures { result ≡ kind_got (closed_at s.now comma (kind_at s.now) at) }
{
    let n = next_comma(s, at)?;
    let numeral::Whole::Value(z) = numeral::read_whole(&s[at..n]) else {
        return None;
    };
    let kind = u16::try_from(z).ok()?;
    Some((kind, n + 1))
}

// With no way out of the loop.
pub(crate) fn is_pubkey(p: &[u8]) -> bool
    ensures { result ≡ is_pubkey p.now }
{
    if p.len() != wire::HEX_LENGTH {
        return false;
    }
    let mut hex = true;
    for b in p {
        hex &= wire::is_hex_digit(*b);
    }
    hex
}

// [0,"PUBKEY",
pub(crate) fn is_opened(t: &[u8]) -> bool
    ensures { result ≡ opens t.now }
{
    70 <= t.len()
        && body::stands(t, 0, b"[0,\"")
        && is_pubkey(&t[4..68])
        && body::stands(t, 68, b"\",")
}

// TAGS,"CONTENT"] to the end of the text: the content, and d.
pub(crate) fn rest_at(t: &[u8], at: usize) -> Option<(Found, Found)>
    requires { is_utf8 t.now ≡ true }
    ensures { result ≡ rest_of (length t.now) at (rest_at t.now at) }
{
    let (m, d) = tags_end(t, at)?;
    if wire::byte(t, m) != b',' {
        return None;
    }
    let n = body::string_end(t, m + 1)?;
    if wire::byte(t, n) != b']' || n + 1 != t.len() {
        return None;
    }
    let content = Found {
        at: m + 2,
        len: n - m - 3,
    };
    Some((content, d))
}
