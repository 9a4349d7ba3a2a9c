// UTF-8 (RFC 3629), a character at a time, and ASCII at a run.
#![tactic(auto)]

ghost use Rattle.std.specs.Prelude.{◌≡◌, ℕ, ◌+◌, ◌≤◌, ◌<◌, length, slice_index};
ghost use Rattle.utf8.specs.Inner.{Past, Passed, Small};
ghost use Rattle.utf8.specs.Utf8.{lead_of, is_utf8};

// What the next byte has to be: the first of a character, one from the first number to the second with so many tails
// after it, or nothing will do.
#[derive(Clone, Copy)]
pub enum Want {
    Lead,
    Tail(u8, u8, u8),
    Bad,
}

#[tactic(auto, unfolding(crate::specs::Utf8::lead_of))]
fn lead(x: u8) -> Want
    ensures value { result ≡ lead_of x }
    ensures small { Small result }
{
    match x {
        0x00..=0x7f => Want::Lead,
        0xc2..=0xdf => Want::Tail(0x80, 0xbf, 0),
        0xe0 => Want::Tail(0xa0, 0xbf, 1),
        0xe1..=0xec => Want::Tail(0x80, 0xbf, 1),
        0xed => Want::Tail(0x80, 0x9f, 1),
        0xee..=0xef => Want::Tail(0x80, 0xbf, 1),
        0xf0 => Want::Tail(0x90, 0xbf, 2),
        0xf1..=0xf3 => Want::Tail(0x80, 0xbf, 2),
        0xf4 => Want::Tail(0x80, 0x8f, 2),
        _ => Want::Bad,
    }
}

// How many bytes of ASCII a text begins with.
fn ascii_len(s: &[u8]) -> usize
    ensures within { result ≤ length s.now }
    ensures ascii { (k : ℕ) → k < result → slice_index s.now k ≤ 0x7f }
{
    s.iter().position(|b| 0x7f < *b).unwrap_or(s.len())
}

// The first place from i on that holds no ASCII, or the end.
fn past_ascii(s: &[u8], i: usize) -> usize
    requires { i ≤ length s.now }
    ensures { Past s.now i result }
{
    i + ascii_len(&s[i..])
}

// The place after a character whose first byte stands at i: an octet from lo to hi comes next, and after it so many
// tails. Or i itself, if that is not what comes.
fn past_tails(s: &[u8], i: usize, lo: u8, hi: u8, more: u8) -> usize
    requires i_in_bounds { i < length s.now }
    requires small { Small (Want.Tail lo hi more) }
    ensures { Passed (Want.Tail lo hi more) s.now (i + 1) i result }
{
    let a = wire::byte(s, i + 1);
    if a < lo || hi < a {
        return i;
    }
    if more == 0 {
        return i + 2;
    }
    let b = wire::byte(s, i + 2);
    if b < 0x80 || 0xbf < b {
        return i;
    }
    if more == 1 {
        return i + 3;
    }
    let d = wire::byte(s, i + 3);
    if d < 0x80 || 0xbf < d {
        return i;
    }
    i + 4
}

// The place after the character at i, or i itself where none stands.
fn past_char(s: &[u8], i: usize) -> usize
    requires { i < length s.now }
    ensures { Passed Want.Lead s.now i i result }
{
    match lead(s[i]) {
        Want::Lead => i + 1,
        Want::Tail(lo, hi, more) => past_tails(s, i, lo, hi, more),
        Want::Bad => i,
    }
}

// Whether the bytes are UTF-8.
pub fn is_utf8(s: &[u8]) -> bool
    ensures { result ≡ is_utf8 s.now }
{
    let mut i = past_ascii(s, 0);
    while i < s.len() {
        let n = past_char(s, i);
        if n == i {
            return false;
        }
        i = past_ascii(s, n);
    }
    true
}
