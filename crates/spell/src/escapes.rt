// One character of a spelling: a byte as it stands, a short escape, or one with u.
ghost use Rattle.std.specs.Prelude.{◌≡◌, ◌+◌, ◌≤◌, ◌<◌, length, get_or, drop};
ghost use Rattle.spell.specs.Spell.{hex_val, four, four_at, short_of, is_pair, pair_of, unicode_of};
ghost use Rattle.spell.specs.Inner.{Sized, Begins};

use crate::Char;

// The number of a hex digit, and 0 of any other byte: the digits are told first, then a-f, which most texts spell.
#[tactic(auto, unfolding(crate::specs::Spell::hex_val))]
pub(crate) fn hex_val(x: u8) -> u32
    ensures value { result ≡ hex_val x }
    ensures upper_bound { result ≤ 15 }
{
    match x {
        b'0'..=b'9' => (x - b'0') as u32,
        b'a'..=b'f' => (x - b'a' + 10) as u32,
        b'A'..=b'F' => (x - b'A' + 10) as u32,
        _ => 0,
    }
}

pub(crate) fn hex4(a: u8, b: u8, c: u8, d: u8) -> u32
    ensures value { result ≡ four a b c d }
    ensures upper_bound { result ≤ 0xffff }
{
    hex_val(a) * 4096 + hex_val(b) * 256 + hex_val(c) * 16 + hex_val(d)
}

pub(crate) fn hex_at(p: &[u8], k: usize) -> u32
    requires { k < length p.now + 16 }
    ensures value { result ≡ four_at p.now k }
    ensures upper_bound { result ≤ 0xffff }
{
    hex4(
        wire::byte(p, k),
        wire::byte(p, k + 1),
        wire::byte(p, k + 2),
        wire::byte(p, k + 3),
    )
}

pub(crate) fn short(y: u8) -> u8
    ensures { result ≡ short_of y }
{
    match y {
        b'b' => 0x8,
        b'f' => 0xc,
        b'n' => 0xa,
        b'r' => 0xd,
        b't' => 0x9,
        _ => y,
    }
}

// Whether \u with the digits of u, the bytes x and y, and the digits of v are a pair of surrogates.
#[tactic(auto, unfolding(crate::specs::Spell::is_pair))]
pub(crate) fn is_pair(u: u32, x: u8, y: u8, v: u32) -> bool
    ensures { result ≡ is_pair u x y v }
{
    0xd800 <= u && u <= 0xdbff && x == b'\\' && y == b'u' && 0xdc00 <= v && v <= 0xdfff
}

// The code point of a pair of surrogates.
pub(crate) fn pair_code(u: u32, v: u32) -> u32
    requires { (0xd800 ≤ u) × (u ≤ 0xdbff) × (0xdc00 ≤ v) × (v ≤ 0xdfff) }
    ensures value { result ≡ pair_of u v }
    ensures upper_bound { result ≤ 0x10ffff }
{
    0x10000 + (u - 0xd800) * 0x400 + (v - 0xdc00)
}

// The character of \u and the digits of u, after which the bytes x and y stand, and then the digits of v.
pub(crate) fn unicode(u: u32, x: u8, y: u8, v: u32) -> Char
    requires { u ≤ 0xffff }
    ensures value { result ≡ unicode_of u x y v }
    ensures sized { Sized result }
{
    if is_pair(u, x, y, v) {
        let code = pair_code(u, v);
        return Char {
            code,
            raw: false,
            width: 12,
        };
    }
    Char {
        code: u,
        raw: false,
        width: 6,
    }
}

// The character at a place that has a backslash.
pub(crate) fn escape_at(p: &[u8], i: usize) -> Char
    requires i_in_bounds { i < length p.now }
    requires i_value { get_or p.now i 0 ≡ 0x5c }
    ensures { Begins (drop i p.now) result }
{
    let y = wire::byte(p, i + 1);
    if y != b'u' {
        let code = short(y) as u32;
        return Char {
            code,
            raw: true,
            width: 2,
        };
    }
    let u = hex_at(p, i + 2);
    if u < 0xd800 {
        return Char {
            code: u,
            raw: false,
            width: 6,
        };
    }
    unicode(
        u,
        wire::byte(p, i + 6),
        wire::byte(p, i + 7),
        hex_at(p, i + 8),
    )
}

// The character at a place.
pub(crate) fn char_at(p: &[u8], i: usize) -> Char
    requires { i < length p.now }
    ensures { Begins (drop i p.now) result }
{
    let x = p[i];
    if x != b'\\' {
        let code = x as u32;
        return Char {
            code,
            raw: true,
            width: 1,
        };
    }
    escape_at(p, i)
}
