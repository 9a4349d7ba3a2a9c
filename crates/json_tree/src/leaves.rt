// RFC 8259, sections 3, 6 and 7: literals, numbers, and the characters of a string.
ghost use Rattle.std.specs.Prelude.{◌≡◌};
ghost use Rattle.json_tree.specs.Grammar.{literal_at, digits_at, int_at, frac_at, exp_at, number_at, hex_at, escaped_at};
ghost use Rattle.json_tree.specs.Grammar.{chars_at};

use crate::{Class, classes};

// false / null / true
pub(crate) fn literal(s: &[u8], at: usize) -> Option<usize>
    ensures { result ≡ literal_at s.now at }
{
    classes::word(s, at, b"false")
        .or_else(|| classes::word(s, at, b"null"))
        .or_else(|| classes::word(s, at, b"true"))
}

// 1*DIGIT
pub(crate) fn digits(s: &[u8], at: usize) -> Option<usize>
    ensures { result ≡ digits_at s.now at }
{
    if crate::between(0x30, 0x39, wire::byte(s, at)) {
        Some(classes::skip(s, at, Class::Digit))
    } else {
        None
    }
}

// zero / ( digit1-9 *DIGIT )
pub(crate) fn int(s: &[u8], at: usize) -> Option<usize>
    ensures { result ≡ int_at s.now at }
{
    classes::this(s, at, b'0').or_else(|| digits(s, at))
}

// [ decimal-point 1*DIGIT ]
pub(crate) fn frac(s: &[u8], at: usize) -> Option<usize>
    ensures { result ≡ frac_at s.now at }
{
    match classes::this(s, at, b'.') {
        Some(n) => digits(s, n),
        None => Some(at),
    }
}

// [ e [ minus / plus ] 1*DIGIT ]
pub(crate) fn exp(s: &[u8], at: usize) -> Option<usize>
    ensures { result ≡ exp_at s.now at }
{
    match classes::one(s, at, Class::Exponent) {
        Some(n) => digits(s, classes::one(s, n, Class::Sign).unwrap_or(n)),
        None => Some(at),
    }
}

// [ minus ] int [ frac ] [ exp ]
pub(crate) fn number(s: &[u8], at: usize) -> Option<usize>
    ensures { result ≡ number_at s.now at }
{
    let n = int(s, classes::this(s, at, b'-').unwrap_or(at))?;
    let m = frac(s, n)?;
    exp(s, m)
}

// Four hexadecimal digits.
pub(crate) fn hex4(s: &[u8], at: usize) -> Option<usize>
    ensures { result ≡ hex_at s.now at }
{
    let a = classes::nibble(s, at)?;
    let b = classes::nibble(s, a)?;
    let c = classes::nibble(s, b)?;
    classes::nibble(s, c)
}

// A backslash and what it stands before.
pub(crate) fn escaped(s: &[u8], at: usize) -> Option<usize>
    ensures { result ≡ escaped_at s.now at }
{
    let n = classes::this(s, at, b'\\')?;
    match classes::this(s, n, b'u') {
        Some(m) => hex4(s, m),
        None => classes::letter(s, n),
    }
}

// The place after the characters of a string.
pub(crate) fn chars(s: &[u8], at: usize) -> usize
    ensures { result ≡ chars_at s.now at }
{
    let mut i = at;
    while i < s.len() {
        let n = classes::past8(s, i);
        if i < n {
            i = n;
            continue;
        }
        if classes::own(s[i]) {
            i += 1;
            continue;
        }
        let Some(n) = escaped(s, i) else {
            return i;
        };
        i = n;
    }
    i
}
