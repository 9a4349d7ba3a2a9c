// Bytes by their class, and runs of them.
ghost use Rattle.std.specs.Prelude.{◌≡◌, ◌+◌, ◌<◌, ◌≤◌, true, false, length};
ghost use Rattle.json_tree.specs.Grammar.{case, in_class, past, one_at, token_at, no_zero, word_at, Skips, Owned};

use crate::Class;

// Whether a byte of a string stands for itself, with no branch: all do but seven.
pub(crate) fn own(b: u8) -> bool
    ensures { result ≡ in_class Class.Plain b }
{
    (b != 0x22)
        & ((b != 0x5c)
            & ((b != 0x08) & ((b != 0x09) & ((b != 0x0a) & ((b != 0x0c) & (b != 0x0d))))))
}

// Whether four bytes from i on do.
pub(crate) fn own4(s: &[u8], i: usize) -> bool
    requires { i + 4 ≤ length s.now }
    ensures { Owned s.now i result }
{
    own(s[i]) & own(s[i + 1]) & own(s[i + 2]) & own(s[i + 3])
}

// Past eight bytes that stand for themselves, or i: a string is mostly such bytes.
pub(crate) fn past8(s: &[u8], i: usize) -> usize
    requires { i < length s.now }
    ensures { Skips s.now i result }
{
    if s.len() - i < 8 {
        return i;
    }
    if own4(s, i) & own4(s, i + 4) {
        return i + 8;
    }
    i
}

// What a backslash may stand before, but for u.
pub(crate) fn short(b: u8) -> bool
    ensures { result ≡ in_class Class.Short b }
{
    matches!(b, b'"' | b'\\' | b'/' | b'b' | b'f' | b'n' | b'r' | b't')
}

// A hexadecimal digit, in either case.
pub(crate) fn hex_digit(b: u8) -> bool
    ensures { result ≡ in_class Class.Hex b }
{
    crate::between(0x30, 0x39, b)
        || (crate::between(0x41, 0x46, b) || crate::between(0x61, 0x66, b))
}

// Whether a byte is of a class.
pub(crate) fn is(class: Class, b: u8) -> bool
    ensures { result ≡ in_class class b }
{
    match class {
        Class::Space => b == 0x20 || (b == 0x09 || (b == 0x0a || b == 0x0d)),
        Class::Digit => crate::between(0x30, 0x39, b),
        Class::Plain => own(b),
        Class::Hex => hex_digit(b),
        Class::Short => short(b),
        Class::Exponent => b == 0x65 || b == 0x45,
        Class::Sign => b == 0x2d || b == 0x2b,
        Class::Byte(c) => b == c,
    }
}

// The place after the bytes of a class.
pub(crate) fn skip(s: &[u8], at: usize, class: Class) -> usize
    requires { in_class class 0 ≡ false }
    ensures { result ≡ past class s.now at }
{
    let mut i = at;
    while is(class, wire::byte(s, i)) {
        i += 1;
    }
    i
}

// One byte of a class.
pub(crate) fn one(s: &[u8], at: usize, class: Class) -> Option<usize>
    requires { in_class class 0 ≡ false }
    ensures { result ≡ one_at s.now class at }
{
    if is(class, wire::byte(s, at)) {
        Some(at + 1)
    } else {
        None
    }
}

// The byte b: `one` again, small enough to be compiled in place.
pub(crate) fn this(s: &[u8], at: usize, b: u8) -> Option<usize>
    requires { 0 < b }
    ensures { result ≡ one_at s.now (Class.Byte b) at }
{
    if wire::byte(s, at) == b {
        Some(at + 1)
    } else {
        None
    }
}

// A hexadecimal digit: `one` again, small enough to be compiled in place.
pub(crate) fn nibble(s: &[u8], at: usize) -> Option<usize>
    ensures { result ≡ one_at s.now Class.Hex at }
{
    if hex_digit(wire::byte(s, at)) {
        Some(at + 1)
    } else {
        None
    }
}

// What a backslash may stand before, but for u: `one` again, small enough to be compiled in place.
pub(crate) fn letter(s: &[u8], at: usize) -> Option<usize>
    ensures { result ≡ one_at s.now Class.Short at }
{
    if short(wire::byte(s, at)) {
        Some(at + 1)
    } else {
        None
    }
}

// The byte b, and the white space after it.
pub(crate) fn token(s: &[u8], at: usize, b: u8) -> Option<usize>
    requires { 0 < b }
    ensures { result ≡ token_at s.now b at }
{
    let n = this(s, at, b)?;
    Some(crate::space(s, n))
}

// The bytes of w.
pub(crate) fn word(s: &[u8], at: usize, w: &[u8]) -> Option<usize>
    requires { no_zero w.now ≡ true }
    ensures { result ≡ word_at s.now w.now at }
{
    let mut i = at;
    for b in w {
        i = this(s, i, *b)?;
    }
    Some(i)
}
