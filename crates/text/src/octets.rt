// UTF-8, each octet by the three before it.
ghost use Rattle.std.specs.Prelude.{◌≡◌, true};
ghost use Rattle.utf8.specs.Utf8.{is_utf8};
ghost use Rattle.text.specs.Inner.Windows.{wants_tail, is_narrow, is_wrong};

// Whether no byte is above 7F, with no way out of the loop.
pub(crate) fn is_ascii(s: &[u8]) -> bool
    ensures { result ≡ true → is_utf8 s.now ≡ true }
{
    let mut high = false;
    for b in s {
        high |= 0x7f < *b;
    }
    !high
}

// Whether a tail of UTF-8 has to come after c, b and a.
pub(crate) fn wants_tail(c: u8, b: u8, a: u8) -> bool
    ensures { result ≡ wants_tail c b a }
{
    (0xc2 <= a) | (0xe0 <= b) | (0xf0 <= c)
}

// Whether x is a tail that may not come after the first octet a.
pub(crate) fn is_narrow(a: u8, x: u8) -> bool
    ensures { result ≡ is_narrow a x }
{
    ((a == 0xe0) & (x < 0xa0))
        | (((a == 0xed) & (0x9f < x)) | (((a == 0xf0) & (x < 0x90)) | ((a == 0xf4) & (0x8f < x))))
}

// Whether x may not come after c, b and a.
pub(crate) fn is_wrong(c: u8, b: u8, a: u8, x: u8) -> bool
    ensures { result ≡ is_wrong c b a x }
{
    let w = wants_tail(c, b, a);
    (w & ((x < 0x80) | (0xbf < x)))
        | (!w & (((0x80 <= x) & (x <= 0xc1)) | (0xf5 <= x)))
        | is_narrow(a, x)
}

// Whether the bytes are UTF-8, each by the three before it, with no way out of the loop.
pub(crate) fn is_utf8(s: &[u8]) -> bool
    ensures { result ≡ is_utf8 s.now }
{
    let mut c: u8 = 0;
    let mut b: u8 = 0;
    let mut a: u8 = 0;
    let mut wrong = false;
    for x in s {
        wrong |= is_wrong(c, b, a, *x);
        c = b;
        b = a;
        a = *x;
    }
    !(wrong | wants_tail(c, b, a))
}

// The same, sooner for ASCII.
pub(crate) fn is_text(s: &[u8]) -> bool
    ensures { result ≡ is_utf8 s.now }
{
    is_ascii(s) || is_utf8(s)
}
