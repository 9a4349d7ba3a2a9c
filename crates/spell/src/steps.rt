// The bytes that a spelling decodes to, one after the other.
ghost use Rattle.std.specs.Prelude.{◌≡◌, ◌∷◌, ◌++◌, ◌≤◌, ◌<◌, length, get_or};
ghost use Rattle.wire.specs.Escape.{escape};
ghost use Rattle.spell.specs.Spell.{utf8_of, decode};
ghost use Rattle.spell.specs.Inner.{Within, Stepped, Stays, Same, bytes_left, Stands};

use crate::{Step, escapes};

// How many octets a code point has in UTF-8.
#[tactic(auto, unfolding(crate::specs::Spell::utf8_of))]
pub(crate) fn octets(n: u32) -> usize
    ensures { result ≡ length (utf8_of n) }
{
    match n {
        0..=0x7f => 1,
        0x80..=0x7ff => 2,
        0x800..=0xffff => 3,
        _ => 4,
    }
}

// The k-th of them.
pub(crate) fn octet(n: u32, k: usize) -> u8
    requires n_bound { n ≤ 0x10ffff }
    requires k_in_bounds { k < length (utf8_of n) }
    ensures { result ≡ get_or (utf8_of n) k 0 }
{
    if n < 0x80 {
        n as u8
    } else if n < 0x800 {
        if k == 0 {
            (0xc0 + n / 0x40) as u8
        } else {
            (0x80 + n % 0x40) as u8
        }
    } else if n < 0x10000 {
        if k == 0 {
            (0xe0 + n / 0x1000) as u8
        } else if k == 1 {
            (0x80 + n / 0x40 % 0x40) as u8
        } else {
            (0x80 + n % 0x40) as u8
        }
    } else if k == 0 {
        (0xf0 + n / 0x40000) as u8
    } else if k == 1 {
        (0x80 + n / 0x1000 % 0x40) as u8
    } else if k == 2 {
        (0x80 + n / 0x40 % 0x40) as u8
    } else {
        (0x80 + n % 0x40) as u8
    }
}

// The byte after k bytes of the character at i. Backslashes are rare: the loops keep it out of their way.
#[cold]
pub(crate) fn advance(p: &[u8], i: usize, k: usize) -> Step
    requires i_in_bounds { i < length p.now }
    requires within { Within p.now i k }
    ensures { Stepped p.now i k result }
{
    let c = escapes::char_at(p, i);
    let code = c.code;
    let at = i + c.width;
    if c.raw {
        return Step {
            byte: code as u8,
            at,
            taken: 0,
        };
    }
    let byte = octet(code, k);
    if k + 1 < octets(code) {
        return Step {
            byte,
            at: i,
            taken: k + 1,
        };
    }
    Step { byte, at, taken: 0 }
}

// The bytes that a spelling decodes to, as far as they are left: those after `taken` bytes of the character at `at`.
#[derive(Clone, Copy)]
pub(crate) struct Decoded<'a> {
    text: &'a [u8],
    at: usize,
    taken: usize,
}

impl<'a> Decoded<'a> {
    // All of them.
    pub(crate) fn new(text: &'a [u8]) -> Decoded<'a>
        ensures bytes { bytes_left result ≡ decode text.now }
        ensures stands { Stands result }
        ensures few { length (bytes_left result) ≤ length text.now }
    {
        Decoded {
            text,
            at: 0,
            taken: 0,
        }
    }

    // The next byte, where one is left. It is apart from `next` so that a loop makes room for a step only where it takes
    // one.
    #[inline(always)]
    fn step(&mut self) -> u8
        requires some { self.old.at < length self.old.text.now }
        requires stands { Stands self.old }
        ensures byte { bytes_left self.old ≡ result ∷ bytes_left self.new }
        ensures stands { Stands self.new }
    {
        let x = advance(self.text, self.at, self.taken);
        self.at = x.at;
        self.taken = x.taken;
        x.byte
    }

    // Passes what comes next as it stands in the text that is hashed, and gives it.
    pub(crate) fn pass_same(&mut self) -> &'a [u8]
        requires { Stands self.old }
        ensures bytes { escape (bytes_left self.old) ≡ result.now ++ escape (bytes_left self.new) }
        ensures stands { Stands self.new }
    {
        let from = self.at;
        if self.text.len() < from {
            return &self.text[..0];
        }
        let to = past_same(self.text, from);
        self.at = to;
        &self.text[from..to]
    }
}

impl Iterator for Decoded<'_> {
    ghost use Rattle.std.specs.Iterator.{YieldsFirst, item_count};

    type Item = u8;

    ghost can_next = { Stands };

    ghost next_gives = { YieldsFirst bytes_left };

    ghost remaining = { item_count bytes_left };

    // Compiled into each loop, which stays short while no backslash comes: a byte that is none is its own character.
    #[inline(always)]
    fn next(&mut self) -> Option<u8> {
        if self.text.len() <= self.at {
            return None;
        }
        let b = self.text[self.at];
        if b != b'\\' {
            self.at += 1;
            return Some(b);
        }
        Some(self.step())
    }
}

// Whether a backslash and y stand in the text that is hashed as they stand in the spelling.
pub(crate) fn stays(y: u8) -> bool
    ensures { Stays y result }
{
    matches!(y, b'n' | b'"' | b'\\' | b'r' | b't' | b'b' | b'f')
}

// The first place from i on that holds no character which stands in the text that is hashed as in the spelling, or the
// end.
pub(crate) fn past_same(p: &[u8], i: usize) -> usize
    requires { i ≤ length p.now }
    ensures { Same p.now i result }
{
    let mut n = i;
    while n < p.len() {
        let b = p[n];
        if b == b'\\' {
            if !stays(wire::byte(p, n + 1)) {
                return n;
            }
            n += 2;
            continue;
        }
        if b < 0x20 || b == b'"' {
            return n;
        }
        n += 1;
    }
    n
}
