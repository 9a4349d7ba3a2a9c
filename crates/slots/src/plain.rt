// Bytes that are zero.
ghost use Rattle.std.specs.Prelude.{◌≡◌};
ghost use Rattle.table.specs.Sound.{is_zero};

// Whether all bytes are zero. They are or-ed together with no way out of the loop, so that the compiler takes many at a
// time.
pub(crate) fn is_zero(s: &[u8]) -> bool
    ensures { result ≡ is_zero s.now }
{
    let mut x: u8 = 0;
    for b in s {
        x |= *b;
    }
    x == 0
}
