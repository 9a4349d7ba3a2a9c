// Whole numbers: read as a message spells them, and written in shortest decimal.
#![tactic(auto)]

ghost use Rattle.std.specs.Prelude.{◌≡◌, ◌+◌, ◌-◌, ◌*◌, ◌≤◌, min, length};
ghost use Rattle.wire.specs.Put.{Puts};
ghost use Rattle.numeral.specs.Decimal.{digits, decimal};
ghost use Rattle.numeral.specs.Whole.{whole_of, whole_answer, is_within};
ghost use Rattle.numeral.specs.Inner.{above_widest, digits_sum, natural_sum, above_of, below_of};

// What a spelling says: a number of 01's widest range, one beyond it on either side, or none.
#[derive(Clone, Copy)]
pub enum Whole {
    Value(i64),
    Large,
    Malformed,
}

const WIDEST: u64 = wire::WIDEST as u64;

const OVER: u64 = WIDEST + 1;

// One digit more.
fn grow(v: u64, x: u8) -> u64
    requires { (v ≤ above_widest) × (48 ≤ x) × (x ≤ 57) }
    ensures { result ≡ min (v * 10 + (x - 48)) above_widest }
{
    (v * 10 + (x - b'0') as u64).min(OVER)
}

// What a run of digits says: its number, cut off at OVER, or None where a byte is no digit.
fn digits_sum(p: &[u8]) -> Option<u64>
    ensures { result ≡ digits_sum 0 p.now }
{
    let mut v: u64 = 0;
    for x in p {
        match *x {
            b'0'..=b'9' => v = grow(v, *x),
            _ => return None,
        }
    }
    Some(v)
}

// The same, of at least one digit, and a first 0 only alone.
fn natural_sum(p: &[u8]) -> Option<u64>
    ensures { result ≡ natural_sum p.now }
{
    match p {
        [] => None,
        [b'0', _, ..] => None,
        _ => digits_sum(p),
    }
}

// The number without a minus, and with one.
fn above(n: Option<u64>) -> Whole
    ensures { result ≡ above_of n }
{
    match n {
        Some(v) if v <= WIDEST => Whole::Value(v as i64),
        Some(_) => Whole::Large,
        None => Whole::Malformed,
    }
}

fn below(n: Option<u64>) -> Whole
    ensures { result ≡ below_of n }
{
    match n {
        Some(v) if WIDEST < v => Whole::Large,
        Some(v) if 0 < v => Whole::Value(-(v as i64)),
        Some(_) => Whole::Malformed,
        None => Whole::Malformed,
    }
}

// The number that `p` spells, from its first byte to its last.
pub fn read_whole(p: &[u8]) -> Whole
    ensures { result ≡ whole_answer (whole_of p.now) }
{
    match p {
        [b'-', digits @ ..] => below(natural_sum(digits)),
        _ => above(natural_sum(p)),
    }
}

// Whether it is a number from `lo` to `hi`.
pub fn within(w: Whole, lo: i64, hi: i64) -> bool
    ensures { result ≡ is_within w lo hi }
{
    match w {
        Whole::Value(z) => lo <= z && z <= hi,
        Whole::Large | Whole::Malformed => false,
    }
}

// How many digits a number has.
pub fn natural_len(n: u64) -> usize
    ensures { result ≡ length (digits n) }
{
    let mut v = n;
    let mut k = 1;
    while 10 <= v {
        v /= 10;
        k += 1;
    }
    k
}

// The digits of `n` into `out` from `at` on, made from the last on; the index after them.
pub fn put_natural(out: &mut [u8], at: usize, n: u64) -> usize
    ensures { Puts out.old at (digits n) result out.new }
{
    let mut text = [0u8; 20];
    let mut i: usize = 20;
    let mut v = n;
    while 10 <= v {
        i -= 1;
        text[i] = b'0' + (v % 10) as u8;
        v /= 10;
    }
    i -= 1;
    text[i] = b'0' + v as u8;
    wire::put(out, at, &text[i..])
}

// How long a number is in decimal.
pub fn decimal_len(x: i64) -> usize
    ensures { result ≡ length (decimal x) }
{
    let n = natural_len(x.unsigned_abs());
    if x < 0 { n + 1 } else { n }
}

// A number in decimal into `out` from `at` on; the index after it.
pub fn put_decimal(out: &mut [u8], at: usize, x: i64) -> usize
    ensures { Puts out.old at (decimal x) result out.new }
{
    let n = x.unsigned_abs();
    if x < 0 {
        let o = wire::put(out, at, b"-");
        return put_natural(out, o, n);
    }
    put_natural(out, at, n)
}
