// SHA-256 (FIPS 180-4), whole or fed piece by piece. Contracts cite specs/: Words, Block and Digest are the standard's
// sections, State is what the calls answer for any state. Theorems over these: Claims, that any pieces have the digest
// of the whole, and Examples, the standard's.
#![tactic(auto)]

ghost use Rattle.std.specs.Prelude.{◌≡◌, ◌+◌, ◌*◌, ◌%◌, ◌<◌, ◌≤◌, [], ◌++◌, length, take, drop};
ghost use Rattle.digest.specs.Block.{H0};
ghost use Rattle.digest.specs.Digest.{big_endian, padding, hashed, rest, digest_bytes};
ghost use Rattle.digest.specs.State.{answer_number, most, count_row, first_bytes, state_of, updated, finished};
ghost use Rattle.digest.specs.State.{digested};

mod block;
mod bytes;

// The most bytes that a digest takes: 2^61 - 1 (01, "The text that is hashed").
pub(crate) const MOST: u64 = 0x1fff_ffff_ffff_ffff;

// Zeros in the block from n on.
fn blank(b: &mut [u8], n: usize)
    requires { (length b.old ≡ 64) × (n ≤ 64) }
    ensures { b.new ≡ first_bytes (take n b.old) 64 }
{
    b[n..].fill(0);
}

// `bytes` in the block behind its first n, and zeros behind them.
fn lay(b: &mut [u8], n: usize, bytes: &[u8])
    requires { (length b.old ≡ 64) × (n + length bytes.now ≤ 64) }
    ensures { b.new ≡ first_bytes (take n b.old ++ bytes.now) 64 }
{
    let end = n + bytes.len();
    b[n..end].copy_from_slice(bytes);
    blank(b, end);
}

// The hash value h after the whole blocks of `bytes`, in place. (How long an array behind a reference is, is known where
// it is required.)
fn absorb(h: &mut [u32; 8], bytes: &[u8])
    requires { length h.old ≡ 8 }
    ensures { h.new ≡ hashed h.old bytes.now }
{
    for chunk in bytes.chunks_exact(64) {
        block::block_at(h, chunk);
    }
}

// `bytes` behind the first `fill` bytes of the block, which wait: whole blocks are hashed into h, and the rest waits in
// the block.
pub(crate) fn take_in(h: &mut [u32; 8], b: &mut [u8; 64], fill: usize, bytes: &[u8])
    requires { (length h.old ≡ 8) × (fill < 64) }
    ensures h_after { h.new ≡ hashed h.old (take fill b.old ++ bytes.now) }
    ensures b_after { b.new ≡ first_bytes (rest (take fill b.old ++ bytes.now)) 64 }
{
    let n = bytes.len();
    let room = 64 - fill;
    if n < room {
        lay(b, fill, bytes);
        return;
    }
    lay(b, fill, &bytes[..room]);
    block::block_at(h, b);
    absorb(h, &bytes[room..]);
    let end = n - (n - room) % 64;
    lay(b, 0, &bytes[end..]);
}

// The length of a message of `total` bytes, in bits, into the last eight bytes of the block.
fn write_length(b: &mut [u8], total: u64)
    requires { (length b.old ≡ 64) × (total ≤ most) }
    ensures { b.new ≡ take 56 b.old ++ big_endian (total * 8) 8 }
{
    let bits = total * 8;
    b[56..].copy_from_slice(&bits.to_be_bytes());
}

// The hash value h after the end of a message of `total` bytes: those that wait in the block, and the padding, which is
// laid behind them in the block itself.
fn close(h: &mut [u32; 8], b: &mut [u8; 64], total: u64)
    requires { (length h.old ≡ 8) × (total ≤ most) }
    ensures { h.new ≡ hashed h.old (take (total % 64) b.old ++ padding total) }
{
    let fill = (total % 64) as usize;
    lay(b, fill, b"\x80");
    if 56 <= fill {
        block::block_at(h, b);
        blank(b, 0);
    }
    write_length(b, total);
    block::block_at(h, b);
}

// The initial hash value (FIPS 180-4, 5.3.3).
fn initial() -> [u32; 8]
    ensures { result ≡ H0 }
{
    [
        0x6a09e667, 0xbb67ae85, 0x3c6ef372, 0xa54ff53a, 0x510e527f, 0x9b05688c, 0x1f83d9ab,
        0x5be0cd19,
    ]
}

// A hash under way: the hash value, the block that is being filled, and how many bytes were fed. The first `total` % 64
// bytes of the block are those that wait.
#[derive(Clone, Copy)]
pub struct Sha256 {
    words: [u32; 8],
    block: [u8; 64],
    total: u64,
}

// 01's numbers 0 and 8.
#[derive(Clone, Copy)]
pub enum Answer {
    Done,
    TooLong,
}

// What a piece more comes to. No Result: `updated` says of a refusal too what the state is, and so do `finished` and
// `digested` of the bytes.
#[derive(Clone, Copy)]
pub struct Updated {
    pub answer: Answer,
    pub state: Sha256,
}

// What finishing comes to.
#[derive(Clone, Copy)]
pub struct Finished {
    pub answer: Answer,
    pub state: Sha256,
    pub bytes: [u8; 32],
}

// What a digest of the whole comes to.
#[derive(Clone, Copy)]
pub struct Digest {
    pub answer: Answer,
    pub bytes: [u8; 32],
}

// The bytes of a hash value into the first 32 bytes of `out`.
pub(crate) fn write_words(out: &mut [u8], h: [u32; 8])
    requires { 32 ≤ length out.old }
    ensures { out.new ≡ digest_bytes h 32 ++ drop 32 out.old }
{
    for (i, word) in h.iter().enumerate() {
        let at = 4 * i;
        let end = at + 4;
        out[at..end].copy_from_slice(&word.to_be_bytes());
    }
}

// The bytes of a hash value.
fn split(h: [u32; 8]) -> [u8; 32]
    ensures { result ≡ digest_bytes h 32 }
{
    let mut out = [0u8; 32];
    write_words(&mut out, h);
    out
}

impl Sha256 {
    // The state of nothing fed.
    pub fn new() -> Self
        ensures { result ≡ state_of [] }
    {
        let words = initial();
        Sha256 {
            words,
            block: [0u8; 64],
            total: 0,
        }
    }

    // A piece more: the state with `bytes` fed too; or 8 if more than 2^61 - 1 bytes would be fed in all, and the state as
    // given.
    pub fn update(mut self, bytes: &[u8]) -> Updated
        ensures value { result ≡ updated self bytes.now }
        ensures answer_value { answer_number result.answer ≡ count_row (self.total + length bytes.now) }
    {
        let total = self.total;
        let n = bytes.len() as u64;
        if total > MOST {
            return Updated {
                answer: Answer::TooLong,
                state: self,
            };
        }
        if n > MOST - total {
            return Updated {
                answer: Answer::TooLong,
                state: self,
            };
        }
        let mut h = self.words;
        take_in(&mut h, &mut self.block, (total % 64) as usize, bytes);
        self.words = h;
        self.total = total + n;
        Updated {
            answer: Answer::Done,
            state: self,
        }
    }

    // The digest of all that was fed, with the state as given; or 8 if it counts more than 2^61 - 1 bytes, and zeros.
    pub fn finish(self) -> Finished
        ensures value { result ≡ finished self }
        ensures answer_value { answer_number result.answer ≡ count_row self.total }
    {
        let total = self.total;
        if total > MOST {
            return Finished {
                answer: Answer::TooLong,
                state: self,
                bytes: [0u8; 32],
            };
        }
        let mut h = self.words;
        let mut b = self.block;
        close(&mut h, &mut b, total);
        let bytes = split(h);
        Finished {
            answer: Answer::Done,
            state: self,
            bytes: bytes,
        }
    }
}

// The digest of a whole slice; or 8 if it has more than 2^61 - 1 bytes, and zeros.
pub fn digest_of(bytes: &[u8]) -> Digest
    ensures value { result ≡ digested bytes.now }
    ensures answer_value { answer_number result.answer ≡ count_row (length bytes.now) }
{
    let n = bytes.len();
    if n as u64 > MOST {
        return Digest {
            answer: Answer::TooLong,
            bytes: [0u8; 32],
        };
    }
    let mut h = initial();
    absorb(&mut h, bytes);
    let end = n - n % 64;
    let mut b = [0u8; 64];
    lay(&mut b, 0, &bytes[end..]);
    close(&mut h, &mut b, n as u64);
    let bytes = split(h);
    Digest {
        answer: Answer::Done,
        bytes: bytes,
    }
}
