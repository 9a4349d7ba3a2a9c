// A state as 104 bytes, and back: for callers that can lend nothing else.
ghost use Rattle.std.specs.Prelude.{◌≡◌, ◌+◌, ◌≤◌, ◌++◌, length, take, drop};
ghost use Rattle.digest.specs.Block.{words};
ghost use Rattle.digest.specs.Digest.{big_endian, digest_bytes};
ghost use Rattle.digest.specs.State.{most, first_bytes};
ghost use Rattle.digest.specs.Bytes.{state_bytes, state_in, total_in, update_row, update_out};

use crate::{Sha256, block};

// How many bytes a state has.
const STATE_SIZE: usize = 104;

// The bytes of a state into the first 104 of `out`.
fn write_state(out: &mut [u8], h: &[u32; 8], block: &[u8; 64], total: u64)
    requires { (length block.now ≡ 64) × (104 ≤ length out.old) }
    ensures { out.new ≡ (digest_bytes h.now 32 ++ (block.now ++ big_endian total 8)) ++ drop 104 out.old }
{
    crate::write_words(out, *h);
    out[32..96].copy_from_slice(block);
    out[96..STATE_SIZE].copy_from_slice(&total.to_be_bytes());
}

// The hash value in the first 32 bytes.
fn words_in(bytes: &[u8]) -> [u32; 8]
    requires { 104 ≤ length bytes.now }
    ensures { result ≡ words bytes.now 8 }
{
    let mut w = [0u32; 8];
    for (i, word) in w.iter_mut().enumerate() {
        *word = block::word_at(bytes, 4 * i);
    }
    w
}

// The block in the 64 bytes behind them.
fn block_in(bytes: &[u8]) -> [u8; 64]
    requires { 104 ≤ length bytes.now }
    ensures { result ≡ first_bytes (drop 32 bytes.now) 64 }
{
    let mut b = [0u8; 64];
    b.copy_from_slice(&bytes[32..96]);
    b
}

// The count in the eight bytes behind these.
fn total_in(bytes: &[u8]) -> u64
    requires { 104 ≤ length bytes.now }
    ensures { result ≡ total_in bytes.now }
{
    u64::from(block::word_at(bytes, 96)) * 0x1_0000_0000 + u64::from(block::word_at(bytes, 100))
}

// `bytes` more to the state in the first 104 bytes, whose count is `total`, in place.
fn take_in_state(state: &mut [u8], total: u64, bytes: &[u8])
    requires { (104 ≤ length state.old) × (total ≡ total_in (take 104 state.old)) × (total + length bytes.now ≤ most) }
    ensures { state.new ≡ update_out state.old bytes.now }
{
    let mut h = words_in(&state[..STATE_SIZE]);
    let mut b = block_in(&state[..STATE_SIZE]);
    crate::take_in(&mut h, &mut b, (total % 64) as usize, bytes);
    write_state(state, &h, &b, total + bytes.len() as u64);
}

impl Sha256 {
    // The state as bytes: hash value, block and count, the most significant byte first.
    pub fn to_bytes(self) -> [u8; 104]
        ensures { result ≡ state_bytes self }
    {
        let w = self.words;
        let b = self.block;
        let mut out = [0u8; 104];
        write_state(&mut out, &w, &b, self.total);
        out
    }

    // The state that the bytes are. Any are some state.
    pub fn from_bytes(bytes: [u8; 104]) -> Self
        ensures { result ≡ state_in bytes }
    {
        let words = words_in(&bytes);
        let block = block_in(&bytes);
        let total = total_in(&bytes);
        Sha256 {
            words,
            block,
            total,
        }
    }

    // A piece more to a state that is lent as bytes, in place: 13, 8 or 0. On a refusal all stays as found.
    pub fn update_lent(state: &mut [u8], bytes: &[u8]) -> u8
        ensures value { result ≡ update_row state.old bytes.now }
        ensures state_after { state.new ≡ update_out state.old bytes.now }
    {
        if state.len() < STATE_SIZE {
            return 13;
        }
        let total = total_in(&state[..STATE_SIZE]);
        let n = bytes.len() as u64;
        if total > crate::MOST {
            return 8;
        }
        if n > crate::MOST - total {
            return 8;
        }
        take_in_state(state, total, bytes);
        0
    }
}
