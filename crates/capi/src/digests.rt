// The SHA-256 of bytes, whole or piece by piece. A state is lent as bytes: its first 104 (digest, `Sha256::to_bytes`).
ghost use Rattle.std.specs.Prelude.{◌≡◌, ◌≤◌, length};
ghost use Rattle.capi.specs.Calls.{lent_row, lent_out};
ghost use Rattle.digest.specs.Bytes.{state_lent, update_row, update_out};
ghost use Rattle.capi.specs.Digest.{digest_row, digest_out, start_row, start_out, end_row, end_out};

use digest::{Answer, Sha256};

// The bytes of a state.
const STATE_SIZE: usize = 104;

// A digest into the first 32 bytes of `out`: 13 if it has fewer, or 0.
#[tactic(auto, using(crate::proofs::Laws::short_row, crate::proofs::Laws::short_out))]
pub(crate) fn put_digest(out: &mut [u8], b: [u8; 32]) -> u8
    ensures value { result ≡ lent_row 0 32 out.old }
    ensures out_after { out.new ≡ lent_out 0 32 b out.old }
{
    if out.len() < 32 {
        return 13;
    }
    wire::put(out, 0, &b);
    0
}

// The SHA-256 of `bytes` into the first 32 bytes of `out`: 0, 8 or 13.
pub fn plavdrosa_digest(bytes: &[u8], out: &mut [u8]) -> u8
    ensures value { result ≡ digest_row bytes.now out.old }
    ensures out_after { out.new ≡ digest_out bytes.now out.old }
{
    let d = digest::digest_of(bytes);
    let a = d.answer;
    match a {
        Answer::TooLong => 8,
        Answer::Done => {
            let b = d.bytes;
            put_digest(out, b)
        }
    }
}

// A state of nothing fed, into the first 104 bytes of `state`: 13 or 0.
pub fn plavdrosa_digest_start(state: &mut [u8]) -> u8
    ensures value { result ≡ start_row state.old }
    ensures state_after { state.new ≡ start_out state.old }
{
    if state.len() < STATE_SIZE {
        return 13;
    }
    let b = Sha256::new().to_bytes();
    wire::put(state, 0, &b);
    0
}

// The state in the first 104 bytes.
fn state_in(state: &[u8]) -> Sha256
    requires { 104 ≤ length state.now }
    ensures { result ≡ state_lent state.now }
{
    let mut b = [0u8; 104];
    wire::put(&mut b, 0, &state[..STATE_SIZE]);
    Sha256::from_bytes(b)
}

// A piece more: the state of it and of what was fed before. 13, 8 or 0; on a refusal the state stays as found.
pub fn plavdrosa_digest_update(state: &mut [u8], bytes: &[u8]) -> u8
    ensures value { result ≡ update_row state.old bytes.now }
    ensures state_after { state.new ≡ update_out state.old bytes.now }
{
    Sha256::update_lent(state, bytes)
}

// The digest of all that was fed, into the first 32 bytes of `out`: 13, 8 or 0. The state is only read.
pub fn plavdrosa_digest_finish(state: &[u8], out: &mut [u8]) -> u8
    ensures value { result ≡ end_row state.now out.old }
    ensures out_after { out.new ≡ end_out state.now out.old }
{
    if state.len() < STATE_SIZE {
        return 13;
    }
    let f = state_in(state).finish();
    let a = f.answer;
    match a {
        Answer::TooLong => 8,
        Answer::Done => {
            let b = f.bytes;
            put_digest(out, b)
        }
    }
}
