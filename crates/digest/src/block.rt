// The hash value after one block (FIPS 180-4, sections 4 to 6). Of the schedule's 64 words sixteen are held at a time, in
// a ring: word t stands at place t % 16, over the word of sixteen rounds before, which word t is the last to read.
ghost use Rattle.std.specs.Prelude.{◌≡◌, ◌+◌, ◌<◌, ◌≤◌, length, take, slice_set};
ghost use Rattle.digest.specs.Words.{Ch, Maj, Σ0, Σ1, σ0, σ1};
ghost use Rattle.digest.specs.Block.{block_word, round, rounds, words, schedule, compress};
ghost use Rattle.digest.specs.Inner.{ring_word, ring_after, rounds_from};

fn ch(x: u32, y: u32, z: u32) -> u32
    ensures { result ≡ Ch x y z }
{
    (x & y) ^ (!x & z)
}

fn maj(x: u32, y: u32, z: u32) -> u32
    ensures { result ≡ Maj x y z }
{
    (x & y) ^ (x & z) ^ (y & z)
}

fn big0(x: u32) -> u32
    ensures { result ≡ Σ0 x }
{
    x.rotate_right(2) ^ x.rotate_right(13) ^ x.rotate_right(22)
}

fn big1(x: u32) -> u32
    ensures { result ≡ Σ1 x }
{
    x.rotate_right(6) ^ x.rotate_right(11) ^ x.rotate_right(25)
}

fn small0(x: u32) -> u32
    ensures { result ≡ σ0 x }
{
    x.rotate_right(7) ^ x.rotate_right(18) ^ (x >> 3)
}

fn small1(x: u32) -> u32
    ensures { result ≡ σ1 x }
{
    x.rotate_right(17) ^ x.rotate_right(19) ^ (x >> 10)
}

// A round, at its constant and its word of the schedule.
fn turn(s: [u32; 8], k: u32, w: u32) -> [u32; 8]
    ensures { result ≡ round k w s }
{
    let [a, b, c, d, e, f, g, h] = s;
    let t1 = h
        .wrapping_add(big1(e))
        .wrapping_add(ch(e, f, g))
        .wrapping_add(k)
        .wrapping_add(w);
    let t2 = big0(a).wrapping_add(maj(a, b, c));
    [t1.wrapping_add(t2), a, b, c, d.wrapping_add(t1), e, f, g]
}

// The word in the four bytes from i on.
pub(crate) fn word_at(s: &[u8], i: usize) -> u32
    requires { i + 4 ≤ length s.now }
    ensures { result ≡ block_word s.now i }
{
    u32::from_be_bytes([s[i], s[i + 1], s[i + 2], s[i + 3]])
}

// The sixteen words of a block, which begin the schedule.
fn first_words(b: &[u8]) -> [u32; 16]
    requires { 64 ≤ length b.now }
    ensures { result ≡ words (take 64 b.now) 16 }
{
    let mut w = [0u32; 16];
    for (i, word) in w.iter_mut().enumerate() {
        *word = word_at(b, 4 * i);
    }
    w
}

// The word that comes at place j of the ring: of the words 2, 7, 15 and 16 before it (FIPS 180-4, 6.2.2, step 1).
fn ring_word(w: &[u32; 16], j: usize) -> u32
    requires { j < 16 }
    ensures { result ≡ ring_word w.now j }
{
    let x = small1(w[(j + 14) % 16]).wrapping_add(w[(j + 9) % 16]);
    let y = x.wrapping_add(small0(w[(j + 1) % 16]));
    y.wrapping_add(w[j])
}

// A round from the seventeenth on: its word is made in the ring, over the oldest that stands there.
fn made_round(s: [u32; 8], w: &mut [u32; 16], k: u32, j: usize) -> [u32; 8]
    requires { j < 16 }
    ensures value { result ≡ round k (ring_word w.old j) s }
    ensures w_after { w.new ≡ slice_set w.old j (ring_word w.old j) }
{
    let x = ring_word(w, j);
    w[j] = x;
    turn(s, k, x)
}

// The constants K_0 to K_63 (FIPS 180-4, 4.2.2).
const K: [u32; 64] = [
    0x428a2f98, 0x71374491, 0xb5c0fbcf, 0xe9b5dba5, 0x3956c25b, 0x59f111f1, 0x923f82a4, 0xab1c5ed5,
    0xd807aa98, 0x12835b01, 0x243185be, 0x550c7dc3, 0x72be5d74, 0x80deb1fe, 0x9bdc06a7, 0xc19bf174,
    0xe49b69c1, 0xefbe4786, 0x0fc19dc6, 0x240ca1cc, 0x2de92c6f, 0x4a7484aa, 0x5cb0a9dc, 0x76f988da,
    0x983e5152, 0xa831c66d, 0xb00327c8, 0xbf597fc7, 0xc6e00bf3, 0xd5a79147, 0x06ca6351, 0x14292967,
    0x27b70a85, 0x2e1b2138, 0x4d2c6dfc, 0x53380d13, 0x650a7354, 0x766a0abb, 0x81c2c92e, 0x92722c85,
    0xa2bfe8a1, 0xa81a664b, 0xc24b8b70, 0xc76c51a3, 0xd192e819, 0xd6990624, 0xf40e3585, 0x106aa070,
    0x19a4c116, 0x1e376c08, 0x2748774c, 0x34b0bcb5, 0x391c0cb3, 0x4ed8aa4a, 0x5b9cca4f, 0x682e6ff3,
    0x748f82ee, 0x78a5636f, 0x84c87814, 0x8cc70208, 0x90befffa, 0xa4506ceb, 0xbef9a3f7, 0xc67178f2,
];

// Rounds 0 to 15, each at its constant and its word, which stands in the ring already: no word is made here, so this is no
// case of the function below.
fn first_rounds(s0: [u32; 8], w: &[u32; 16]) -> [u32; 8]
    ensures { result ≡ rounds w.now s0 16 }
{
    let s1 = turn(s0, K[0], w[0]);
    let s2 = turn(s1, K[1], w[1]);
    let s3 = turn(s2, K[2], w[2]);
    let s4 = turn(s3, K[3], w[3]);
    let s5 = turn(s4, K[4], w[4]);
    let s6 = turn(s5, K[5], w[5]);
    let s7 = turn(s6, K[6], w[6]);
    let s8 = turn(s7, K[7], w[7]);
    let s9 = turn(s8, K[8], w[8]);
    let s10 = turn(s9, K[9], w[9]);
    let s11 = turn(s10, K[10], w[10]);
    let s12 = turn(s11, K[11], w[11]);
    let s13 = turn(s12, K[12], w[12]);
    let s14 = turn(s13, K[13], w[13]);
    let s15 = turn(s14, K[14], w[14]);
    turn(s15, K[15], w[15])
}

// Sixteen rounds from round FROM on. Each place of the ring and of the constants is written out, so that no remainder is
// left to compute and the working variables stay in registers.
fn later_rounds<const FROM: usize>(s0: [u32; 8], w: &mut [u32; 16]) -> [u32; 8]
    requires { FROM + 16 ≤ 64 }
    ensures value { result ≡ rounds_from FROM w.old s0 16 }
    ensures w_after { w.new ≡ ring_after w.old 16 }
{
    let s1 = made_round(s0, w, K[FROM], 0);
    let s2 = made_round(s1, w, K[FROM + 1], 1);
    let s3 = made_round(s2, w, K[FROM + 2], 2);
    let s4 = made_round(s3, w, K[FROM + 3], 3);
    let s5 = made_round(s4, w, K[FROM + 4], 4);
    let s6 = made_round(s5, w, K[FROM + 5], 5);
    let s7 = made_round(s6, w, K[FROM + 6], 6);
    let s8 = made_round(s7, w, K[FROM + 7], 7);
    let s9 = made_round(s8, w, K[FROM + 8], 8);
    let s10 = made_round(s9, w, K[FROM + 9], 9);
    let s11 = made_round(s10, w, K[FROM + 10], 10);
    let s12 = made_round(s11, w, K[FROM + 11], 11);
    let s13 = made_round(s12, w, K[FROM + 12], 12);
    let s14 = made_round(s13, w, K[FROM + 13], 13);
    let s15 = made_round(s14, w, K[FROM + 14], 14);
    made_round(s15, w, K[FROM + 15], 15)
}

// The 64 rounds over a block.
fn all_rounds(h: [u32; 8], b: &[u8]) -> [u32; 8]
    requires { 64 ≤ length b.now }
    ensures { result ≡ rounds (schedule (words (take 64 b.now) 16) 48) h 64 }
{
    let mut w = first_words(b);
    let s1 = first_rounds(h, &w);
    let s2 = later_rounds::<16>(s1, &mut w);
    let s3 = later_rounds::<32>(s2, &mut w);
    later_rounds::<48>(s3, &mut w)
}

// The hash value h after a block, in place.
pub(crate) fn block_at(h: &mut [u32; 8], b: &[u8])
    requires { (length h.old ≡ 8) × (64 ≤ length b.now) }
    ensures { h.new ≡ compress h.old (take 64 b.now) }
{
    let s = all_rounds(*h, b);
    for (i, word) in h.iter_mut().enumerate() {
        *word = s[i].wrapping_add(*word);
    }
}
