// No id and no key held twice. Slots are told apart by numbers first, and compared only where these are alike.
ghost use Rattle.std.specs.Prelude.{◌≡◌, false, ◌+◌, ◌-◌, ◌≤◌, ◌<◌, length, get_or, set};
ghost use Rattle.wire.specs.Limits.{most_slots};
ghost use Rattle.text.specs.Kinds.{class_of};
ghost use Rattle.law.specs.Lists.{any};
ghost use Rattle.table.specs.Layout.{slot_at};
ghost use Rattle.table.specs.Sound.{none_twice};
ghost use Rattle.slots.specs.Slots.{has_key_in, clash, slots_from};
ghost use Rattle.wire.specs.Field.{field_at};
ghost use Rattle.slots.specs.Marks.{id_mark, word_from, last_words, first_words, key_number, key_mark, Marked};
ghost use Rattle.slots.specs.Marks.{Unlike, bucket_count, bucket_of, Noted};

use crate::{ID_PLACE, ID_SIZE, KIND_PLACE, PUBKEY_PLACE, held, same_id, same_key, slot};

// Whether events of a kind have a key.
pub(crate) fn keyed(kind: u16) -> bool
    ensures { result ≡ has_key_in (class_of kind) }
{
    matches!(
        text::class_of(kind),
        text::Class::Addressable | text::Class::Replaceable
    )
}

// A number that slots with one id have alike.
fn id_mark(s: &[u8]) -> u16
    ensures { result ≡ id_mark s.now }
{
    wire::le_at(wire::piece(s, ID_PLACE, ID_SIZE), 0, 2) as u16
}

// The four bytes that begin k before the end, as a number; the first ones of fewer than k.
fn word(d: &[u8], k: usize) -> u32
    ensures { result ≡ word_from k d.now }
{
    wire::le_at(d, d.len().saturating_sub(k), 4) as u32
}

// The four bytes at a place, as a number; 0 for those past the end.
fn word_at(d: &[u8], at: usize) -> u32
    ensures { result ≡ field_at d.now at 4 }
{
    wire::le_at(d, at, 4) as u32
}

// Sixteen bytes of d, the last and the first, as a number. Each word is multiplied by an odd number of its own, so that
// it matters where it stands.
fn last_words(d: &[u8]) -> u64
    ensures { result ≡ last_words d.now }
{
    let a = word(d, 4) as u64 * 2654435761;
    let b = word(d, 8) as u64 * 2246822519;
    let c = word(d, 12) as u64 * 3266489917;
    let e = word(d, 16) as u64 * 668265263;
    (a ^ b) ^ (c ^ e)
}

// Like `last_words`, from the other end and by other numbers, which are a part of the definitions.
fn first_words(d: &[u8]) -> u64
    ensures { result ≡ first_words d.now }
{
    let a = word_at(d, 0) as u64 * 3432918353;
    let b = word_at(d, 4) as u64 * 461845907;
    let c = word_at(d, 8) as u64 * 2246822507;
    let e = word_at(d, 12) as u64 * 3266489909;
    (a ^ b) ^ (c ^ e)
}

// A number of both ends of d and the end of a pubkey: bits 20 to 35 of the products, where all bits of a word tell. d of
// one wing may end alike, or begin alike.
fn key_number(d: &[u8], pubkey: &[u8]) -> u16
    ensures { result ≡ key_number d.now pubkey.now }
{
    let a = last_words(d);
    let b = first_words(d);
    let c = word(pubkey, 4) as u64 * 374761393;
    (((a ^ b) ^ c) / 1048576 % 65536) as u16
}

// A number that slots with one key have alike. A slot without a key has its id's, which tells it from the others.
fn key_mark(s: &[u8]) -> u16
    ensures { result ≡ key_mark s.now }
{
    let kind = wire::le_at(s, KIND_PLACE, 2) as u16;
    if keyed(kind) {
        let pubkey = wire::piece(held::text_of(s), PUBKEY_PLACE, wire::HEX_LENGTH);
        return key_number(held::d_of(s), pubkey) ^ kind;
    }
    id_mark(s)
}

// The marks of slots 0 to c-1.
fn mark(table: &[u8], c: usize, ids: &mut [u16], keys: &mut [u16])
    requires { (c ≤ most_slots) × (length ids.old ≡ most_slots) × (length keys.old ≡ most_slots) }
    ensures { Marked table.now c ids.new keys.new }
{
    for k in 0..c {
        ids[k] = id_mark(slot(table, k));
        keys[k] = key_mark(slot(table, k));
    }
}

// Whether slots i and j have one id or one key: compared only where their marks are alike.
fn alike(table: &[u8], c: usize, ids: &[u16], keys: &[u16], i: usize, j: usize) -> bool
    requires marked { Marked table.now c ids.now keys.now }
    requires c_le_most_slots { (c ≤ most_slots) × (i < c) × (j < c) }
    ensures { result ≡ clash (slot_at table.now i) (slot_at table.now j) }
{
    (ids[i] == ids[j] && same_id(slot(table, i), slot(table, j)))
        || (keys[i] == keys[j] && same_key(slot(table, i), slot(table, j)))
}

// Whether a later slot has a mark of slot i. No way out of the loop, so that the compiler takes many marks at a time.
fn maybe(ids: &[u16], keys: &[u16], c: usize, i: usize) -> bool
    requires { (length ids.now ≡ most_slots) × (length keys.now ≡ most_slots) × (c ≤ most_slots) × (i < c) }
    ensures { result ≡ false → Unlike ids.now keys.now i c }
{
    let m = ids[i];
    let k = keys[i];
    let mut hit = false;
    for j in i + 1..c {
        hit |= (ids[j] == m) | (keys[j] == k);
    }
    hit
}

// Whether a later held slot has the id or the key of slot i: looked at only where a mark hits.
fn again(table: &[u8], c: usize, ids: &[u16], keys: &[u16], i: usize) -> bool
    requires marked { Marked table.now c ids.now keys.now }
    requires c_le_most_slots { (c ≤ most_slots) × (i < c) }
    ensures { result ≡ any (clash (slot_at table.now i))
        (slots_from table.now (i + 1) (c - (i + 1))) }
{
    if !maybe(ids, keys, c, i) {
        return false;
    }
    for j in i + 1..c {
        if alike(table, c, ids, keys, i, j) {
            return true;
        }
    }
    false
}

// Marks fall into so many buckets.
const BUCKETS: usize = 2048;

fn bucket(mark: u16) -> usize
    ensures value { result ≡ bucket_of mark }
    ensures upper_bound { result < bucket_count }
{
    mark as usize % BUCKETS
}

// Whether one of two marks falls into a bucket that one has fallen into.
fn met(seen: &[u8], id: u16, key: u16) -> bool
    requires { length seen.now ≡ bucket_count }
    ensures { result ≡ false → (get_or seen.now (bucket_of id) 0 ≡ 0) ×
        (get_or seen.now (bucket_of key) 0 ≡ 0) }
{
    let i = bucket(id);
    let k = bucket(key);
    seen[i] != 0 || seen[k] != 0
}

// Two marks fall into their buckets.
fn note(seen: &mut [u8], id: u16, key: u16)
    requires { length seen.old ≡ bucket_count }
    ensures { seen.new ≡ set (set seen.old (bucket_of id) 1) (bucket_of key) 1 }
{
    let i = bucket(id);
    let k = bucket(key);
    seen[i] = 1;
    seen[k] = 1;
}

// Whether a later held slot has the id or the key of slot i: all later ones have fallen into their buckets, and where
// none fell into those of slot i there is none.
fn repeated(table: &[u8], c: usize, ids: &[u16], keys: &[u16], seen: &[u8], i: usize) -> bool
    requires marked { Marked table.now c ids.now keys.now }
    requires c_le_most_slots { (c ≤ most_slots) × (i < c) }
    requires noted { Noted ids.now keys.now (i + 1) c seen.now }
    ensures { result ≡ any (clash (slot_at table.now i))
        (slots_from table.now (i + 1) (c - (i + 1))) }
{
    met(seen, ids[i], keys[i]) && again(table, c, ids, keys, i)
}

// Whether slots 0 to c-1 have no id and no key twice. From the last slot down, each is looked for among the later ones.
// Ids and keys have a row of marks each, and no row of pairs, so that `maybe` compares many at a time; fixed memory.
pub(crate) fn apart(table: &[u8], c: usize) -> bool
    requires { c ≤ most_slots }
    ensures { result ≡ none_twice clash (slots_from table.now 0 c) }
{
    let mut ids = [0u16; wire::MOST_SLOTS];
    let mut keys = [0u16; wire::MOST_SLOTS];
    let mut seen = [0u8; BUCKETS];
    mark(table, c, &mut ids, &mut keys);
    for i in (0..c).rev() {
        if repeated(table, c, &ids, &keys, &seen, i) {
            return false;
        }
        note(&mut seen, ids[i], keys[i]);
    }
    true
}
