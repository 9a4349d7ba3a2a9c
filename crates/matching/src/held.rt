// A held slot of a sound table matched against a filter, and one filter asked of all held slots. The id's hex is
// written only where the filter has ids, and the tags are looked for only where it has conditions.
ghost use Rattle.std.specs.Prelude.{◌≡◌, true, false, map, ◌+◌, ◌*◌, ◌≤◌, ◌<◌, length, take};
ghost use Rattle.wire.specs.Limits.{most_slots, most_filters};
ghost use Rattle.numeral.specs.Decimal.{digits, decimal};
ghost use Rattle.text.specs.Event.{all};
ghost use Rattle.message.specs.Lent.{is_tags_shape, value5};
ghost use Rattle.event.specs.Lent.{lent_tags_at};
ghost use Rattle.wire.specs.Bytes.{hex_digit};
ghost use Rattle.event.specs.Answer.{hex_of};
ghost use Rattle.table.specs.Layout.{id_size, count_of, id_in};
ghost use Rattle.table.specs.Sound.{sound};
ghost use Rattle.query.specs.Match.{is_listed, condition_holds};
ghost use Rattle.query.specs.Answer.{matches_slot};
ghost use Rattle.matching.specs.Inner.Found.{spelled_by, given, condition_by, filter_by};
ghost use Rattle.matching.specs.Inner.Hits.{Filled};

use crate::{Known, matcher};

// The hex digit of a number, in lower case: wire has the same, private to it.
fn hex_digit(d: u8) -> u8
    requires { d < 16 }
    ensures { result ≡ hex_digit d }
{
    if d < 10 { b'0' + d } else { b'a' - 10 + d }
}

// The hex of an id. Each digit has its place, and there is no way out of the loop, so that the compiler takes many
// bytes at a time.
fn put_hex(hex: &mut [u8], id: &[u8])
    requires { (length id.now ≡ id_size) × (length hex.old ≡ id_size * 2) }
    ensures { hex.new ≡ hex_of id.now }
{
    for i in 0..slots::ID_SIZE {
        hex[i * 2] = hex_digit(id[i] / 16);
        hex[i * 2 + 1] = hex_digit(id[i] % 16);
    }
}

// Whether the id of the slot s, in hex, is in the list.
fn id_listed(s: &[u8], ids: Option<(usize, usize)>, m: &[u8], row: &[usize]) -> bool
    requires { id_size ≤ length s.now }
    ensures { result ≡ is_listed (given (spelled_by m.now) row.now ids)
        (hex_of (id_in s.now)) }
{
    if ids.is_none() {
        return true;
    }
    let mut hex = [0u8; wire::HEX_LENGTH];
    put_hex(&mut hex, wire::piece(s, slots::ID_PLACE, slots::ID_SIZE));
    matcher::listed(ids, &hex, m, row)
}

// Whether the conditions hold of the tags in the text t, which stand after [0,"PUBKEY",TIME,KIND, .
fn tags_hold(t: &[u8], time: i64, kind: u64, m: &[u8], row: &[usize], f: Known) -> bool
    requires { value5 is_tags_shape t.now (72 + length (decimal time) + length (digits kind)) ≡ false }
    ensures { result ≡ all (condition_holds
        (lent_tags_at t.now (72 + length (decimal time) + length (digits kind))))
        (map (condition_by m.now row.now) (take f.n f.conditions)) }
{
    if f.n == 0 {
        return true;
    }
    let tags = 72 + numeral::decimal_len(time) + numeral::natural_len(kind);
    matcher::all_hold(t, tags, m, row, f.conditions, f.n)
}

// Whether the event in slot k matches the filter: time and kind are the slot's fields.
fn slot_matched(table: &[u8], k: usize, m: &[u8], row: &[usize], f: Known) -> bool
    requires table_value { sound table.now ≡ true }
    requires k_bound { k < count_of table.now }
    ensures { result ≡ matches_slot table.now (filter_by m.now row.now f) k }
{
    let s = slots::slot(table, k);
    if !id_listed(s, f.ids, m, row) {
        return false;
    }
    let time = wire::to_signed(wire::le_at(s, slots::TIME_PLACE, 8));
    let kind = wire::le_at(s, slots::KIND_PLACE, 2);
    let t = wire::piece(
        s,
        slots::TEXT_PLACE,
        wire::le_at(s, slots::LENGTH_PLACE, 2) as usize,
    );
    if !matcher::fields_hold(
        wire::piece(t, slots::PUBKEY_PLACE, wire::HEX_LENGTH),
        time,
        kind,
        m,
        row,
        f,
    ) {
        return false;
    }
    tags_hold(t, time, kind, m, row, f)
}

// The bytes of filter number j: 1 for each of the first c slots that matches, else 0.
pub(crate) fn fill(
    table: &[u8],
    c: usize,
    m: &[u8],
    row: &[usize],
    f: Known,
    j: usize,
    hits: &mut [u8],
)
    requires table_value { sound table.now ≡ true }
    requires c_bound { (c ≤ count_of table.now) × (c ≤ most_slots) × (j < most_filters) × (c * 4 ≤ length hits.old) }
    ensures { Filled table.now (filter_by m.now row.now f) j c
        hits.old hits.new }
{
    for k in 0..c {
        hits[k * 4 + j] = slot_matched(table, k, m, row, f) as u8;
    }
}
