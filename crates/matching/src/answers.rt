// The answer of a REQ to filters that passed their rows, over a sound table.
ghost use Rattle.std.specs.Prelude.{◌≡◌, true, ◌*◌, ◌≤◌, ◌<◌, length};
ghost use Rattle.wire.specs.Limits.{most_slots, most_filters};
ghost use Rattle.message.specs.Lent.{filter_row};
ghost use Rattle.table.specs.Layout.{count_of};
ghost use Rattle.table.specs.Sound.{sound};
ghost use Rattle.query.specs.Filter.{filter_of};
ghost use Rattle.query.specs.Answer.{filters_row, answer_to};
ghost use Rattle.matching.specs.Inner.Hits.{Filled};
ghost use Rattle.matching.specs.Inner.Order.{told, told_row};

use crate::{ROW_ROOM, found, held, order};

// A byte for each slot and filter.
const HITS: usize = wire::MOST_SLOTS * wire::MOST_FILTERS;

// Filter number j, its members found, is asked of the c held slots.
fn ask(table: &[u8], c: usize, m: &[u8], p: message::FilterParts, j: usize, hits: &mut [u8])
    requires table_value { (sound table.now ≡ true) × (filter_row m.now p ≡ 0) }
    requires c_value { (c ≡ count_of table.now) × (c ≤ most_slots) × (j < most_filters) × (c * 4 ≤ length hits.old) }
    ensures { Filled table.now (filter_of m.now p) j c hits.old
        hits.new }
{
    let mut places = [0usize; ROW_ROOM];
    let f = found::find(m, p, &mut places);
    held::fill(table, c, m, &places, f, j, hits);
}

// Each filter is asked of every held slot; then the slots are ordered.
pub(crate) fn answered(
    table: &[u8],
    m: &[u8],
    fs: [message::FilterParts; 4],
    n: usize,
    row: &mut [u16],
) -> Result<usize, u8>
    requires { (sound table.now ≡ true) × (filters_row m.now fs n ≡ 0) }
    ensures value { result ≡ told (answer_to table.now m.now fs n) row.old }
    ensures row_after { row.new ≡ told_row (answer_to table.now m.now fs n) row.old }
{
    let c = wire::le_at(table, slots::COUNT_PLACE, 4) as usize;
    let mut hits = [0u8; HITS];
    for j in 0..n {
        ask(table, c, m, fs[j], j, &mut hits);
    }
    order::listed_hits(table, c, &hits, fs, n, row)
}
