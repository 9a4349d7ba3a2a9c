// Matching: whether an event matches a filter, and the answer of a REQ, in code. The definitions stand in query/specs
// and, for the steps of the code, in specs/.
#![tactic(auto)]

ghost use Rattle.std.specs.Prelude.{◌≡◌};
ghost use Rattle.query.specs.Answer.{matched_row, matched, match_number, listing_row, listed, listed_row, listing_number};

mod answers;
mod found;
mod held;
mod lent;
mod matcher;
mod order;
mod several;

// The row that a filter's members are written to: two numbers for each string, one for each kind. ids stand in it from
// 0 on, and behind them authors, kinds, and the members of the # conditions.
pub(crate) const STRINGS_ROOM: usize = wire::MOST_MEMBERS * 2;

pub(crate) const KINDS_ROOM: usize = wire::MOST_MEMBERS;

pub(crate) const AUTHORS_PLACE: usize = STRINGS_ROOM;

pub(crate) const KINDS_PLACE: usize = AUTHORS_PLACE + STRINGS_ROOM;

pub(crate) const CONDITIONS_PLACE: usize = KINDS_PLACE + KINDS_ROOM;

pub(crate) const ROW_ROOM: usize = CONDITIONS_PLACE + wire::MOST_CONDITIONS * STRINGS_ROOM;

// A # condition: its letter, and where its members stand in the row.
#[derive(Clone, Copy)]
pub(crate) struct Needed {
    pub letter: u8,
    pub from: usize,
    pub len: usize,
}

// The # conditions of a filter: the first n.
#[derive(Clone, Copy)]
pub(crate) struct Conditions {
    pub list: [Needed; 4],
    pub n: usize,
}

// A filter whose list members were found.
#[derive(Clone, Copy)]
pub(crate) struct Known {
    pub ids: Option<(usize, usize)>,
    pub authors: Option<(usize, usize)>,
    pub kinds: Option<(usize, usize)>,
    pub since: Option<i64>,
    pub until: Option<i64>,
    pub limit: Option<i64>,
    pub conditions: [Needed; 4],
    pub n: usize,
}

// The slots that a REQ with the first n filters is answered with, newest first: how many were written to the row, or
// the row of 01 that refuses: 2 and 4 to 8 of the filters, then 11, then 13.
pub fn answer(
    table: &[u8],
    m: &[u8],
    fs: [message::FilterParts; 4],
    n: usize,
    row: &mut [u16],
) -> Result<usize, u8>
    ensures value { result ≡ listed table.now m.now fs n row.old }
    ensures result_value { listing_number result ≡ listing_row table.now m.now fs n row.old }
    ensures row_after { row.new ≡ listed_row table.now m.now fs n row.old }
{
    let r = lent::filters_row(m, fs, n);
    if r != 0 {
        return Err(r);
    }
    if !slots::sound(table) {
        return Err(11);
    }
    answers::answered(table, m, fs, n, row)
}

// Whether the event of the parts p over b matches some of the first n filters, whose places lie in m; or the row of 01
// that refuses: 2 and 4 to 8 of the event and of the filters, then 9.
pub fn matched(
    b: &[u8],
    p: message::EventParts,
    m: &[u8],
    fs: [message::FilterParts; 4],
    n: usize,
) -> Result<bool, u8>
    ensures value { result ≡ matched b.now p m.now fs n }
    ensures result_value { match_number result ≡ matched_row b.now p m.now fs n }
{
    let row = message::lower_row(message::event_row(b, p), lent::filters_row(m, fs, n));
    if row != 0 {
        return Err(row);
    }
    let body = p.body;
    if wire::MOST_TEXT < event::text_len(b, body) {
        return Err(9);
    }
    Ok(several::some_match(b, p, m, fs, n))
}
