// A table: formatted, tested, offered to, shown.
ghost use Rattle.std.specs.Prelude.{◌≡◌};
ghost use Rattle.table.specs.Format.{format_row, formatted, shown_row};
ghost use Rattle.table.specs.Offer.{as_message, as_parts, answer, next};
ghost use Rattle.slots.specs.Shown.{shown_at};
ghost use Rattle.numbers.specs.Parts.{event_from};
ghost use Rattle.capi.specs.Table.{sound_row, offered_number, offered_offset, shown_place, shown_length};

use crate::messages;

// Formats the buffer: 14, 13 or 0.
pub fn plavdrosa_format(table: &mut [u8], capacity: usize) -> u8
    ensures value { result ≡ format_row capacity table.old }
    ensures table_after { table.new ≡ formatted capacity table.old }
{
    slots::format(table, capacity)
}

// 0 if the table is sound, else 11.
pub fn plavdrosa_sound(table: &[u8]) -> u8
    ensures { result ≡ sound_row table.now }
{
    if slots::sound(table) {
        return 0;
    }
    11
}

fn offered_number(x: Result<table::Offered, shape::Refusal>) -> u8
    ensures { result ≡ offered_number x }
{
    match x {
        Ok(table::Offered::Stored) => 0,
        Ok(table::Offered::Ephemeral) => 100,
        Ok(table::Offered::Duplicate) => 101,
        Ok(table::Offered::Older) => 102,
        Err(r) => r.row,
    }
}

// The offset that an offer's refusal carries, into `offset`, which stays where there is none.
fn put_offered(offset: &mut usize, x: Result<table::Offered, shape::Refusal>)
    ensures { offset.new ≡ offered_offset x offset.old }
{
    match x {
        Ok(table::Offered::Stored) => {}
        Ok(table::Offered::Ephemeral) => {}
        Ok(table::Offered::Duplicate) => {}
        Ok(table::Offered::Older) => {}
        Err(r) => messages::put_offset(offset, r),
    }
}

// A message offered: 0 if it is stored, 100 if it is ephemeral, 101 if it is a duplicate, 102 if it is older, or the
// row that refuses it. With rows 6 and 7 the offset of the earliest number, or opening quote of a string, that breaks
// that row goes into `offset`, which else stays as found.
pub fn plavdrosa_offer(table: &mut [u8], message: &[u8], offset: &mut usize) -> u8
    ensures value { result ≡ offered_number (answer table.old (as_message message.now)) }
    ensures table_after { table.new ≡ next table.old (as_message message.now) }
    ensures offset_after { offset.new ≡ offered_offset (answer table.old (as_message message.now))
        offset.old }
{
    let x = offers::offer_message(table, message);
    put_offered(offset, x);
    offered_number(x)
}

// An event offered as parts of `bytes`; the same numbers.
pub fn plavdrosa_offer_parts(table: &mut [u8], bytes: &[u8], event: &[u64]) -> u8
    ensures value { result ≡ offered_number
        (answer table.old (as_parts bytes.now (event_from event.now))) }
    ensures table_after { table.new ≡ next table.old
        (as_parts bytes.now (event_from event.now)) }
{
    let p = numbers::event_from(event);
    offered_number(offers::offer_parts(table, bytes, p))
}

// What the offer of a message would be answered, as plavdrosa_offer tells it; the table is only read.
pub fn plavdrosa_judge(table: &[u8], message: &[u8], offset: &mut usize) -> u8
    ensures value { result ≡ offered_number (answer table.now (as_message message.now)) }
    ensures offset_after { offset.new ≡ offered_offset (answer table.now (as_message message.now))
        offset.old }
{
    let x = offers::judge_message(table, message);
    put_offered(offset, x);
    offered_number(x)
}

// Where the text of a slot stands in the table, into `place`, and how many bytes it has, into `len`: 11, 14 or 0. On a
// refusal both stay as found.
pub fn plavdrosa_show(table: &[u8], slot: usize, place: &mut usize, len: &mut usize) -> u8
    ensures value { result ≡ shown_row table.now slot }
    ensures place_after { place.new ≡ shown_place (shown_at table.now slot) place.old }
    ensures len_after { len.new ≡ shown_length (shown_at table.now slot) len.old }
{
    match slots::shown_at(table, slot) {
        Ok((at, n)) => {
            *place = at;
            *len = n;
            0
        }
        Err(r) => r,
    }
}
