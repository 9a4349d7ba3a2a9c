// The calls of crate capi as Rust or C link them (`rt lib` in this folder): numbers and slices of numbers only, each slice
// a pointer and a length. Each says again what crate capi says of it.
#![tactic(auto)]

ghost use Rattle.std.specs.Prelude.{◌≡◌};
ghost use Rattle.capi.specs.Digest.{digest_row, digest_out, start_row, start_out, end_row, end_out};
ghost use Rattle.digest.specs.Bytes.{update_row, update_out};
ghost use Rattle.capi.specs.Query.{match_of, matched_number, list_of, list_out, count_or};
ghost use Rattle.query.specs.Answer.{listing_number};
ghost use Rattle.rows.specs.Rows.{text_row};
ghost use Rattle.shape.specs.Rows.{message_row};
ghost use Rattle.shape.specs.Offsets.{refusal_of};
ghost use Rattle.capi.specs.Calls.{offset_or, read_row, read_out, read_text_row, read_text_out, serialise_row};
ghost use Rattle.capi.specs.Calls.{serialise_out, serialise_length, id_row, id_out};
ghost use Rattle.table.specs.Format.{format_row, formatted, shown_row};
ghost use Rattle.capi.specs.Table.{sound_row, offered_number, offered_offset, shown_place, shown_length};
ghost use Rattle.table.specs.Offer.{as_message, answer, next, as_parts};
ghost use Rattle.numbers.specs.Parts.{event_from};
ghost use Rattle.slots.specs.Shown.{shown_at};

// The SHA-256 of `bytes` into the first 32 bytes of `out`: 0, 8 or 13.
#[unsafe(no_mangle)]
pub extern "C" fn plavdrosa_digest(bytes: &[u8], out: &mut [u8]) -> u8
    ensures value { result ≡ digest_row bytes.now out.old }
    ensures out_after { out.new ≡ digest_out bytes.now out.old }
{
    capi::plavdrosa_digest(bytes, out)
}

// A state of nothing fed, into the first 104 bytes of `state`: 13 or 0.
#[unsafe(no_mangle)]
pub extern "C" fn plavdrosa_digest_start(state: &mut [u8]) -> u8
    ensures value { result ≡ start_row state.old }
    ensures state_after { state.new ≡ start_out state.old }
{
    capi::plavdrosa_digest_start(state)
}

// A piece more: the state of it and of what was fed before. 13, 8 or 0; on a refusal the state stays as found.
#[unsafe(no_mangle)]
pub extern "C" fn plavdrosa_digest_update(state: &mut [u8], bytes: &[u8]) -> u8
    ensures value { result ≡ update_row state.old bytes.now }
    ensures state_after { state.new ≡ update_out state.old bytes.now }
{
    capi::plavdrosa_digest_update(state, bytes)
}

// The digest of all that was fed, into the first 32 bytes of `out`: 13, 8 or 0. The state is only read.
#[unsafe(no_mangle)]
pub extern "C" fn plavdrosa_digest_finish(state: &[u8], out: &mut [u8]) -> u8
    ensures value { result ≡ end_row state.now out.old }
    ensures out_after { out.new ≡ end_out state.now out.old }
{
    capi::plavdrosa_digest_finish(state, out)
}

// Whether an event over `bytes` matches some of the filters over `message`: 0 if it does, 103 if it does not, or the
// row that refuses the parts.
#[unsafe(no_mangle)]
pub extern "C" fn plavdrosa_match(
    bytes: &[u8],
    event: &[u64],
    message: &[u8],
    request: &[u64],
) -> u8
    ensures { result ≡ matched_number (match_of bytes.now event.now message.now
        request.now) }
{
    capi::plavdrosa_match(bytes, event, message, request)
}

// The slots that a REQ with the filters over `message` is answered with, newest first, into `row`, and how many they
// are into `count`: the row that refuses the filters, 11, 13, or 0. On a refusal both stay as found.
#[unsafe(no_mangle)]
pub extern "C" fn plavdrosa_list(
    table: &[u8],
    message: &[u8],
    request: &[u64],
    row: &mut [u16],
    count: &mut usize,
) -> u8
    ensures value { result ≡ listing_number (list_of table.now message.now request.now
        row.old) }
    ensures row_after { row.new ≡ list_out table.now message.now request.now
        row.old }
    ensures count_after { count.new ≡ count_or (list_of table.now message.now
        request.now row.old) count.old }
{
    capi::plavdrosa_list(table, message, request, row, count)
}

// The lowest of rows 1 to 4 that holds of a text, or 0.
#[unsafe(no_mangle)]
pub extern "C" fn plavdrosa_text_row(bytes: &[u8]) -> u8
    ensures { result ≡ text_row bytes.now }
{
    capi::plavdrosa_text_row(bytes)
}

// Rows 1 to 8 of a client message: the lowest that holds, or 0. With rows 6 and 7 the offset of the earliest number, or
// opening quote of a string, that breaks that row goes into `offset`, which else stays as found.
#[unsafe(no_mangle)]
pub extern "C" fn plavdrosa_message_row(bytes: &[u8], offset: &mut usize) -> u8
    ensures value { result ≡ message_row bytes.now }
    ensures offset_after { offset.new ≡ offset_or (refusal_of bytes.now) offset.old }
{
    capi::plavdrosa_message_row(bytes, offset)
}

// A client message read, and its parts as numbers into `out`: the lowest of rows 1 to 8 that holds, 13 if `out` has no
// room for them, or 0. The first number says what was read: 1 an EVENT (12 numbers), 2 a REQ (4, of which the last says
// how many filters follow, and 10 a filter), 3 a CLOSE (3). `offset` is as plavdrosa_message_row leaves it.
#[unsafe(no_mangle)]
pub extern "C" fn plavdrosa_read(bytes: &[u8], out: &mut [u64], offset: &mut usize) -> u8
    ensures value { result ≡ read_row bytes.now out.old }
    ensures out_after { out.new ≡ read_out bytes.now out.old }
    ensures offset_after { offset.new ≡ offset_or (refusal_of bytes.now) offset.old }
{
    capi::plavdrosa_read(bytes, out, offset)
}

// Formats the buffer: 14, 13 or 0.
#[unsafe(no_mangle)]
pub extern "C" fn plavdrosa_format(table: &mut [u8], capacity: usize) -> u8
    ensures value { result ≡ format_row capacity table.old }
    ensures table_after { table.new ≡ formatted capacity table.old }
{
    capi::plavdrosa_format(table, capacity)
}

// 0 if the table is sound, else 11.
#[unsafe(no_mangle)]
pub extern "C" fn plavdrosa_sound(table: &[u8]) -> u8
    ensures { result ≡ sound_row table.now }
{
    capi::plavdrosa_sound(table)
}

// A message offered: 0 if it is stored, 100 if it is ephemeral, 101 if it is a duplicate, 102 if it is older, or the
// row that refuses it. With rows 6 and 7 the offset of the earliest number, or opening quote of a string, that breaks
// that row goes into `offset`, which else stays as found.
#[unsafe(no_mangle)]
pub extern "C" fn plavdrosa_offer(table: &mut [u8], message: &[u8], offset: &mut usize) -> u8
    ensures value { result ≡ offered_number (answer table.old (as_message message.now)) }
    ensures table_after { table.new ≡ next table.old (as_message message.now) }
    ensures offset_after { offset.new ≡ offered_offset (answer table.old (as_message message.now))
        offset.old }
{
    capi::plavdrosa_offer(table, message, offset)
}

// An event offered as parts of `bytes`; the same numbers.
#[unsafe(no_mangle)]
pub extern "C" fn plavdrosa_offer_parts(table: &mut [u8], bytes: &[u8], event: &[u64]) -> u8
    ensures value { result ≡ offered_number
        (answer table.old (as_parts bytes.now (event_from event.now))) }
    ensures table_after { table.new ≡ next table.old
        (as_parts bytes.now (event_from event.now)) }
{
    capi::plavdrosa_offer_parts(table, bytes, event)
}

// What the offer of a message would be answered, as plavdrosa_offer tells it; the table is only read.
#[unsafe(no_mangle)]
pub extern "C" fn plavdrosa_judge(table: &[u8], message: &[u8], offset: &mut usize) -> u8
    ensures value { result ≡ offered_number (answer table.now (as_message message.now)) }
    ensures offset_after { offset.new ≡ offered_offset (answer table.now (as_message message.now))
        offset.old }
{
    capi::plavdrosa_judge(table, message, offset)
}

// Where the text of a slot stands in the table, into `place`, and how many bytes it has, into `len`: 11, 14 or 0. On a
// refusal both stay as found.
#[unsafe(no_mangle)]
pub extern "C" fn plavdrosa_show(
    table: &[u8],
    slot: usize,
    place: &mut usize,
    len: &mut usize,
) -> u8
    ensures value { result ≡ shown_row table.now slot }
    ensures place_after { place.new ≡ shown_place (shown_at table.now slot) place.old }
    ensures len_after { len.new ≡ shown_length (shown_at table.now slot) len.old }
{
    capi::plavdrosa_show(table, slot, place, len)
}

// A text read back alone, and its parts as numbers into `out`: 9, 5, 13 if `out` has room for fewer than seven numbers,
// or 0.
#[unsafe(no_mangle)]
pub extern "C" fn plavdrosa_read_text(bytes: &[u8], out: &mut [u64]) -> u8
    ensures value { result ≡ read_text_row bytes.now out.old }
    ensures out_after { out.new ≡ read_text_out bytes.now out.old }
{
    capi::plavdrosa_read_text(bytes, out)
}

// The text of the event that the row gives, from the start of `out`, and how many bytes it has into `len`: the row that
// refuses it, 13, or 0. On a refusal both stay as found.
#[unsafe(no_mangle)]
pub extern "C" fn plavdrosa_serialise(
    bytes: &[u8],
    event: &[u64],
    out: &mut [u8],
    len: &mut usize,
) -> u8
    ensures value { result ≡ serialise_row bytes.now event.now out.old }
    ensures out_after { out.new ≡ serialise_out bytes.now event.now out.old }
    ensures len_after { len.new ≡ serialise_length bytes.now event.now out.old
        len.old }
{
    capi::plavdrosa_serialise(bytes, event, out, len)
}

// The id of the event that the row gives, into the first 32 bytes of `out`: the row that refuses it, 13, or 0.
#[unsafe(no_mangle)]
pub extern "C" fn plavdrosa_id(bytes: &[u8], event: &[u64], out: &mut [u8]) -> u8
    ensures value { result ≡ id_row bytes.now event.now out.old }
    ensures out_after { out.new ≡ id_out bytes.now event.now out.old }
{
    capi::plavdrosa_id(bytes, event, out)
}
