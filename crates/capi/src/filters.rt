// Filters, as the numbers of a REQ, and events, as those of an EVENT, that plavdrosa_read writes.
ghost use Rattle.std.specs.Prelude.{◌≡◌};
ghost use Rattle.query.specs.Answer.{listing_number};
ghost use Rattle.capi.specs.Query.{match_of, matched_number, list_of, list_out, count_or};

// Whether an event over `bytes` matches some of the filters over `message`: 0 if it does, 103 if it does not, or the
// row that refuses the parts.
pub fn plavdrosa_match(bytes: &[u8], event: &[u64], message: &[u8], request: &[u64]) -> u8
    ensures { result ≡ matched_number (match_of bytes.now event.now message.now
        request.now) }
{
    let p = numbers::event_from(event);
    let fs = numbers::filters_from(request);
    let n = numbers::number_in(request, 3) as usize;
    match matching::matched(bytes, p, message, fs, n) {
        Ok(true) => 0,
        Ok(false) => 103,
        Err(r) => r,
    }
}

// The slots that a REQ with the filters over `message` is answered with, newest first, into `row`, and how many they
// are into `count`: the row that refuses the filters, 11, 13, or 0. On a refusal both stay as found.
pub fn plavdrosa_list(
    table: &[u8],
    message: &[u8],
    request: &[u64],
    row: &mut [u16],
    count: &mut usize,
) -> u8
    ensures value { result ≡ listing_number (list_of table.now message.now request.now
        row.old) }
    ensures row_after { row.new ≡ list_out table.now message.now request.now
        row.old }
    ensures count_after { count.new ≡ count_or (list_of table.now message.now
        request.now row.old) count.old }
{
    let fs = numbers::filters_from(request);
    let n = numbers::number_in(request, 3) as usize;
    match matching::answer(table, message, fs, n, row) {
        Ok(k) => {
            *count = k;
            0
        }
        Err(r) => r,
    }
}
