// The row that refuses lent filters.
ghost use Rattle.std.specs.Prelude.{◌≡◌, cond};
ghost use Rattle.wire.specs.Limits.{most_filters};
ghost use Rattle.shape.specs.Rows.{outside};
ghost use Rattle.query.specs.Answer.{filters_row};

// The row of their number.
fn count_row(n: usize) -> u8
    ensures { result ≡ cond (outside 1 most_filters n) 8 0 }
{
    if n < 1 || wire::MOST_FILTERS < n {
        8
    } else {
        0
    }
}

// The lowest row of the first n filters and of their number, from the last filter down.
pub(crate) fn filters_row(m: &[u8], fs: [message::FilterParts; 4], n: usize) -> u8
    ensures { result ≡ filters_row m.now fs n }
{
    let mut r: u8 = 0;
    for j in (0..n.min(wire::MOST_FILTERS)).rev() {
        r = message::lower_row(message::filter_row(m, fs[j]), r);
    }
    message::lower_row(r, count_row(n))
}
