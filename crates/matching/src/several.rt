// Whether an event matches some of several filters.
ghost use Rattle.std.specs.Prelude.{◌≡◌, false};
ghost use Rattle.message.specs.Lent.{is_tags_shape, value5, filter_row};
ghost use Rattle.event.specs.Lent.{said, event_of};
ghost use Rattle.query.specs.Filter.{filter_of};
ghost use Rattle.query.specs.Match.{matches, matches_some};
ghost use Rattle.query.specs.Answer.{meant, filters_row};

use crate::{ROW_ROOM, found, matcher};

// Whether the event of the parts p over b matches a filter, whose members are found first.
fn one_match(b: &[u8], p: message::EventParts, m: &[u8], f: message::FilterParts) -> bool
    requires tags_value { value5 is_tags_shape b.now p.body.tags ≡ false }
    requires f_value { filter_row m.now f ≡ 0 }
    ensures { result ≡ matches (filter_of m.now f) (said b.now p.id)
        (event_of b.now p.body) }
{
    let mut places = [0usize; ROW_ROOM];
    let k = found::find(m, f, &mut places);
    matcher::event_matched(b, p, m, &places, k)
}

// Whether the event of the parts p over b matches one of the first n filters. Each filter's members are found when it
// is its turn.
pub(crate) fn some_match(
    b: &[u8],
    p: message::EventParts,
    m: &[u8],
    fs: [message::FilterParts; 4],
    n: usize,
) -> bool
    requires tags_value { value5 is_tags_shape b.now p.body.tags ≡ false }
    requires n_value { filters_row m.now fs n ≡ 0 }
    ensures { result ≡ matches_some (meant m.now fs n) (said b.now p.id)
        (event_of b.now p.body) }
{
    for i in 0..n {
        if one_match(b, p, m, fs[i]) {
            return true;
        }
    }
    false
}
