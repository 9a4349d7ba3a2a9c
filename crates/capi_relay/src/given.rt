// A reply's parts from a row of numbers. A number past the end of the row is 0.
ghost use Rattle.std.specs.Prelude.{◌≡◌};
ghost use Rattle.capi_relay.specs.Reply.{name_from, reason_from, accepted_in, reply_from};

use message::Span;
use reply::ReplyParts;

// The id, the subscription id, or the reason of a NOTICE.
fn name_from(l: &[u64]) -> Span
    ensures { result ≡ name_from l.now }
{
    numbers::span_from(numbers::behind(l, 1))
}

// The reason of an OK or a CLOSED.
fn reason_from(l: &[u64]) -> Span
    ensures { result ≡ reason_from l.now }
{
    numbers::span_from(numbers::behind(l, 3))
}

fn accepted_in(l: &[u64]) -> bool
    ensures { result ≡ accepted_in l.now }
{
    let accepted = numbers::number_in(l, 5);
    if accepted == 0 {
        return false;
    }
    true
}

// The parts, by the row's first number.
pub(crate) fn reply_from(form: u64, l: &[u64]) -> ReplyParts
    ensures { result ≡ reply_from form l.now }
{
    let name = name_from(l);
    if form == 1 {
        let accepted = accepted_in(l);
        return ReplyParts::Ok(name, accepted, reason_from(l));
    }
    if form == 2 {
        return ReplyParts::Event(name, numbers::event_from(numbers::behind(l, 3)));
    }
    if form == 3 {
        return ReplyParts::Eose(name);
    }
    if form == 4 {
        return ReplyParts::Closed(name, reason_from(l));
    }
    ReplyParts::Notice(name)
}
