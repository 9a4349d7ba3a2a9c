// The five replies as texts and as lent parts: what a relay writes and a client reads. The definitions stand in specs/.
#![tactic(auto)]

use message::{EventParts, Span};

// The parts of a reply, each a place in one buffer.
#[derive(Clone, Copy)]
pub enum ReplyParts {
    // the id, whether the event is accepted, the reason
    Ok(Span, bool, Span),
    // the subscription id and the event
    Event(Span, EventParts),
    Eose(Span),
    // the subscription id and the reason
    Closed(Span, Span),
    Notice(Span),
}
