// What is kept from item to item, and the fault of the items of a value in all.
ghost use Rattle.std.specs.Prelude.{◌≡◌, ◌^◌};
ghost use Rattle.shape.specs.Inner.{bit_of, is_in, once_fault, marks_after, fresh, stepped, is_full};
ghost use Rattle.shape.specs.Inner.{end_fault, closed};

use crate::{Item, Tally, forms, scalar};

// The bit of a slot.
pub(crate) fn bit(slot: u8) -> u64
    ensures { result ≡ 2 ^ bit_of slot }
{
    1u64 << (slot % 64)
}

#[tactic(auto, unfolding(crate::specs::Inner::is_in))]
pub(crate) fn is_in(slot: u8, seen: u64) -> bool
    ensures { result ≡ is_in (bit_of slot) seen }
{
    (seen >> (slot % 64)) % 2 == 1
}

// A member may stand once.
#[tactic(auto, unfolding(crate::specs::Inner::once_fault))]
pub(crate) fn once_fault(named: bool, slot: u8, seen: u64) -> u64
    ensures { result ≡ once_fault named slot seen }
{
    if named && is_in(slot, seen) {
        forms::SHAPE
    } else {
        forms::NO_FAULT
    }
}

#[tactic(auto, unfolding(crate::specs::Inner::marks_after))]
pub(crate) fn marks_after(slot: u8, marks: u8) -> u8
    ensures { result ≡ marks_after slot marks }
{
    if slot < forms::LOWER {
        marks
    } else {
        marks.min(4) + 1
    }
}

#[tactic(auto, unfolding(crate::specs::Inner::fresh))]
pub(crate) fn start() -> Tally
    ensures { result ≡ fresh }
{
    Tally {
        fault: forms::NO_FAULT,
        seen: 0,
        marks: 0,
    }
}

// One item more, in whose value the least fault is x.
#[tactic(auto, unfolding(crate::specs::Inner::stepped))]
pub(crate) fn step(named: bool, a: Tally, it: Item, x: u64) -> Tally
    ensures { result ≡ stepped named a it x }
{
    Tally {
        fault: a
            .fault
            .min(it.fault)
            .min(x)
            .min(once_fault(named, it.slot, a.seen)),
        seen: a.seen | bit(it.slot),
        marks: marks_after(it.slot, a.marks),
    }
}

// Whether an event's seven members are there.
#[tactic(auto, unfolding(crate::specs::Inner::is_full))]
pub(crate) fn is_full(seen: u64) -> bool
    ensures { result ≡ is_full seen }
{
    seen % 128 == 127
}

// The fault of k items in all.
#[tactic(auto, unfolding(crate::specs::Inner::end_fault))]
pub(crate) fn end_fault(form: u8, k: usize, a: Tally) -> u64
    ensures { result ≡ end_fault form k a }
{
    match form {
        forms::EVENT if is_full(a.seen) => forms::NO_FAULT,
        forms::EVENT | forms::NEVER => forms::SHAPE,
        forms::FILTER => scalar::bounded(0, wire::MOST_CONDITIONS, usize::from(a.marks)),
        forms::TAGLIST => scalar::bounded(0, wire::MOST_TAGS, k),
        forms::TAG => scalar::bounded(1, wire::MOST_STRINGS, k),
        ..forms::OFFER => scalar::bounded(1, wire::MOST_MEMBERS, k),
        forms::REQUEST if k < 2 => forms::SHAPE,
        forms::REQUEST => scalar::bounded(3, 2 + wire::MOST_FILTERS, k),
        _ if k == 2 => forms::NO_FAULT,
        _ => forms::SHAPE,
    }
}

#[tactic(auto, unfolding(crate::specs::Inner::closed))]
pub(crate) fn close(form: u8, k: usize, a: Tally) -> u64
    ensures { result ≡ closed form k a }
{
    a.fault.min(end_fault(form, k, a))
}
