// Offers to a table (01, "The table"), as a message and as parts: the rows and the verdict, and the one slot and the
// count that a store writes. The definitions are table/specs/Offer; what the code goes by on the way stands in specs/.
#![tactic(auto)]

ghost use Rattle.std.specs.Prelude.{◌≡◌, true, ◌≤◌, leb, length, Err};
ghost use Rattle.wire.specs.Limits.{most_slots};
ghost use Rattle.text.specs.Kinds.{is_ephemeral};
ghost use Rattle.message.specs.Read.{read_of};
ghost use Rattle.law.specs.Lists.{any, find};
ghost use Rattle.table.specs.Layout.{slot_size, capacity_of};
ghost use Rattle.table.specs.Sound.{sound};
ghost use Rattle.table.specs.Offer.{as_message, as_parts, answer, offer_number, next};
ghost use Rattle.slots.specs.Slots.{same_id_in, same_key_in, slots_from};
ghost use Rattle.offers.specs.Row.{offer_row};
ghost use Rattle.offers.specs.Taken.{taken_as, taken, taken_number, taken_row, taken_table};
ghost use Rattle.offers.specs.Inner.{newer_in, d_last, New, answer_for, offered_to, Decides, HasRoom, slot_of};
ghost use Rattle.offers.specs.Inner.{stored_for, offered_next, count_from};

mod made;

// What taking a message gives: the place of an EVENT's id in it, and what its offer is answered; or what else was read.
#[derive(Clone, Copy)]
pub enum Taken {
    Event(message::Span, Result<table::Offered, shape::Refusal>),
    Req(message::ReqParts),
    Close(message::Span),
}

// What is decided of an offer: the slot that it fills, or what it is answered where nothing is stored.
#[derive(Clone, Copy)]
enum Decided {
    Fills(usize),
    Answered(Result<table::Offered, shape::Refusal>),
}

// ---- the verdict
fn is_ephemeral(kind: u64) -> bool
    ensures { result ≡ is_ephemeral kind }
{
    (20000..=29999).contains(&kind)
}

// Whether one of slots 0 to c-1 has the id of the slot `new`.
fn id_held(table: &[u8], c: usize, new: &[u8]) -> bool
    ensures { result ≡ any (same_id_in new.now) (slots_from table.now 0 c) }
{
    for k in 0..c {
        if slots::same_id(new, slots::slot(table, k)) {
            return true;
        }
    }
    false
}

// Whether c slots are all that the table has.
fn is_full(table: &[u8], c: usize) -> bool
    ensures { result ≡ leb (capacity_of table.now) c }
{
    wire::le_at(table, slots::CAPACITY_PLACE, 4) as usize <= c
}

// The last byte of a slot's d, and 0 where it has none: slots with one key have it alike.
fn d_last(s: &[u8]) -> u8
    ensures { result ≡ d_last s.now }
{
    let n = wire::le_at(s, slots::LENGTH_PLACE, 2) as usize;
    let at = wire::le_at(s, slots::D_OFFSET_PLACE, 2) as usize;
    let len = wire::le_at(s, slots::D_LENGTH_PLACE, 2) as usize;
    let d = wire::piece(wire::piece(s, slots::TEXT_PLACE, n), at, len);
    d.last().copied().unwrap_or(0)
}

// Whether slot t has the key of slot s, whose d ends with `last`: compared whole only where d ends alike.
fn has_key(s: &[u8], last: u8, t: &[u8]) -> bool
    requires { last ≡ d_last s.now }
    ensures { result ≡ same_key_in s.now t.now }
{
    d_last(t) == last && slots::same_key(s, t)
}

// The first of slots 0 to c-1 that has the key of the slot `new`, or c.
fn find_key(table: &[u8], c: usize, new: &[u8]) -> usize
    ensures { result ≡ find (same_key_in new.now) (slots_from table.now 0 c) }
{
    let last = d_last(new);
    for k in 0..c {
        if has_key(new, last, slots::slot(table, k)) {
            return k;
        }
    }
    c
}

// Whether the event of slot s is newer than that of slot t: "created_at compares as a signed number".
fn newer_than(s: &[u8], t: &[u8]) -> bool
    ensures { result ≡ newer_in s.now t.now }
{
    let a = wire::to_signed(wire::le_at(s, slots::TIME_PLACE, 8));
    let b = wire::to_signed(wire::le_at(t, slots::TIME_PLACE, 8));
    event::newer(
        a,
        wire::piece(s, slots::ID_PLACE, slots::ID_SIZE),
        b,
        wire::piece(t, slots::ID_PLACE, slots::ID_SIZE),
    )
}

// "Verdicts of an offer .. first that applies", and row 12 where a new slot is needed and all are in use. The key is
// looked for once: the slot found is the one that a store fills.
fn verdict(table: &[u8], new: &[u8]) -> Decided
    requires table_value { sound table.now ≡ true }
    requires new { New new.now }
    ensures { Decides table.now new.now (answer_for table.now new.now)
        result }
{
    if is_ephemeral(wire::le_at(new, slots::KIND_PLACE, 2)) {
        return Decided::Answered(Ok(table::Offered::Ephemeral));
    }
    let c = wire::le_at(table, slots::COUNT_PLACE, 4) as usize;
    let held = id_held(table, c, new);
    let full = is_full(table, c);
    if held {
        return Decided::Answered(Ok(table::Offered::Duplicate));
    }
    let k = find_key(table, c, new);
    if k < c {
        if newer_than(slots::slot(table, k), new) {
            return Decided::Answered(Ok(table::Offered::Older));
        }
        return Decided::Fills(k);
    }
    if full {
        return Decided::Answered(Err(shape::plain_refusal(12)));
    }
    Decided::Fills(k)
}

// Row 11, then the verdict, on an event that would fill the slot `new`.
fn judge(table: &[u8], new: &[u8]) -> Decided
    requires { New new.now }
    ensures { Decides table.now new.now (offered_to table.now new.now)
        result }
{
    if !slots::sound(table) {
        return Decided::Answered(Err(shape::plain_refusal(11)));
    }
    verdict(table, new)
}

// ---- the store
// The slot writer: the slot's part of the table is lent to it.
fn write_slot(slot: &mut [u8], new: &[u8])
    requires { (length slot.old ≡ slot_size) × (length new.now ≡ slot_size) }
    ensures { slot.new ≡ new.now }
{
    slot.copy_from_slice(new);
}

// The count once slot k is filled.
fn count_after(c: usize, k: usize) -> usize
    requires { c ≤ most_slots }
    ensures { result ≡ count_from c k }
{
    if k < c { c } else { c + 1 }
}

// "stored, over the slot with its key, else in slot C. A store writes only the bytes of the one slot it fills, and the
// count."
fn store(table: &mut [u8], new: &[u8], k: usize)
    requires new { New new.now }
    requires has_room { HasRoom table.old new.now }
    requires k_value { k ≡ slot_of table.old new.now }
    ensures { table.new ≡ stored_for table.old new.now }
{
    let c = wire::le_at(table, slots::COUNT_PLACE, 4) as usize;
    let a = slots::HEADER_SIZE + k * slots::SLOT_SIZE;
    let e = a + slots::SLOT_SIZE;
    write_slot(&mut table[a..e], new);
    wire::put_le(table, slots::COUNT_PLACE, 4, count_after(c, k) as u64);
}

fn offer_slot(table: &mut [u8], new: &[u8]) -> Result<table::Offered, shape::Refusal>
    requires { New new.now }
    ensures value { result ≡ offered_to table.old new.now }
    ensures table_after { table.new ≡ offered_next table.old new.now }
{
    match judge(table, new) {
        Decided::Fills(k) => {
            store(table, new, k);
            Ok(table::Offered::Stored)
        }
        Decided::Answered(a) => a,
    }
}

// ---- the calls
// An event offered as parts: rows 2 and 4 to 10, then 11, then the verdict.
pub fn offer_parts(
    table: &mut [u8],
    b: &[u8],
    p: message::EventParts,
) -> Result<table::Offered, shape::Refusal>
    ensures value { result ≡ answer table.old (as_parts b.now p) }
    ensures result_value { offer_number result ≡ offer_row table.old (as_parts b.now p) }
    ensures table_after { table.new ≡ next table.old (as_parts b.now p) }
{
    let mut new = [0u8; slots::SLOT_SIZE];
    let row = made::make_slot(&mut new, b, p);
    if row != 0 {
        return Err(shape::plain_refusal(row));
    }
    offer_slot(table, &new)
}

// A message offered: rows 1 to 10, then 11, then the verdict.
pub fn offer_message(table: &mut [u8], m: &[u8]) -> Result<table::Offered, shape::Refusal>
    ensures value { result ≡ answer table.old (as_message m.now) }
    ensures result_value { offer_number result ≡ offer_row table.old (as_message m.now) }
    ensures table_after { table.new ≡ next table.old (as_message m.now) }
{
    let mut new = [0u8; slots::SLOT_SIZE];
    let refusal = made::make_from(&mut new, m);
    if refusal.row != 0 {
        return Err(refusal);
    }
    offer_slot(table, &new)
}

// What the same offer would be answered; the table is only read.
pub fn judge_message(table: &[u8], m: &[u8]) -> Result<table::Offered, shape::Refusal>
    ensures value { result ≡ answer table.now (as_message m.now) }
    ensures result_value { offer_number result ≡ offer_row table.now (as_message m.now) }
{
    let mut new = [0u8; slots::SLOT_SIZE];
    let refusal = made::make_from(&mut new, m);
    if refusal.row != 0 {
        return Err(refusal);
    }
    match judge(table, &new) {
        Decided::Fills(_) => Ok(table::Offered::Stored),
        Decided::Answered(a) => a,
    }
}

// What a message gives that is refused as an offer: it is read again.
fn untaken(m: &[u8], refusal: shape::Refusal) -> Result<Taken, shape::Refusal>
    ensures { result ≡ taken_as (Err refusal) (read_of m.now) }
{
    Ok(match message::read(m)? {
        message::Message::Event(p) => {
            let id = p.id;
            Taken::Event(id, Err(refusal))
        }
        message::Message::Req(q) => Taken::Req(q),
        message::Message::Close(s) => Taken::Close(s),
    })
}

// A message taken: an EVENT is offered, and its id told; of anything else what was read is told, and the table stays. A
// valid EVENT is read once.
pub fn take(table: &mut [u8], m: &[u8]) -> Result<Taken, shape::Refusal>
    ensures value { result ≡ taken table.old m.now }
    ensures result_value { taken_number result ≡ taken_row table.old m.now }
    ensures table_after { table.new ≡ taken_table table.old m.now }
{
    let mut new = [0u8; slots::SLOT_SIZE];
    match made::make_event(&mut new, m) {
        Ok((p, _)) => {
            let id = p.id;
            let a = offer_slot(table, &new);
            Ok(Taken::Event(id, a))
        }
        Err(r) => untaken(m, r),
    }
}
