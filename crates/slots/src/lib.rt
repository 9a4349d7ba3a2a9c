// The bytes of a table (01, "The table"): whether it is sound, a buffer formatted, a slot shown, and two slots
// compared. The definitions stand in table/specs and, for the tests that the code makes, in specs/.
#![tactic(auto)]

ghost use Rattle.std.specs.Prelude.{◌≡◌};
ghost use Rattle.table.specs.Layout.{slot_at};
ghost use Rattle.table.specs.Sound.{sound};
ghost use Rattle.table.specs.Format.{format_row, formatted, shown_row, shown};
ghost use Rattle.slots.specs.Slots.{same_id_in, same_key_in};
ghost use Rattle.slots.specs.Shown.{shown_at, shown_number, bytes_in};

mod header;
mod held;
mod plain;
mod twice;

// 01: "Header, 16 bytes"; "slot size 4,208"; "text 4,096", which begins after the other fields.
pub const HEADER_SIZE: usize = 16;

pub const SLOT_SIZE: usize = TEXT_PLACE + wire::MOST_TEXT;

pub const ID_SIZE: usize = 32;

pub const SIG_SIZE: usize = 64;

// Where each number of the header begins, of 4 bytes each.
pub const CAPACITY_PLACE: usize = 0;

pub const COUNT_PLACE: usize = 4;

pub const SLOT_SIZE_PLACE: usize = 8;

pub const FIRST_SLOT_PLACE: usize = 12;

// Where each field of a slot begins, after those before it.
pub const ID_PLACE: usize = 0;

pub const SIG_PLACE: usize = ID_PLACE + ID_SIZE;

pub const TIME_PLACE: usize = SIG_PLACE + SIG_SIZE;

pub const KIND_PLACE: usize = TIME_PLACE + 8;

pub const LENGTH_PLACE: usize = KIND_PLACE + 2;

pub const D_OFFSET_PLACE: usize = LENGTH_PLACE + 2;

pub const D_LENGTH_PLACE: usize = D_OFFSET_PLACE + 2;

pub const TEXT_PLACE: usize = D_LENGTH_PLACE + 2;

// A slot's text begins [0,"PUBKEY": where the public key begins in it.
pub const PUBKEY_PLACE: usize = 4;

// The bytes of slot k, as far as they lie in the buffer.
pub fn slot(table: &[u8], k: usize) -> &[u8]
    ensures { result.now ≡ slot_at table.now k }
{
    if table.len() < HEADER_SIZE || (table.len() - HEADER_SIZE) / SLOT_SIZE < k {
        return &table[..0];
    }
    wire::piece(table, HEADER_SIZE + k * SLOT_SIZE, SLOT_SIZE)
}

// Whether slot t has the id of slot s.
pub fn same_id(s: &[u8], t: &[u8]) -> bool
    ensures { result ≡ same_id_in s.now t.now }
{
    wire::piece(t, ID_PLACE, ID_SIZE) == wire::piece(s, ID_PLACE, ID_SIZE)
}

// Whether slot t has the key of slot s: kind, pubkey, and d's bytes, of which a replaceable event has none.
pub fn same_key(s: &[u8], t: &[u8]) -> bool
    ensures { result ≡ same_key_in s.now t.now }
{
    let k = wire::le_at(t, KIND_PLACE, 2);
    k == wire::le_at(s, KIND_PLACE, 2)
        && twice::keyed(k as u16)
        && wire::piece(held::text_of(t), PUBKEY_PLACE, wire::HEX_LENGTH)
            == wire::piece(held::text_of(s), PUBKEY_PLACE, wire::HEX_LENGTH)
        && held::d_of(t) == held::d_of(s)
}

// 01: "Sound: the buffer has at least 16 bytes, N is 1 to 64 and its slots fit the buffer, .."; 02, Wish 6: to 1,024.
pub fn sound(table: &[u8]) -> bool
    ensures { result ≡ sound table.now }
{
    if !header::header_sound(table) {
        return false;
    }
    let n = wire::le_at(table, CAPACITY_PLACE, 4) as usize;
    let c = wire::le_at(table, COUNT_PLACE, 4) as usize;
    held::slots_sound(table, c)
        && twice::apart(table, c)
        && plain::is_zero(wire::piece(table, HEADER_SIZE + c * SLOT_SIZE, (n - c) * SLOT_SIZE))
}

// A fresh table of so many slots: row 14, then 13, or 0. "Formatting writes all N slots and the header".
pub fn format(table: &mut [u8], capacity: usize) -> u8
    ensures value { result ≡ format_row capacity table.old }
    ensures table_after { table.new ≡ formatted capacity table.old }
{
    if !(1..=wire::MOST_SLOTS).contains(&capacity) {
        return 14;
    }
    if table.len() < HEADER_SIZE + capacity * SLOT_SIZE {
        return 13;
    }
    header::put_fresh(table, capacity);
    0
}

// Where the text of a held slot stands in the table: row 11, then 14.
pub fn shown_at(table: &[u8], slot: usize) -> Result<(usize, usize), u8>
    ensures value { result ≡ shown_at table.now slot }
    ensures result_value { shown_number result ≡ shown_row table.now slot }
    ensures result_value_2 { bytes_in table.now result ≡ shown table.now slot }
{
    if !sound(table) {
        return Err(11);
    }
    if wire::le_at(table, COUNT_PLACE, 4) as usize <= slot {
        return Err(14);
    }
    let a = HEADER_SIZE + slot * SLOT_SIZE;
    let n = wire::le_at(wire::piece(table, a, SLOT_SIZE), LENGTH_PLACE, 2) as usize;
    Ok((a + TEXT_PLACE, n))
}

// "Showing a slot hands back the very bytes of its text, inside the table"; no bytes where it is refused.
pub fn show(table: &[u8], slot: usize) -> &[u8]
    ensures { result.now ≡ shown table.now slot }
{
    match shown_at(table, slot) {
        Ok((at, len)) => wire::piece(table, at, len),
        Err(_) => &table[..0],
    }
}
