// A table's header: whether its numbers are sound, and the header and slots of a fresh table.
ghost use Rattle.std.specs.Prelude.{◌≡◌, ◌++◌, ◌*◌, ◌≤◌, replicate};
ghost use Rattle.wire.specs.Limits.{most_slots};
ghost use Rattle.wire.specs.Field.{le_bytes};
ghost use Rattle.wire.specs.Put.{Puts};
ghost use Rattle.table.specs.Layout.{header_size, slot_size};
ghost use Rattle.slots.specs.Slots.{header_sound};

use crate::{
    CAPACITY_PLACE, COUNT_PLACE, FIRST_SLOT_PLACE, HEADER_SIZE, SLOT_SIZE, SLOT_SIZE_PLACE,
};

// What a header says of the slots' size and of the first slot's offset.
const SLOT_SIZE_FIELD: u64 = SLOT_SIZE as u64;

const FIRST_SLOT_FIELD: u64 = HEADER_SIZE as u64;

// Whether the header's numbers are as they should be, and its slots fit the buffer.
pub(crate) fn header_sound(table: &[u8]) -> bool
    ensures { result ≡ header_sound table.now }
{
    if table.len() < HEADER_SIZE {
        return false;
    }
    let n = wire::le_at(table, CAPACITY_PLACE, 4) as usize;
    if !(1..=wire::MOST_SLOTS).contains(&n) || table.len() < HEADER_SIZE + n * SLOT_SIZE {
        return false;
    }
    wire::le_at(table, COUNT_PLACE, 4) as usize <= n
        && wire::le_at(table, SLOT_SIZE_PLACE, 4) == SLOT_SIZE_FIELD
        && wire::le_at(table, FIRST_SLOT_PLACE, 4) == FIRST_SLOT_FIELD
}

// The header of a table of n slots that holds none, and its slots.
pub(crate) fn put_fresh(table: &mut [u8], n: usize) -> usize
    requires { n ≤ most_slots }
    ensures { Puts table.old 0 (le_bytes 4 n ++ le_bytes 4 0 ++ le_bytes 4 slot_size ++ le_bytes 4
        header_size ++ replicate (n * slot_size) 0) result table.new }
{
    let a = wire::put_le(table, CAPACITY_PLACE, 4, n as u64);
    let b = wire::put_le(table, a, 4, 0);
    let c = wire::put_le(table, b, 4, SLOT_SIZE_FIELD);
    let d = wire::put_le(table, c, 4, FIRST_SLOT_FIELD);
    wire::put_zeros(table, d, n * SLOT_SIZE)
}
