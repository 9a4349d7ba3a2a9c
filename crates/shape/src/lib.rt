// Rows 1 to 8 of 01 for a client message: the lowest that holds anywhere in it, and with rows 6 and 7 the place that
// breaks it first. Every part answers its least fault, a row and a place as one number, and NO_FAULT for none; parts are
// joined by the least. What must stand at a place is its form, a small number.
#![tactic(auto)]

ghost use Rattle.std.specs.Prelude.{◌≡◌};
ghost use Rattle.json_tree.specs.Grammar.{start_at};
ghost use Rattle.json_tree.specs.Tree.{tree_at};
ghost use Rattle.shape.specs.Inner.{judged_of, opening_of, fault_row, fault_offset};
ghost use Rattle.shape.specs.Offsets.{refusal_of, plain_refusal};
ghost use Rattle.shape.specs.Values.{value_row};

mod counts;
mod forms;
mod items;
mod scalar;

use json_tree::{Next, Start};

// What refuses a message: a row, 0 where none does, and with rows 6 and 7 the offset of the earliest number, or opening
// quote of a string, that breaks that row.
#[derive(Clone, Copy)]
pub struct Refusal {
    pub row: u8,
    pub offset: Option<usize>,
}

// A refusal that carries its number and no offset.
pub fn plain_refusal(row: u8) -> Refusal
    ensures { result ≡ plain_refusal row }
{
    Refusal { row, offset: None }
}

// Where a value ends, and the least fault in it.
#[derive(Clone, Copy)]
struct Judged {
    end: usize,
    fault: u64,
}

// A member's slot, the form that its value must have, and the fault of its name.
#[derive(Clone, Copy)]
struct Item {
    slot: u8,
    form: u8,
    fault: u64,
}

// What is kept from item to item: the least fault, the slots taken, a bit each, and the # conditions, to one more than
// may be.
#[derive(Clone, Copy)]
struct Tally {
    fault: u64,
    seen: u64,
    marks: u8,
}

// A value where the form must stand, with at most d brackets and braces open at once, and the white space after it.
fn judge(s: &[u8], at: usize, d: usize, form: u8) -> Option<Judged>
    ensures { result ≡ judged_of s.now form at (tree_at s.now d at) }
{
    if d == 0 {
        return scalar::leaf(s, at, form);
    }
    match json_tree::begin(s, at) {
        Start::Leaf => scalar::leaf(s, at, form),
        Start::Empty(end, named) => Some(Judged {
            end,
            fault: counts::close(forms::group_form(form, named), 0, counts::start()),
        }),
        Start::Many(first, named) => {
            let inner = forms::group_form(form, named);
            let mut a = counts::start();
            let mut i = first;
            // An item takes a byte at least, so these turns are enough.
            for k in 0..s.len() {
                let v = json_tree::head(s, i, named)?;
                let it = items::item_of(s, inner, named, k, i);
                let x = judge(s, v, d - 1, it.form)?;
                a = counts::step(named, a, it, x.fault);
                match json_tree::after(s, x.end, named) {
                    Next::More(j) => i = j,
                    Next::Done(end) => {
                        let fault = counts::close(inner, k + 1, a);
                        return Some(Judged { end, fault });
                    }
                    Next::Wrong => return None,
                }
            }
            None
        }
    }
}

// The form of a message, by its first word.
fn opening(s: &[u8], at: usize) -> u8
    ensures { result ≡ opening_of s.now (start_at s.now at) }
{
    match json_tree::begin(s, at) {
        Start::Many(first, false) => forms::word_form(rows::spelled(s, first)),
        _ => forms::NEVER,
    }
}

// The row of a fault, 0 where there is none.
#[tactic(auto, unfolding(crate::specs::Inner::fault_row))]
fn row_of(x: u64) -> u8
    ensures { result ≡ fault_row x }
{
    if x == forms::NO_FAULT {
        return 0;
    }
    (x / forms::PLACES % 256) as u8
}

// Its offset: the place of rows 6 and 7.
#[tactic(auto, unfolding(crate::specs::Inner::fault_offset))]
fn offset_of(x: u64) -> Option<usize>
    ensures { result ≡ fault_offset x }
{
    match x {
        forms::NUMBER..forms::COUNT => Some((x % forms::PLACES) as usize),
        _ => None,
    }
}

// The lowest of rows 1 to 8 that holds of a message, 0 where none does, and the offset that goes with it.
pub fn message_refusal(s: &[u8]) -> Refusal
    ensures { result ≡ refusal_of s.now }
{
    if wire::MOST_MESSAGE < s.len() {
        return plain_refusal(1);
    }
    if !utf8::is_utf8(s) {
        return plain_refusal(2);
    }
    if wire::has_control(s) {
        return plain_refusal(3);
    }
    let at = json_tree::space(s, 0);
    match judge(s, at, json_tree::DEPTH, opening(s, at)) {
        Some(x) if x.end == s.len() => Refusal {
            row: row_of(x.fault),
            offset: offset_of(x.fault),
        },
        _ => plain_refusal(3),
    }
}

// What may have to stand at a place, apart from a message: the tags of an event, a list of 64 hex characters each, a
// list of kinds, a filter.
#[derive(Clone, Copy)]
pub enum Sort {
    Tags,
    Hexes,
    Smalls,
    Filter,
}

// The lowest of rows 2 and 4 to 8 that holds of the value at a place, where a sort must stand; 0 where none does, 5
// where there is no value.
pub fn value_row(s: &[u8], at: usize, k: Sort) -> u8
    ensures { result ≡ value_row s.now at k }
{
    let Some(x) = judge(s, at, json_tree::DEPTH, forms::sort_form(k)) else {
        return 5;
    };
    if utf8::is_utf8(scalar::cut(s, at, x.end)) {
        row_of(x.fault)
    } else {
        2
    }
}
