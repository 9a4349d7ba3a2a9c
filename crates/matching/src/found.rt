// The members of a filter's lists found: their places in the text, in a row of numbers.
ghost use Rattle.std.specs.Prelude.{◌≡◌, true, false, ◌+◌, ◌≤◌, length, Some};
ghost use Rattle.wire.specs.Bytes.{part};
ghost use Rattle.rows.specs.Strings.{spelled_at};
ghost use Rattle.spell.specs.Spell.{decode};
ghost use Rattle.json_tree.specs.Tree.{depth, tree_at, on_object};
ghost use Rattle.json_tree.specs.Grammar.{start_at};
ghost use Rattle.shape.specs.Shape.{is_array_of, is_string, is_number, is_letter, is_filter};
ghost use Rattle.shape.specs.Rows.{wrong_list, filter_counts};
ghost use Rattle.message.specs.Lent.{value5, on_value, value_at, wrong_smalls, in_list, filter_row};
ghost use Rattle.query.specs.Filter.{strings_in, numbers_in, if_listed, filter_of};
ghost use Rattle.matching.specs.Inner.Found.{spelled_by, numbers_by, filter_by};
ghost use Rattle.matching.specs.Inner.Finds.{strings_room, kinds_room, row_room, small_from, small_at};
ghost use Rattle.matching.specs.Inner.Finds.{condition_letter, first_named, next_named, value_place, Finds};
ghost use Rattle.matching.specs.Inner.Finds.{FindsMembers, FindsConditions};

use crate::{
    AUTHORS_PLACE, CONDITIONS_PLACE, Conditions, KINDS_PLACE, KINDS_ROOM, Known, Needed,
    STRINGS_ROOM, matcher,
};
use json_tree::{Kind, Next, Start};
use message::Span;
use numeral::Whole;

const NO_CONDITIONS: Conditions = Conditions {
    list: [Needed {
        letter: 0,
        from: 0,
        len: 0,
    }; 4],
    n: 0,
};

// The string at a place, between its quotes; nothing where there is none.
fn span(m: &[u8], at: usize) -> Span
    ensures { part m.now result.start result.len ≡ spelled_at m.now at }
{
    match json_tree::string(m, at) {
        Some(n) => Span {
            start: at + 1,
            len: n - at - 2,
        },
        None => Span { start: 0, len: 0 },
    }
}

// The strings of the array at v, two numbers each, from a place of the row on; how many numbers.
fn strings_at(m: &[u8], v: usize, row: &mut [usize], at: usize) -> usize
    requires v_value { value5 (is_array_of is_string) m.now v ≡ false }
    requires v_value_2 { on_value wrong_list (value_at m.now v) ≡ false }
    requires strings_room_in_bounds { at + strings_room ≤ length row.old }
    ensures { Finds (spelled_by m.now) (strings_in m.now (tree_at m.now depth v))
        strings_room row.old at result row.new }
{
    let mut x = matcher::first(m, v);
    for k in 0..wire::MOST_MEMBERS {
        let n = k * 2;
        let Some(i) = x else {
            return n;
        };
        let s = span(m, i);
        row[at + n] = s.start;
        row[at + n + 1] = s.len;
        x = matcher::next(m, i);
    }
    STRINGS_ROOM
}

fn small_from(w: Whole) -> u64
    ensures { result ≡ small_from w }
{
    match w {
        Whole::Value(z) => event::kind_of(z),
        Whole::Large | Whole::Malformed => 0,
    }
}

// The number at a place, if it is not negative; otherwise 0.
fn small_at(m: &[u8], at: usize) -> u64
    ensures { result ≡ small_at m.now at }
{
    match json_tree::scalar(m, at) {
        Some(Kind::Num(n)) => {
            small_from(numeral::read_whole(wire::piece(m, at, n.saturating_sub(at))))
        }
        // An arm each: of joined arms nothing is known of what was met.
        Some(Kind::Str(_)) => 0,
        Some(Kind::Word(_)) => 0,
        None => 0,
    }
}

// The kinds of the array at v, from a place of the row on; how many.
fn numbers_at(m: &[u8], v: usize, row: &mut [usize], at: usize) -> usize
    requires v_value { value5 (is_array_of is_number) m.now v ≡ false }
    requires v_value_2 { on_value (wrong_smalls m.now) (value_at m.now v) ≡ false }
    requires v_value_3 { on_value wrong_list (value_at m.now v) ≡ false }
    requires kinds_room_in_bounds { at + kinds_room ≤ length row.old }
    ensures { Finds numbers_by (numbers_in m.now (tree_at m.now depth v)) kinds_room
        row.old at result row.new }
{
    let mut x = matcher::first(m, v);
    for n in 0..KINDS_ROOM {
        let Some(i) = x else {
            return n;
        };
        row[at + n] = small_at(m, i) as usize;
        x = matcher::next(m, i);
    }
    KINDS_ROOM
}

fn is_letter(x: u8) -> bool
    ensures { result ≡ is_letter x }
{
    x.is_ascii_alphabetic()
}

// The letter of a condition's name, which is spelled in any way; 0 of another name.
fn letter(name: &[u8]) -> u8
    ensures { result ≡ condition_letter (decode name.now) }
{
    if spell::decoded_len(name) != 2 {
        return 0;
    }
    let mut two = [0u8; 2];
    spell::put_decoded(&mut two, 0, name);
    if two[0] == b'#' && is_letter(two[1]) {
        two[1]
    } else {
        0
    }
}

// The place of the first name of the object at a place, if there is one.
fn first_named(m: &[u8], at: usize) -> Option<usize>
    ensures { result ≡ first_named (start_at m.now at) }
{
    match json_tree::begin(m, at) {
        Start::Many(i, true) => Some(i),
        _ => None,
    }
}

// The place of the name after the value at a place, if there is one.
fn next_named(m: &[u8], at: usize) -> Option<usize>
    ensures { result ≡ next_named m.now at }
{
    let n = json_tree::value(m, at, 7)?;
    match json_tree::after(m, n, true) {
        Next::More(j) => Some(j),
        Next::Done(_) | Next::Wrong => None,
    }
}

// The place of the value of the name at a place.
fn value_place(m: &[u8], at: usize) -> usize
    ensures { result ≡ value_place m.now at }
{
    json_tree::head(m, at, true).unwrap_or(0)
}

// The # conditions of the filter's object at v, their members behind the other lists of the row.
fn conditions_at(m: &[u8], v: usize, row: &mut [usize]) -> Conditions
    requires v_value { value5 (is_filter m.now) m.now v ≡ false }
    requires v_value_2 { on_value (on_object (filter_counts m.now)) (value_at m.now v) ≡ false }
    requires row_room_in_bounds { row_room ≤ length row.old }
    ensures { FindsConditions m.now (Some v) row.old result.list result.n row.new }
{
    let mut list = NO_CONDITIONS.list;
    let mut n: usize = 0;
    let mut x = first_named(m, v);
    for _k in 0..m.len() {
        let Some(p) = x else {
            return Conditions { list, n };
        };
        let w = value_place(m, p);
        x = next_named(m, w);
        let c = letter(rows::spelled(m, p));
        if c == 0 {
            continue;
        }
        let from = CONDITIONS_PLACE + n * STRINGS_ROOM;
        let len = strings_at(m, w, row, from);
        list[n] = Needed {
            letter: c,
            from,
            len,
        };
        n += 1;
    }
    Conditions { list, n }
}

// ids or authors, if they are given.
fn string_members(
    m: &[u8],
    l: Option<usize>,
    row: &mut [usize],
    at: usize,
) -> Option<(usize, usize)>
    requires l_value { in_list (value5 (is_array_of is_string) m.now) l ≡ false }
    requires l_value_2 { in_list (λ v. on_value wrong_list (value_at m.now v)) l ≡ false }
    requires strings_room_in_bounds { at + strings_room ≤ length row.old }
    ensures { FindsMembers (spelled_by m.now)
        (if_listed (λ v. strings_in m.now (tree_at m.now depth v)) l) strings_room row.old
        at result row.new }
{
    let v = l?;
    Some((at, strings_at(m, v, row, at)))
}

// kinds, if they are given.
fn number_members(
    m: &[u8],
    l: Option<usize>,
    row: &mut [usize],
    at: usize,
) -> Option<(usize, usize)>
    requires l_value { in_list (value5 (is_array_of is_number) m.now) l ≡ false }
    requires l_value_2 { in_list (λ v. on_value (wrong_smalls m.now) (value_at m.now v)) l ≡ false }
    requires l_value_3 { in_list (λ v. on_value wrong_list (value_at m.now v)) l ≡ false }
    requires kinds_room_in_bounds { at + kinds_room ≤ length row.old }
    ensures { FindsMembers numbers_by
        (if_listed (λ v. numbers_in m.now (tree_at m.now depth v)) l) kinds_room row.old at
        result row.new }
{
    let v = l?;
    Some((at, numbers_at(m, v, row, at)))
}

// The # conditions, if the filter has an object.
fn condition_members(m: &[u8], l: Option<usize>, row: &mut [usize]) -> Conditions
    requires l_value { in_list (value5 (is_filter m.now) m.now) l ≡ false }
    requires l_value_2 { in_list (λ v. on_value (on_object (filter_counts m.now)) (value_at m.now v)) l ≡ false }
    requires row_room_in_bounds { row_room ≤ length row.old }
    ensures { FindsConditions m.now l row.old result.list result.n row.new }
{
    match l {
        None => NO_CONDITIONS,
        Some(v) => conditions_at(m, v, row),
    }
}

// The filter of checked parts p over m, with its members found.
pub(crate) fn find(m: &[u8], p: message::FilterParts, row: &mut [usize]) -> Known
    requires p_value { filter_row m.now p ≡ 0 }
    requires row_room_in_bounds { row_room ≤ length row.old }
    ensures { filter_by m.now row.new result ≡ filter_of m.now p }
{
    let ids = string_members(m, p.ids, row, 0);
    let authors = string_members(m, p.authors, row, AUTHORS_PLACE);
    let kinds = number_members(m, p.kinds, row, KINDS_PLACE);
    let found = condition_members(m, p.conditions, row);
    let conditions = found.list;
    Known {
        ids,
        authors,
        kinds,
        since: p.since,
        until: p.until,
        limit: p.limit,
        conditions,
        n: found.n,
    }
}
