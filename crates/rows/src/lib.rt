// Rows 1 to 4 of 01 over a whole text: length, UTF-8, JSON, and the strings that row 4 refuses.
#![tactic(auto)]

ghost use Rattle.std.specs.Prelude.{◌≡◌, ◌||◌, ◌+◌, ◌-◌, ◌≤◌, length};
ghost use Rattle.json_tree.specs.Grammar.{scalar_at, token_at};
ghost use Rattle.json_tree.specs.Tree.{on_leaf, tree_at, root};
ghost use Rattle.rows.specs.Strings.{part, spelled_at};
ghost use Rattle.rows.specs.Rows.{row4, text_row};
ghost use Rattle.rows.specs.Inner.{seen_of, seen_at, seen_after, name_seen, seen_told};

use json_tree::{Kind, Next, Start};

// Where a value ends, and whether row 4 refuses some string in it.
#[derive(Clone, Copy)]
pub struct Seen {
    pub end: usize,
    pub refused: bool,
}

// The string whose quotes stand at `at` and before `end`.
fn inner(s: &[u8], at: usize, end: usize) -> &[u8]
    requires { (at + 2 ≤ end) × (end ≤ length s.now) }
    ensures { result.now ≡ part s.now (at + 1) (end - at - 2) }
{
    &s[at + 1..end - 1]
}

// The string that begins at a place, between its quotes.
pub fn spelled(s: &[u8], at: usize) -> &[u8]
    ensures { result.now ≡ spelled_at s.now at }
{
    match json_tree::string(s, at) {
        Some(n) => inner(s, at, n),
        None => &[],
    }
}

// A value that holds no value. Whether row 4 refuses it is added to what was refused before, in place: an answer of two
// numbers behind an Option would be handed over in memory, at every value.
fn leaf(s: &[u8], at: usize, refused: &mut bool) -> Option<usize>
    ensures { seen_at result refused.new ≡ seen_after refused.old (seen_of s.now (on_leaf s.now at (scalar_at s.now at))) }
{
    let n = match json_tree::scalar(s, at)? {
        Kind::Str(n) => {
            *refused |= spell::refused(inner(s, at, n));
            n
        }
        Kind::Num(n) | Kind::Word(n) => n,
    };
    Some(json_tree::space(s, n))
}

// A colon, and the white space after it.
fn colon(s: &[u8], at: usize) -> Option<usize>
    ensures { result ≡ token_at s.now 0x3A at }
{
    if at < s.len() && s[at] == b':' {
        Some(json_tree::space(s, at + 1))
    } else {
        None
    }
}

// The place of an item's value, and row 4 of its name.
fn name(s: &[u8], at: usize, named: bool, refused: &mut bool) -> Option<usize>
    ensures { seen_at result refused.new ≡ seen_after refused.old (name_seen s.now at named) }
{
    if !named {
        return Some(at);
    }
    let end = json_tree::string(s, at)?;
    let v = colon(s, json_tree::space(s, end))?;
    *refused |= spell::refused(inner(s, at, end));
    Some(v)
}

// A value, with at most d brackets and braces open at once, and the white space after it.
fn walk(s: &[u8], at: usize, d: usize, refused: &mut bool) -> Option<usize>
    ensures { seen_at result refused.new ≡ seen_after refused.old (seen_of s.now (tree_at s.now d at)) }
{
    if d == 0 {
        return leaf(s, at, refused);
    }
    match json_tree::begin(s, at) {
        Start::Leaf => leaf(s, at, refused),
        Start::Empty(end, _) => Some(end),
        Start::Many(first, named) => {
            let mut i = first;
            // An item takes a byte at least, so these turns are enough.
            for _turn in 0..s.len() {
                let v = name(s, i, named, refused)?;
                let n = walk(s, v, d - 1, refused)?;
                match json_tree::after(s, n, named) {
                    Next::More(j) => i = j,
                    Next::Done(end) => return Some(end),
                    Next::Wrong => return None,
                }
            }
            None
        }
    }
}

// The value of a text.
fn whole(s: &[u8]) -> Option<Seen>
    ensures { result ≡ seen_of s.now (root s.now) }
{
    let mut refused = false;
    let end = walk(s, json_tree::space(s, 0), json_tree::DEPTH, &mut refused)?;
    Some(Seen { end, refused })
}

// Row 4: whether some string of a text, names included, decodes to what no string may have; false where the text has no
// value.
#[tactic(auto, unfolding(crate::specs::Rows::row4))]
pub fn refused(s: &[u8]) -> bool
    ensures { result ≡ row4 s.now }
{
    whole(s).is_some_and(|x| x.refused)
}

// Rows 3 and 4 of a text of `size` bytes, by what its value came to.
fn told(x: Option<Seen>, size: usize) -> u8
    ensures { result ≡ seen_told x size }
{
    match x {
        Some(x) if x.end == size => if x.refused { 4 } else { 0 },
        _ => 3,
    }
}

// The lowest of rows 1 to 4 that holds of a text, or 0.
pub fn text_row(s: &[u8]) -> u8
    ensures { result ≡ text_row s.now }
{
    if wire::MOST_MESSAGE < s.len() {
        return 1;
    }
    if !utf8::is_utf8(s) {
        return 2;
    }
    if wire::has_control(s) {
        return 3;
    }
    told(whole(s), s.len())
}
