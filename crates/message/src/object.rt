// The members of an object, the first of each name.
ghost use Rattle.std.specs.Prelude.{◌≡◌, cond};
ghost use Rattle.shape.specs.Shape.{sig_name};
ghost use Rattle.message.specs.Parts.{members_at};
ghost use Rattle.message.specs.Inner.{kept_place, step_of, found_in};

use crate::Members;
use json_tree::{Next, Start};

// No member was found.
const NO_MEMBERS: Members = Members {
    first: None,
    second: None,
    third: None,
    fourth: None,
    fifth: None,
    sixth: None,
    seventh: None,
};

// A member whose value stands at v, after what was found before it: its name is spelled `name`, and `word` is looked
// for.
#[tactic(auto, unfolding(crate::specs::Inner::kept_place))]
pub(crate) fn keep(name: &[u8], word: &[u8], a: Option<usize>, v: usize) -> Option<usize>
    ensures { result ≡ kept_place name.now word.now a v }
{
    a.or_else(|| spell::spells(name, word).then_some(v))
}

// The first of two words, or the second.
pub(crate) fn either<'a>(first: bool, x: &'a [u8], y: &'a [u8]) -> &'a [u8]
    ensures { result.now ≡ cond first x.now y.now }
{
    if first { x } else { y }
}

// The seventh member of an event; a filter has six.
pub(crate) fn keep_last(name: &[u8], event: bool, a: Option<usize>, v: usize) -> Option<usize>
    ensures { result ≡ cond event (kept_place name.now sig_name a v) a }
{
    if event { keep(name, b"sig", a, v) } else { a }
}

// A member whose name begins at p and whose value stands at v, after what was found before it.
#[tactic(auto, unfolding(crate::specs::Inner::step_of))]
pub(crate) fn step(s: &[u8], event: bool, a: Members, p: usize, v: usize) -> Members
    ensures { result ≡ step_of s.now event a p v }
{
    let name = rows::spelled(s, p);
    Members {
        first: keep(name, either(event, b"id", b"ids"), a.first, v),
        second: keep(name, either(event, b"pubkey", b"authors"), a.second, v),
        third: keep(name, either(event, b"created_at", b"kinds"), a.third, v),
        fourth: keep(name, either(event, b"kind", b"since"), a.fourth, v),
        fifth: keep(name, either(event, b"tags", b"until"), a.fifth, v),
        sixth: keep(name, either(event, b"content", b"limit"), a.sixth, v),
        seventh: keep_last(name, event, a.seventh, v),
    }
}

// The members of the object at a place, of an event or of a filter.
pub(crate) fn find(s: &[u8], at: usize, event: bool) -> Members
    ensures { result ≡ found_in s.now event (members_at s.now at) }
{
    let Start::Many(first, true) = json_tree::begin(s, at) else {
        return NO_MEMBERS;
    };
    let mut a = NO_MEMBERS;
    let mut i = first;
    for _k in 0..s.len() {
        let Some(v) = json_tree::head(s, i, true) else {
            return NO_MEMBERS;
        };
        let Some(n) = json_tree::value(s, v, crate::WITHIN) else {
            return NO_MEMBERS;
        };
        a = step(s, event, a, i, v);
        match json_tree::after(s, n, true) {
            Next::More(j) => {
                i = j;
            }
            Next::Done(_) => {
                return a;
            }
            Next::Wrong => {
                return NO_MEMBERS;
            }
        }
    }
    NO_MEMBERS
}
