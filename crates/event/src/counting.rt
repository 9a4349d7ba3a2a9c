// How long the text of the event that parts spell is, or what it takes in a reply, up to the most that a number holds.
ghost use Rattle.std.specs.Prelude.{◌≡◌, false, length, Bool, ℕ, List};
ghost use Rattle.json_tree.specs.Tree.{Got, Json, Items, tree_at, items_at};
ghost use Rattle.wire.specs.Escape.{escape};
ghost use Rattle.spell.specs.Spell.{decode};
ghost use Rattle.text.specs.Event.{tags_text};
ghost use Rattle.event.specs.Lent.{lent_tags_at};
ghost use Rattle.event.specs.Inner.{tag_depth, string_depth, in_form, Counts, Does, Printer, string_text};
ghost use Rattle.event.specs.Inner.{one_tag_text};
ghost use Rattle.event.specs.declared.Reached.{Reached};
ghost use Rattle.event.specs.Lent.{length_of, text_of};

use crate::{Reached, writing};
use message::Body;

// How long a string is between its quotes, as in a reply or as in the text.
pub(crate) fn string_len(p: &[u8], json: bool) -> usize
    ensures { result ≡ length_of (in_form json (escape (decode p.now))) }
{
    let n = spell::escaped_len(p);
    if json {
        return n.saturating_add(spell::control_count(p).saturating_mul(5));
    }
    n
}

// The same of a string that is not escaped.
pub(crate) fn decoded_len(p: &[u8], json: bool) -> usize
    ensures { result ≡ length_of (in_form json (decode p.now)) }
{
    let n = spell::decoded_len(p);
    if json {
        return n.saturating_add(spell::control_count(p).saturating_mul(5));
    }
    n
}

// The count after one string of a tag.
pub(crate) fn count_string(n: usize, b: &[u8], v: usize, json: bool) -> Reached
    ensures { Does (Counts json) (tree_at b.now string_depth v) (string_text b.now) n result.at
        result.next }
{
    match json_tree::string(b, v) {
        Some(e) => {
            let k = string_len(wire::piece(b, v + 1, e - v - 2), json);
            Reached {
                at: n.saturating_add(k).saturating_add(2),
                next: json_tree::space(b, e),
            }
        }
        None => Reached {
            at: n.saturating_add(2),
            next: writing::past(b, v, writing::STRING_DEPTH),
        },
    }
}

// The count after an array's items, each counted by `one`, and the closing bracket; the first stands at `first`.
pub(crate) fn count_items<F: Fn(usize, usize) -> Reached>(
    n: usize,
    b: &[u8],
    first: usize,
    one: F,
) -> Reached
    requires { F.IsAlwaysCallable one }
    ensures { (json : Bool) (value : ℕ → Got Json) (p : Json → List ℕ) (all : Items → List ℕ) → Printer p all →
        ((o v : ℕ) (w : Reached) → F.post one o v w → Does (Counts json) (value v) p o w.at w.next) →
        Does (Counts json) (items_at value b.now false (length b.now) first) all n result.at result.next }
{
    let mut o = n;
    let mut i = first;
    for _ in 0..b.len() {
        let w = one(o, i);
        match json_tree::after(b, w.next, false) {
            json_tree::Next::More(j) => {
                o = w.at.saturating_add(1);
                i = j;
            }
            json_tree::Next::Done(next) => {
                return Reached {
                    at: w.at.saturating_add(1),
                    next,
                };
            }
            json_tree::Next::Wrong => return w,
        }
    }
    Reached { at: o, next: i }
}

// The count after one tag.
pub(crate) fn count_tag(n: usize, b: &[u8], v: usize, json: bool) -> Reached
    ensures { Does (Counts json) (tree_at b.now tag_depth v) (one_tag_text b.now) n result.at
        result.next }
{
    match writing::begun(b, v) {
        Some(first) => count_items(n.saturating_add(1), b, first, |o, i| {
            count_string(o, b, i, json)
        }),
        None => Reached {
            at: n.saturating_add(2),
            next: writing::past(b, v, writing::TAG_DEPTH),
        },
    }
}

// How long the text of the tags is, up to the most that a number holds.
pub(crate) fn tags_len(b: &[u8], tags: usize, json: bool) -> usize
    ensures { result ≡ length_of (in_form json (tags_text (lent_tags_at b.now tags))) }
{
    match writing::first_tag(b, tags) {
        Some(first) => count_items(1, b, first, |o, i| count_tag(o, b, i, json)).at,
        None => 2,
    }
}

// How long the whole text is.
pub(crate) fn length_in(b: &[u8], p: Body, json: bool) -> usize
    ensures { result ≡ length_of (in_form json (text_of b.now p)) }
{
    let pubkey = p.pubkey;
    let content = p.content;
    let key = decoded_len(wire::piece(b, pubkey.start, pubkey.len), json);
    let text = string_len(wire::piece(b, content.start, content.len), json);
    key.saturating_add(12)
        .saturating_add(numeral::decimal_len(p.created_at))
        .saturating_add(numeral::natural_len(crate::kind_of(p.kind)))
        .saturating_add(tags_len(b, p.tags, json))
        .saturating_add(text)
}
