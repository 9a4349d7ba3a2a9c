// The text of the event that parts spell, written piece by piece.
ghost use Rattle.std.specs.Prelude.{◌≡◌, false, ◌<◌, length, Bool, ℕ, List};
ghost use Rattle.wire.specs.Put.{Puts};
ghost use Rattle.json_tree.specs.Grammar.{case, start_at};
ghost use Rattle.json_tree.specs.Tree.{Got, Json, Items, end_of, tree_at, items_at};
ghost use Rattle.spell.specs.Spell.{decode};
ghost use Rattle.text.specs.Event.{quoted, tags_text};
ghost use Rattle.event.specs.Lent.{lent_tags_at, text_of};
ghost use Rattle.event.specs.Inner.{tag_depth, string_depth, in_form, PutsOf, Does, Printer, first_out, first_tag, front_text};
ghost use Rattle.event.specs.Inner.{back_text, string_text, one_tag_text};
ghost use Rattle.event.specs.declared.Reached.{Reached};
ghost use Rattle.wire.specs.Bytes.{hex_digit};

use crate::Reached;
use message::Body;

// The most brackets and braces open at once in the tags' array, in a tag and in what a tag holds.
pub(crate) const TAGS_DEPTH: usize = json_tree::DEPTH;

pub(crate) const TAG_DEPTH: usize = TAGS_DEPTH - 1;

pub(crate) const STRING_DEPTH: usize = TAG_DEPTH - 1;

// The place after the value at v, or v where there is none.
pub(crate) fn past(b: &[u8], v: usize, d: usize) -> usize
    ensures { result ≡ case (end_of (tree_at b.now d v)) (λ n. n) v }
{
    json_tree::value(b, v, d).unwrap_or(v)
}

// A string as spelled, decoded and escaped between quotes, as in a reply or as in the text.
pub(crate) fn put_in(out: &mut [u8], at: usize, p: &[u8], json: bool) -> usize
    ensures { Puts out.old at (in_form json (quoted (decode p.now))) result out.new }
{
    if json {
        crate::put_json(out, at, p)
    } else {
        crate::put_quoted(out, at, p)
    }
}

// One string of a tag; "" for what is no string.
pub(crate) fn put_string(out: &mut [u8], at: usize, b: &[u8], v: usize, json: bool) -> Reached
    ensures { Does (PutsOf json) (tree_at b.now string_depth v) (string_text b.now) (
      out.old,
      at,
    ) (out.new, result.at) result.next }
{
    match json_tree::string(b, v) {
        Some(n) => Reached {
            at: put_in(out, at, wire::piece(b, v + 1, n - v - 2), json),
            next: json_tree::space(b, n),
        },
        None => Reached {
            at: wire::put(out, at, b"\"\""),
            next: past(b, v, STRING_DEPTH),
        },
    }
}

// An array's items, each written by `one`, commas between them, and the closing bracket; the first stands at `first`.
pub(crate) fn put_items<F: Fn(&mut [u8], usize, usize) -> Reached>(
    out: &mut [u8],
    at: usize,
    b: &[u8],
    first: usize,
    one: F,
) -> Reached
    requires { F.IsAlwaysCallable one }
    ensures { (json : Bool) (value : ℕ → Got Json) (p : Json → List ℕ) (all : Items → List ℕ) → Printer p all →
        ((x : _) (o v : ℕ) (w : Reached) (y : _) → F.post one x o v w y → Does (PutsOf json) (value v) p (x.now, o) (y.now, w.at) w.next) →
        Does (PutsOf json) (items_at value b.now false (length b.now) first) all (out.old, at) (out.new, result.at) result.next }
{
    let mut o = at;
    let mut i = first;
    for _ in 0..b.len() {
        let w = one(out, o, i);
        match json_tree::after(b, w.next, false) {
            json_tree::Next::More(j) => {
                o = wire::put(out, w.at, b",");
                i = j;
            }
            json_tree::Next::Done(next) => {
                let at = wire::put(out, w.at, b"]");
                return Reached { at, next };
            }
            json_tree::Next::Wrong => return w,
        }
    }
    Reached { at: o, next: i }
}

// One tag; [] for what is no array.
pub(crate) fn put_tag(out: &mut [u8], at: usize, b: &[u8], v: usize, json: bool) -> Reached
    ensures { Does (PutsOf json) (tree_at b.now tag_depth v) (one_tag_text b.now) (
      out.old,
      at,
    ) (out.new, result.at) result.next }
{
    match begun(b, v) {
        Some(first) => {
            let o = wire::put(out, at, b"[");
            put_items(
                out,
                o,
                b,
                first,
                |out, at, i| put_string(out, at, b, i, json),
            )
        }
        None => Reached {
            at: wire::put(out, at, b"[]"),
            next: past(b, v, TAG_DEPTH),
        },
    }
}

// The first item of an array that holds some, by what begins there.
pub(crate) fn begun(b: &[u8], tags: usize) -> Option<usize>
    ensures { result ≡ first_out (start_at b.now tags) }
{
    match json_tree::begin(b, tags) {
        json_tree::Start::Many(first, false) => Some(first),
        json_tree::Start::Many(_, true) | json_tree::Start::Empty(_, _) | json_tree::Start::Leaf =>
            None,
    }
}

// The same, or that no such array stands there to its end.
pub(crate) fn first_tag(b: &[u8], tags: usize) -> Option<usize>
    ensures { result ≡ first_tag b.now tags }
{
    json_tree::value(b, tags, TAGS_DEPTH)?;
    begun(b, tags)
}

// The tags of the array at `tags`, the first of which is known; [] where there is none.
pub(crate) fn put_tags_from(
    out: &mut [u8],
    at: usize,
    b: &[u8],
    tags: usize,
    known: Option<usize>,
    json: bool,
) -> usize
    requires { known ≡ first_tag b.now tags }
    ensures { Puts out.old at (in_form json (tags_text (lent_tags_at b.now tags))) result
        out.new }
{
    match known {
        Some(first) => {
            let o = wire::put(out, at, b"[");
            put_items(out, o, b, first, |out, at, i| put_tag(out, at, b, i, json)).at
        }
        None => wire::put(out, at, b"[]"),
    }
}

// [0,"PUBKEY",TIME,KIND, of the event that the parts spell.
pub(crate) fn put_front(out: &mut [u8], at: usize, b: &[u8], p: Body) -> usize
    ensures { Puts out.old at (front_text b.now p) result out.new }
{
    let pubkey = p.pubkey;
    let a = wire::put(out, at, b"[0,\"");
    let c = spell::put_decoded(out, a, wire::piece(b, pubkey.start, pubkey.len));
    let d = wire::put(out, c, b"\",");
    let e = numeral::put_decimal(out, d, p.created_at);
    let f = wire::put(out, e, b",");
    let g = numeral::put_natural(out, f, crate::kind_of(p.kind));
    wire::put(out, g, b",")
}

// TAGS,"CONTENT"]
pub(crate) fn put_back(out: &mut [u8], at: usize, b: &[u8], p: Body, known: Option<usize>) -> usize
    requires { known ≡ first_tag b.now p.tags }
    ensures { Puts out.old at (back_text b.now p) result out.new }
{
    let content = p.content;
    let a = put_tags_from(out, at, b, p.tags, known, false);
    let c = wire::put(out, a, b",");
    let d = crate::put_quoted(out, c, wire::piece(b, content.start, content.len));
    wire::put(out, d, b"]")
}

pub(crate) fn put_whole(out: &mut [u8], at: usize, b: &[u8], p: Body, known: Option<usize>) -> usize
    requires { known ≡ first_tag b.now p.tags }
    ensures { Puts out.old at (text_of b.now p) result out.new }
{
    let a = put_front(out, at, b, p);
    put_back(out, a, b, p, known)
}

// One hex digit, in lower case.
pub(crate) fn hex_digit(d: u8) -> u8
    requires { d < 16 }
    ensures { result ≡ hex_digit d }
{
    if d < 10 { b'0' + d } else { b'a' - 10 + d }
}
