// RFC 8259's grammar by recursive descent, with at most DEPTH brackets and braces open at once (01, row 3), and the
// calls by which a text is walked. A place may be any number: past the end stands 0, which no rule takes but a string's
// characters, and these test the end.
#![tactic(auto)]

ghost use Rattle.std.specs.Prelude.{◌≡◌, ◌<◌};
ghost use Rattle.json_tree.specs.Grammar.{is_between, ws_at, string_at, is_spelling, scalar_at, close_of, opened_at, start_at};
ghost use Rattle.json_tree.specs.Grammar.{head_at, next_at};
ghost use Rattle.json_tree.specs.Tree.{end_of, on_leaf, tree_at};

mod classes;
mod leaves;

// The most brackets and braces that may be open at once.
pub const DEPTH: usize = 8;

// The classes of bytes that the rules name; `Byte` is one byte. Public for the proofs of other crates: no call takes
// one.
#[derive(Clone, Copy)]
pub enum Class {
    Space,
    Digit,
    Plain,
    Hex,
    Short,
    Exponent,
    Sign,
    Byte(u8),
}

// %xlow-high
pub fn between(low: u8, high: u8, b: u8) -> bool
    ensures { result ≡ is_between low high b }
{
    low <= b && b <= high
}

// The place after white space.
pub fn space(s: &[u8], at: usize) -> usize
    ensures { result ≡ ws_at s.now at }
{
    classes::skip(s, at, Class::Space)
}

// A string, with its quotes.
pub fn string(s: &[u8], at: usize) -> Option<usize>
    ensures { result ≡ string_at s.now at }
{
    let n = classes::this(s, at, b'"')?;
    classes::this(s, leaves::chars(s, n), b'"')
}

// Whether p may stand between quotes.
pub fn spelling(p: &[u8]) -> bool
    ensures { result ≡ is_spelling p.now }
{
    leaves::chars(p, 0) == p.len()
}

// A value that holds no value: its kind and the place after it.
#[derive(Clone, Copy)]
pub enum Kind {
    Str(usize),
    Num(usize),
    Word(usize),
}

// false / null / true / number / string
pub fn scalar(s: &[u8], at: usize) -> Option<Kind>
    ensures { result ≡ scalar_at s.now at }
{
    if let Some(n) = string(s, at) {
        return Some(Kind::Str(n));
    }
    if let Some(n) = leaves::number(s, at) {
        return Some(Kind::Num(n));
    }
    let n = leaves::literal(s, at)?;
    Some(Kind::Word(n))
}

// The place after such a value and the white space after it.
fn leaf(s: &[u8], at: usize) -> Option<usize>
    ensures { result ≡ end_of (on_leaf s.now at (scalar_at s.now at)) }
{
    match scalar(s, at)? {
        Kind::Str(n) | Kind::Num(n) | Kind::Word(n) => Some(space(s, n)),
    }
}

// What begins at a place: a value that holds none; brackets or braces (true) around nothing, and the place after them;
// or brackets or braces around items, and the place of the first.
#[derive(Clone, Copy)]
pub enum Start {
    Leaf,
    Empty(usize, bool),
    Many(usize, bool),
}

// The byte that closes an object (true) or an array.
fn closing(named: bool) -> u8
    ensures { (result ≡ close_of named) × (0 < result) }
{
    if named { b'}' } else { b']' }
}

// What stands after an opening brace (true) or bracket.
fn opened(s: &[u8], at: usize, named: bool) -> Start
    ensures { result ≡ opened_at s.now at named }
{
    match classes::token(s, at, closing(named)) {
        Some(n) => Start::Empty(n, named),
        None => Start::Many(at, named),
    }
}

// What begins at a place.
pub fn begin(s: &[u8], at: usize) -> Start
    ensures { result ≡ start_at s.now at }
{
    match classes::token(s, at, b'[') {
        Some(n) => opened(s, n, false),
        None => match classes::token(s, at, b'{') {
            Some(n) => opened(s, n, true),
            None => Start::Leaf,
        },
    }
}

// The place of an item's value: in an object (true) after its name and the colon.
pub fn head(s: &[u8], at: usize, named: bool) -> Option<usize>
    ensures { result ≡ head_at s.now at named }
{
    if !named {
        return Some(at);
    }
    let n = string(s, at)?;
    classes::token(s, space(s, n), b':')
}

// After an item: another one's place, or the place after what closes, or neither.
#[derive(Clone, Copy)]
pub enum Next {
    More(usize),
    Done(usize),
    Wrong,
}

// What follows the item of an object (true) or an array.
pub fn after(s: &[u8], at: usize, named: bool) -> Next
    ensures { result ≡ next_at s.now at named }
{
    match classes::token(s, at, b',') {
        Some(n) => Next::More(n),
        None => match classes::token(s, at, closing(named)) {
            Some(n) => Next::Done(n),
            None => Next::Wrong,
        },
    }
}

// The place after a value, with at most d brackets and braces open at once, and the white space after it.
pub fn value(s: &[u8], at: usize, d: usize) -> Option<usize>
    ensures { result ≡ end_of (tree_at s.now d at) }
{
    if d == 0 {
        return leaf(s, at);
    }
    match begin(s, at) {
        Start::Leaf => leaf(s, at),
        Start::Empty(n, _) => Some(n),
        Start::Many(first, named) => {
            let mut i = first;
            for _ in 0..s.len() {
                let v = head(s, i, named)?;
                let n = value(s, v, d - 1)?;
                match after(s, n, named) {
                    Next::More(j) => {
                        i = j;
                    }
                    Next::Done(e) => {
                        return Some(e);
                    }
                    Next::Wrong => {
                        return None;
                    }
                }
            }
            None
        }
    }
}
