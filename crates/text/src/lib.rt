// The text that is hashed, read back, and the class of a kind.
#![tactic(auto)]

ghost use Rattle.std.specs.Prelude.{◌≡◌, ◌≤◌, length};
ghost use Rattle.wire.specs.Limits.{most_text};
ghost use Rattle.text.specs.Read.{read_text};
ghost use Rattle.text.specs.Kinds.{class_of};
ghost use Rattle.text.specs.Answer.{text_answer_of, text_number, text_read_row};
ghost use Rattle.text.specs.Inner.Parts.{answer_of};

mod body;
mod octets;
mod parts;

// 01, "Kinds and keys".
#[derive(Clone, Copy)]
pub enum Class {
    Regular,
    Replaceable,
    Ephemeral,
    Addressable,
}

// The places of an event's parts in its text. The pubkey is always at 4, 64 bytes long.
#[derive(Clone, Copy)]
pub struct Text {
    pub time: i64,
    pub kind: u16,
    // the tags' opening bracket
    pub tags: usize,
    // what stands between the content's quotes
    pub content: usize,
    pub content_len: usize,
    // d's escaped bytes, whatever the kind; both 0 if it is empty
    pub d: usize,
    pub d_len: usize,
}

// 01, "A text read back alone": why a text is not read, rows 9 and 5.
#[derive(Clone, Copy)]
pub enum Unread {
    TooLarge,
    WrongShape,
}

// What a byte of a string does: the string goes on, after a backslash or not; it ends; or the byte may not stand there.
// The definition goes by these; `body_end` takes a backslash and its letter at once.
#[derive(Clone, Copy)]
enum Move {
    Go(bool),
    Stop,
    Refuse,
}

// Where a string's bytes stand in the text, both 0 if it has none.
#[derive(Clone, Copy)]
struct Found {
    at: usize,
    len: usize,
}

// What a kind makes of an event.
#[tactic(auto, unfolding(crate::specs::Kinds::class_of))]
pub fn class_of(kind: u16) -> Class
    ensures { result ≡ class_of kind }
{
    match kind {
        0 | 3 | 10000..=19999 => Class::Replaceable,
        20000..=29999 => Class::Ephemeral,
        30000..=39999 => Class::Addressable,
        _ => Class::Regular,
    }
}

// What a text of at most 4,096 bytes reads as, if it reads.
fn text_at(t: &[u8]) -> Option<Text>
    requires { length t.now ≤ most_text }
    ensures { answer_of result ≡ text_answer_of (read_text t.now) }
{
    if !parts::is_opened(t) || !octets::is_text(t) {
        return None;
    }
    let (time, a) = parts::time_at(t, 70)?;
    let (kind, tags) = parts::kind_at(t, a)?;
    let (content, d) = parts::rest_at(t, tags)?;
    Some(Text {
        time,
        kind,
        tags,
        content: content.at,
        content_len: content.len,
        d: d.at,
        d_len: d.len,
    })
}

// A text read back alone.
#[tactic(auto, using(crate::proofs::Texts::text_large))]
pub fn read_text(t: &[u8]) -> Result<Text, Unread>
    ensures value { result ≡ text_answer_of (read_text t.now) }
    ensures result_value { text_number result ≡ text_read_row (read_text t.now) }
{
    if wire::MOST_TEXT < t.len() {
        return Err(Unread::TooLarge);
    }
    text_at(t).ok_or(Unread::WrongShape)
}
