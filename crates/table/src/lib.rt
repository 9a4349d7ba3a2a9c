// The table of held events (01, "The table"). What its calls answer; the definitions stand in specs/, and that demand 3
// holds of them, at the table's bytes, in proofs/.
#![tactic(auto)]

// What an offer that is not refused is answered: 01, "Verdicts of an offer". Of a refusal an answer has the lowest of
// rows 1 to 12, of a message with the offset of rows 6 and 7.
#[derive(Clone, Copy)]
pub enum Offered {
    Ephemeral,
    Duplicate,
    Older,
    Stored,
}
