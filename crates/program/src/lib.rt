// Which replies a message gets, one message answered, and what the program writes. The definitions stand in specs/.
#![tactic(auto)]

// What feeding a piece of the input gives: how many of its bytes were used up, how many the line has then, and how many
// were written.
#[derive(Clone, Copy)]
pub struct Fed {
    pub used: usize,
    pub kept: usize,
    pub written: usize,
}
