// The calls that Rust or C link (crate capi_c exports them): numbers and slices of numbers only, each slice a pointer and a
// length there. Parts go in and out as rows of 64-bit numbers (crate numbers).
#![tactic(auto)]

mod digests;
mod filters;
mod messages;
mod tables;
mod texts;

pub use digests::{
    plavdrosa_digest, plavdrosa_digest_finish, plavdrosa_digest_start, plavdrosa_digest_update,
};
pub use filters::{plavdrosa_list, plavdrosa_match};
pub use messages::{plavdrosa_message_row, plavdrosa_read, plavdrosa_text_row};
pub use tables::{
    plavdrosa_format, plavdrosa_judge, plavdrosa_offer, plavdrosa_offer_parts, plavdrosa_show,
    plavdrosa_sound,
};
pub use texts::{plavdrosa_id, plavdrosa_read_text, plavdrosa_serialise};
