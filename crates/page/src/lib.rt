// The slotted page: its header, its records, when it is sound, and a search by key.
#![tactic(auto)]

pub mod check;
pub mod header;
pub mod laid;
