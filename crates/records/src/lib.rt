// The records of a book of either kind, roads or sailings: how they lie in its words, the rules that they obey for its kind, and the
// first fault where one breaks a rule.
#![tactic(auto)]

pub mod bytes;
pub mod chain;
pub mod checks;
mod header;
pub mod kind;
pub mod layout;
mod reads;
pub mod records;
pub mod refused;
