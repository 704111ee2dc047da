// What is refused, by its number and in words. The number is given by a method of that name, as a length is by `len`: `u32::from` would
// be no plainer, and would not say what of a refusal becomes a number.
#![tactic(auto)]

pub mod column;
pub mod fault;
pub mod joining;
pub mod notice;
pub mod refusal;
