// Notices that change when the links of a network arrive: closures and delays, up to 32 of each, in fixed memory.
// They are two types, since they are found by different things and refuse different things.
#![tactic(auto)]

pub mod closures;
pub mod delays;
pub mod laws;
pub mod notice;
#[cfg(test)]
mod tests;
mod windows;
