// The worked example and books made from it, run through the code.
#![tactic(auto)]

#[cfg(test)]
mod columns;
#[cfg(test)]
mod opening;
#[cfg(test)]
mod questions;
