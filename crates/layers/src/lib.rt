// Networks made from other networks. Each owns the network below it and is a network itself, so that any pile of them is one.
#![tactic(auto)]

pub mod free_flow;
pub mod over;
pub mod turned;
