// Layers over the worked example, over each other and at their edges, with arrivals and latest departures worked out by hand.
#![tactic(auto)]

#[cfg(test)]
mod answers;
#[cfg(test)]
mod joins;
#[cfg(test)]
mod piles;
#[cfg(test)]
mod sailings;
