// How soon and how late: the search for earliest arrivals and both questions, over any network, with any queue and any estimate.
#![tactic(auto)]

mod ask;
pub mod estimate;
mod labels;
mod links;
pub mod memory;
pub mod parts;
pub mod question;
mod relax;
mod roads;
mod seek;
mod work;

pub use ask::{arrive_by, depart_at};
