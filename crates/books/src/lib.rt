// Road books and timetables: words that obey every rule of their kind, opened, and then a network.
#![tactic(auto)]

pub mod any;
pub mod book;
mod kinds;
mod net;
mod open;
pub mod pair;
pub mod roads;
pub mod sailings;

use book::Book;
use roads::Roads;
use sailings::Sailings;

pub type RoadBook = Book<Roads>;

pub type Timetable = Book<Sailings>;
