// A road book and a timetable, opened as one.
ghost use Rattle.books.specs.Pairs.{OpenedBoth};

use crate::{RoadBook, Timetable};
use joined::Joined;
use records::kind::Kind;
use records::refused::Refused;
use refusals::fault::Fault;
use refusals::joining::Misfit;

// What is wrong with two books: a fault of one of them, which its kind names, or that they can't be joined.
#[derive(Clone, Copy, PartialEq, Eq, Debug)]
pub enum PairFault {
    Half { half: Kind, fault: Fault },
    Joining(Misfit),
}

// Two books that were refused, and the words of both as they were handed over.
#[derive(Drop)]
pub struct RefusedPair {
    pub fault: PairFault,
    pub roads: Vec<u32>,
    pub ferries: Vec<u32>,
}

// The words of a road book and of a timetable as one network; else the first fault, and the words of both again.
pub fn open_both(
    roads: Vec<u32>,
    ferries: Vec<u32>,
) -> Result<Joined<RoadBook, Timetable>, RefusedPair>
    ensures { OpenedBoth roads ferries result }
{
    // By match, since `map_err` would take the other book's words on the path that goes on, too.
    let roads = match RoadBook::open(roads) {
        Ok(book) => book,
        Err(Refused { fault, words }) => {
            let half = Kind::Road;
            return Err(RefusedPair {
                fault: PairFault::Half { half, fault },
                roads: words,
                ferries,
            });
        }
    };
    let ferries = match Timetable::open(ferries) {
        Ok(book) => book,
        Err(Refused { fault, words }) => {
            let half = Kind::Timetable;
            return Err(RefusedPair {
                fault: PairFault::Half { half, fault },
                roads: roads.into_words(),
                ferries: words,
            });
        }
    };
    Joined::join(roads, ferries).map_err(|apart| RefusedPair {
        fault: PairFault::Joining(apart.misfit),
        roads: apart.first.into_words(),
        ferries: apart.second.into_words(),
    })
}
