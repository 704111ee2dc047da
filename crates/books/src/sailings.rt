// Sailings: the least arrival among those still to depart, and the latest departure among those that arrive in time.
ghost use Rattle.std.specs.Prelude.{◌≡◌};
ghost use Rattle.records.specs.declared.kind.Kind.TheVariants.{Timetable};
ghost use Rattle.books.specs.Sailings.{SailingIsLeast};

use crate::kinds::BookKind;
use records::chain::Chain;
use records::kind::Kind;

// A ferry sails at fixed ticks.
#[derive(Clone, Copy)]
pub struct Sailings;

impl BookKind for Sailings {
    ghost kind = { Timetable };

    fn kind() -> Kind {
        Kind::Timetable
    }

    fn arrival(points: Chain<'_>, tick: u32) -> Option<u32> {
        points
            .filter(|(_, sailing)| tick <= sailing.departure)
            .map(|(_, sailing)| sailing.arrival)
            .reduce(|least, arrival| least.min(arrival))
    }

    fn latest_departure(points: Chain<'_>, tick: u32) -> Option<u32> {
        points
            .filter(|(_, sailing)| sailing.arrival <= tick)
            .map(|(_, sailing)| sailing.departure)
            .max()
    }
}

// No sailing that departs at the tick or later arrives before the arrival for it, and one arrives then.
pub fn sailing_is_least()
    ensures { SailingIsLeast }
{}
