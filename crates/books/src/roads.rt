// Roads: the arrival by the line between two points, and back from an arrival without losing a tick.
ghost use Rattle.std.specs.Prelude.{◌≡◌, ◌<◌, ◌≤◌};
ghost use Rattle.records.specs.declared.kind.Kind.TheVariants.{Road};
ghost use Rattle.records.specs.Rules.{Follows};
ghost use Rattle.books.specs.Roads.{up_to, back_from, DepartsBefore, ArrivesBy};

use crate::kinds::BookKind;
use records::chain::Chain;
use records::kind::Kind;
use records::layout::Point;

// A lorry drives off at any tick.
#[derive(Clone, Copy)]
pub struct Roads;

impl BookKind for Roads {
    ghost kind = { Road };

    fn kind() -> Kind {
        Kind::Road
    }

    fn arrival(points: Chain<'_>, tick: u32) -> Option<u32> {
        let mut before = None;
        for (_, point) in points {
            if tick <= point.departure {
                return Some(up_to(&before, &point, tick));
            }
            before = Some(point);
        }
        None
    }

    fn latest_departure(points: Chain<'_>, tick: u32) -> Option<u32> {
        let mut before = None;
        for (_, point) in points {
            if tick < point.arrival {
                return back_from(&before, &point, tick);
            }
            before = Some(point);
        }
        before.map(|last| last.departure)
    }
}

// The arrival for a tick up to a point's departure: by the line from the point before, if there is one.
fn up_to(before: &Option<Point>, point: &Point, tick: u32) -> u32
    requires order { Follows before.now point.now }
    requires past { DepartsBefore before.now tick }
    requires within { tick ≤ point.now.departure }
    ensures { result ≡ up_to before.now point.now tick }
{
    match before {
        None => point.arrival,
        Some(p) => {
            let run = (tick - p.departure) as u64;
            let rise = (point.arrival - p.arrival) as u64;
            let span = (point.departure - p.departure) as u64;
            p.arrival + (run * rise / span) as u32
        }
    }
}

// Where a point arrives after the tick: the latest departure on the line from the point before that arrives by it.
fn back_from(before: &Option<Point>, point: &Point, tick: u32) -> Option<u32>
    requires order { Follows before.now point.now }
    requires by { ArrivesBy before.now tick }
    requires late { tick < point.now.arrival }
    ensures { result ≡ back_from before.now point.now tick }
{
    let p = before.as_ref()?;
    let rise = (tick - p.arrival) as u64 + 1;
    let span = (point.departure - p.departure) as u64;
    let whole = (point.arrival - p.arrival) as u64;
    Some(p.departure + ((rise * span - 1) / whole) as u32)
}
