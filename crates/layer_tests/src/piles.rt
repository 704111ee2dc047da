// Closures, delays, free flow and turning.
use crate::answers::{arrivals, departures, links};
use books::{RoadBook, Timetable};
use joined::Joined;
use layers::free_flow::FreeFlow;
use layers::over::Over;
use layers::turned::Turned;
use network::meets_deadline;
use notices::closures::Closures;
use notices::delays::Delays;
use notices::notice::{Closure, Delay};
use quay::{ferry_words, words};
use std::test::Fail;

// The Quay roads with these closures.
fn shut(rt: &HostRuntime, closures: &[Closure]) -> Result<Over<Closures, RoadBook>, Fail> {
    let below = RoadBook::open(words().to_vec(rt.alloc())?)?;
    let mut retiming = Closures::new();
    for closure in closures {
        retiming.up(*closure)?;
    }
    Ok(Over { retiming, below })
}

fn closure(link: u32, from: u32, until: u32) -> Closure {
    Closure { link, from, until }
}

#[test]
fn link_1_shut_from_0_to_5(rt: HostRuntime) -> Result<(), Fail> {
    let quay = shut(&rt, &[closure(1, 0, 5)])?;
    arrivals(&rt, &quay, 1, &[(0, Some(12)), (5, Some(12))]);
    departures(&rt, &quay, 1, &[(10, None), (12, Some(5))]);
    arrivals(&rt, &quay, 2, &[(0, Some(20))]);
    Ok(())
}

#[test]
fn the_tick_until_is_open_again(rt: HostRuntime) -> Result<(), Fail> {
    let quay = shut(
        &rt,
        &[closure(1, 4, 9), closure(1, 9, 10), closure(1, 6, 8)],
    )?;
    arrivals(
        &rt,
        &quay,
        1,
        &[(3, Some(11)), (4, Some(15)), (9, Some(15))],
    );
    departures(&rt, &quay, 1, &[(14, Some(3)), (15, Some(10))]);
    Ok(())
}

#[test]
fn a_closure_of_every_tick(rt: HostRuntime) -> Result<(), Fail> {
    let quay = shut(&rt, &[closure(1, 0, 101)])?;
    arrivals(&rt, &quay, 1, &[(0, None), (100, None)]);
    departures(&rt, &quay, 1, &[(100, None)]);
    Ok(())
}

#[test]
fn the_turned_rows(rt: HostRuntime) -> Result<(), Fail> {
    let quay = Turned::new(RoadBook::open(words().to_vec(rt.alloc())?)?);
    arrivals(
        &rt,
        &quay,
        1,
        &[(60, Some(80)), (86, Some(91)), (90, Some(99)), (91, None)],
    );
    Ok(())
}

#[test]
fn a_delay_of_7_and_free_flow_on_link_1(rt: HostRuntime) -> Result<(), Fail> {
    let below = RoadBook::open(words().to_vec(rt.alloc())?)?;
    let mut retiming = Delays::new();
    retiming.set(Delay { link: 1, ticks: 7 })?;
    let delayed = Over { retiming, below };
    arrivals(
        &rt,
        &delayed,
        1,
        &[(0, Some(17)), (20, Some(47)), (21, None)],
    );
    departures(
        &rt,
        &delayed,
        1,
        &[(16, None), (17, Some(1)), (47, Some(20))],
    );
    let retiming = FreeFlow;
    let free = Over {
        retiming,
        below: delayed,
    };
    arrivals(&rt, &free, 1, &[(0, Some(5)), (95, Some(100)), (96, None)]);
    departures(&rt, &free, 1, &[(4, None), (5, Some(0))]);
    Ok(())
}

// One link from place 1 to place 2 with the points (0, 3600) and (10, 3601), and a last tick of 90,000.
#[test]
fn a_delay_of_86400_that_just_fits_and_one_that_does_not(rt: HostRuntime) -> Result<(), Fail> {
    let words = [
        1, 2, 1, 2, 90_000, 1, 0, 0, 1, 1, 2, 0, 0, 1, 1, 0, 3600, 2, 10, 3601, 0,
    ];
    let below = RoadBook::open(words.to_vec(rt.alloc())?)?;
    let mut retiming = Delays::new();
    retiming.set(Delay {
        link: 1,
        ticks: 86_400,
    })?;
    let road = Over { retiming, below };
    arrivals(&rt, &road, 1, &[(0, Some(90_000)), (10, None)]);
    departures(
        &rt,
        &road,
        1,
        &[(90_000, Some(9)), (86_400, None), (86_399, None)],
    );
    Ok(())
}

// Closures over delays over the Quay roads joined with the ferry, which is link 5: delayed by 7 and shut from 15 to 45.
fn pile(
    rt: &HostRuntime,
) -> Result<Over<Closures, Over<Delays, Joined<RoadBook, Timetable>>>, Fail> {
    let first = RoadBook::open(words().to_vec(rt.alloc())?)?;
    let second = Timetable::open(ferry_words().to_vec(rt.alloc())?)?;
    let mut delays = Delays::new();
    delays.set(Delay { link: 5, ticks: 7 })?;
    let mut closures = Closures::new();
    closures.up(closure(5, 15, 45))?;
    let delayed = Over {
        retiming: delays,
        below: Joined { first, second },
    };
    Ok(Over {
        retiming: closures,
        below: delayed,
    })
}

#[test]
fn a_deep_pile(rt: HostRuntime) -> Result<(), Fail> {
    let pile = pile(&rt)?;
    arrivals(&rt, &pile, 1, &[(13, Some(22))]);
    arrivals(&rt, &pile, 5, &[(0, Some(37)), (15, Some(77)), (51, None)]);
    departures(&rt, &pile, 5, &[(36, None), (37, Some(14)), (77, Some(50))]);
    assert!(rt; meets_deadline(&pile, 5, 14, 37));
    assert!(rt; !meets_deadline(&pile, 5, 15, 37));
    Ok(())
}

#[test]
fn the_pile_turned(rt: HostRuntime) -> Result<(), Fail> {
    let turned = Turned::new(pile(&rt)?);
    arrivals(&rt, &turned, 5, &[(63, Some(86))]);
    departures(&rt, &turned, 5, &[(86, Some(63))]);
    links(&rt, &turned, &[(5, [3, 2, 0, 0])]);
    Ok(())
}

#[test]
fn free_flow_over_the_pile(rt: HostRuntime) -> Result<(), Fail> {
    let free = Over {
        retiming: FreeFlow,
        below: pile(&rt)?,
    };
    arrivals(&rt, &free, 5, &[(90, Some(100)), (91, None)]);
    departures(&rt, &free, 5, &[(9, None), (10, Some(0))]);
    Ok(())
}
