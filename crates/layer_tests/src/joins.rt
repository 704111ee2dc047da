// Two networks joined, and two books opened as one.
use crate::answers::{arrivals, departures, links};
use books::pair::{PairFault, open_both};
use books::{RoadBook, Timetable};
use joined::Joined;
use network::Network;
use quay::{changed, ferry_words, words};
use records::kind::Kind;
use refusals::fault::{Cause, Fault, Record};
use refusals::joining::Misfit;
use std::alloc::{AllocError, Global};
use std::test::Fail;

#[test]
fn the_ferry_is_numbered_on_after_the_roads(rt: HostRuntime) -> Result<(), Fail> {
    let roads = words().to_vec(rt.alloc())?;
    let ferries = ferry_words().to_vec(rt.alloc())?;
    let Ok(both) = open_both(roads, ferries) else {
        return Err(Fail::new("refused"));
    };
    assert_eq!(rt; both.links(), 5);
    arrivals(&rt, &both, 5, &[(21, Some(70))]);
    arrivals(&rt, &both, 6, &[(21, None)]);
    departures(&rt, &both, 5, &[(40, Some(20))]);
    links(
        &rt,
        &both,
        &[(2, [2, 3, 5, 3]), (4, [1, 3, 0, 5]), (5, [2, 3, 0, 0])],
    );
    Ok(())
}

// The fault that is named of the Quay roads and the ferry with some words changed.
fn fault_of(
    heap: Global,
    roads: &[(usize, u32)],
    ferries: &[(usize, u32)],
) -> Result<Option<PairFault>, AllocError> {
    let roads = changed(heap, &words(), roads)?;
    let ferries = changed(heap, &ferry_words(), ferries)?;
    match open_both(roads, ferries) {
        Ok(_) => Ok(None),
        Err(refused) => Ok(Some(refused.fault)),
    }
}

#[test]
fn a_fault_names_its_half_or_the_joining(rt: HostRuntime) -> Result<(), Fail> {
    let heap = rt.alloc();
    assert_eq!(rt; fault_of(heap, &[], &[])?, None);
    let other_kind = Fault {
        cause: Cause::Kind,
        at: Record::Header,
    };
    assert_eq!(rt;
        fault_of(heap, &[(0, 2)], &[(0, 1)])?,
        Some(PairFault::Half {
            half: Kind::Road,
            fault: other_kind,
        })
    );
    let early = Fault {
        cause: Cause::Time { link: 1 },
        at: Record::Point(2),
    };
    assert_eq!(rt;
        fault_of(heap, &[], &[(4, 99), (21, 29)])?,
        Some(PairFault::Half {
            half: Kind::Timetable,
            fault: early,
        })
    );
    assert_eq!(rt;
        fault_of(heap, &[], &[(4, 99)])?,
        Some(PairFault::Joining(Misfit::Unequal))
    );
    Ok(())
}

#[test]
fn a_pair_that_does_not_fit_means_the_first_alone(rt: HostRuntime) -> Result<(), Fail> {
    let first = RoadBook::open(words().to_vec(rt.alloc())?)?;
    let second = Timetable::open(changed(rt.alloc(), &ferry_words(), &[(4, 99)])?)?;
    let pair = Joined { first, second };
    assert_eq!(rt; pair.misfit(), Some(Misfit::Unequal));
    assert_eq!(rt; pair.links(), 4);
    arrivals(&rt, &pair, 1, &[(0, Some(10)), (100, None)]);
    arrivals(&rt, &pair, 5, &[(0, None)]);
    departures(&rt, &pair, 5, &[(70, None)]);
    links(&rt, &pair, &[(2, [2, 3, 0, 3]), (5, [0, 0, 0, 0])]);
    Ok(())
}

// A road book of one place and this many links from it to itself, which all share one point.
fn loops(heap: Global, links: u32) -> Result<Vec<u32>, AllocError> {
    let first = links.min(1);
    let mut words = [1, 1, links, 1, 100, first, first].to_vec(heap)?;
    for k in 1..=links {
        let next = if k < links { k + 1 } else { 0 };
        words.extend_from_slice(&[1, 1, next, next, 1, 1])?;
    }
    words.extend_from_slice(&[0, 1, 0])?;
    Ok(words)
}

#[test]
fn at_most_8192_links_together(rt: HostRuntime) -> Result<(), Fail> {
    let heap = rt.alloc();
    let first = RoadBook::open(loops(heap, 4096)?)?;
    let second = RoadBook::open(loops(heap, 4096)?)?;
    let Ok(both) = Joined::join(first, second) else {
        return Err(Fail::new("refused"));
    };
    assert_eq!(rt; both.links(), 8192);
    assert_eq!(rt; both.arrival(8192, 0), Some(1));
    let third = RoadBook::open(loops(heap, 1)?)?;
    match Joined::join(both, third) {
        Ok(_) => Err(Fail::new("joined")),
        Err(unjoined) => {
            assert_eq!(rt; unjoined.misfit, Misfit::TooManyLinks);
            assert_eq!(rt; unjoined.first.links(), 8192);
            assert_eq!(rt; unjoined.second.links(), 1);
            Ok(())
        }
    }
}
