// The Quay book and damaged copies of it, run through the code.
use books::RoadBook;
use books::any::AnyBook;
use network::Network;
use quay::{changed, ferry_words, words};
use records::kind::Kind;
use refusals::fault::{Cause, Fault, Record};
use std::alloc::{AllocError, Global};
use std::test::Fail;

// The Quay book with some words changed, each given by its index: places are from 5, links from 11 and points from 35 on.
fn quay_with(heap: Global, changes: &[(usize, u32)]) -> Result<Vec<u32>, AllocError> {
    changed(heap, &words(), changes)
}

// The fault of these words.
fn fault_of(words: Vec<u32>) -> Option<Fault> {
    match RoadBook::open(words) {
        Ok(_) => None,
        Err(refused) => Some(refused.fault),
    }
}

#[test]
fn link_1_arrives(rt: HostRuntime) -> Result<(), Fail> {
    let book = RoadBook::open(words().to_vec(rt.alloc())?)?;
    assert_eq!(rt; book.arrival(1, 0), Some(10));
    assert_eq!(rt; book.arrival(1, 9), Some(14));
    assert_eq!(rt; book.arrival(1, 13), Some(22));
    assert_eq!(rt; book.arrival(1, 20), Some(40));
    assert_eq!(rt; book.arrival(1, 21), None);
    Ok(())
}

#[test]
fn link_1_leaves_at_the_latest(rt: HostRuntime) -> Result<(), Fail> {
    let book = RoadBook::open(words().to_vec(rt.alloc())?)?;
    assert_eq!(rt; book.latest_departure(1, 9), None);
    assert_eq!(rt; book.latest_departure(1, 10), Some(1));
    assert_eq!(rt; book.latest_departure(1, 14), Some(9));
    assert_eq!(rt; book.latest_departure(1, 15), Some(10));
    assert_eq!(rt; book.latest_departure(1, 39), Some(19));
    assert_eq!(rt; book.latest_departure(1, 40), Some(20));
    Ok(())
}

#[test]
fn what_is_not_there(rt: HostRuntime) -> Result<(), Fail> {
    let book = RoadBook::open(words().to_vec(rt.alloc())?)?;
    assert_eq!(rt; book.arrival(1, 101), None);
    assert_eq!(rt; book.arrival(0, 0), None);
    assert_eq!(rt; book.arrival(5, 0), None);
    assert_eq!(rt; book.latest_departure(1, 101), None);
    assert_eq!(rt; book.floor(5), 0);
    assert_eq!(rt; book.first_out(4), 0);
    assert_eq!(rt; book.next_in(u32::MAX), 0);
    Ok(())
}

#[test]
fn each_cause_names_its_record(rt: HostRuntime) -> Result<(), Fail> {
    let cases = [
        (0usize, 2u32, Cause::Kind, Record::Header),
        (1, 0, Cause::Limits, Record::Header),
        (2, 4097, Cause::Limits, Record::Header),
        (3, 10, Cause::Length, Record::Header),
        (4, 604801, Cause::Limits, Record::Header),
        (5, 2, Cause::Chain, Record::Place(1)),
        (10, 3, Cause::Chain, Record::Place(3)),
        (13, 4, Cause::Chain, Record::Link(1)),
        (20, 4, Cause::Chain, Record::Link(2)),
        (12, 4, Cause::Ends, Record::Link(1)),
        (15, 101, Cause::Floor, Record::Link(1)),
        (16, 10, Cause::PointIndex, Record::Link(1)),
        (37, 1, Cause::PointIndex, Record::Point(1)),
        (36, 101, Cause::Time { link: 1 }, Record::Point(1)),
        (38, 11, Cause::Time { link: 1 }, Record::Point(2)),
        (38, 0, Cause::Order { link: 1 }, Record::Point(2)),
        (36, 16, Cause::Order { link: 1 }, Record::Point(2)),
    ];
    for (at, word, cause, record) in cases {
        let fault = fault_of(quay_with(rt.alloc(), &[(at, word)])?);
        assert_eq!(rt; fault, Some(Fault { cause, at: record }));
    }
    Ok(())
}

#[test]
fn the_first_of_two_faults_is_named(rt: HostRuntime) -> Result<(), Fail> {
    let kind_before_limits = quay_with(rt.alloc(), &[(0, 2), (1, 0)])?;
    assert_eq!(rt;
        fault_of(kind_before_limits),
        Some(Fault {
            cause: Cause::Kind,
            at: Record::Header,
        })
    );
    let links_before_points = quay_with(rt.alloc(), &[(37, 1), (33, 0)])?;
    assert_eq!(rt;
        fault_of(links_before_points),
        Some(Fault {
            cause: Cause::Floor,
            at: Record::Link(4),
        })
    );
    let places_before_links = quay_with(rt.alloc(), &[(13, 4), (10, 3)])?;
    assert_eq!(rt;
        fault_of(places_before_links),
        Some(Fault {
            cause: Cause::Chain,
            at: Record::Place(3),
        })
    );
    let time_before_order = quay_with(rt.alloc(), &[(38, 0), (39, 4)])?;
    assert_eq!(rt;
        fault_of(time_before_order),
        Some(Fault {
            cause: Cause::Time { link: 1 },
            at: Record::Point(2),
        })
    );
    Ok(())
}

#[test]
fn under_five_words_and_one_word_too_many(rt: HostRuntime) -> Result<(), Fail> {
    let length = Some(Fault {
        cause: Cause::Length,
        at: Record::Header,
    });
    assert_eq!(rt; fault_of([1u32, 3, 4, 9].to_vec(rt.alloc())?), length);
    let mut longer = words().to_vec(rt.alloc())?;
    longer.push(0)?;
    assert_eq!(rt; fault_of(longer), length);
    Ok(())
}

// A book of this many places, no link and no point.
fn places_only(heap: Global, places: u32) -> Result<Vec<u32>, AllocError> {
    let mut words = [1, places, 0, 0, 1].to_vec(heap)?;
    for _ in 0..places {
        words.extend_from_slice(&[0, 0])?;
    }
    Ok(words)
}

#[test]
fn a_book_has_at_most_1024_places(rt: HostRuntime) -> Result<(), Fail> {
    assert_eq!(rt; fault_of(places_only(rt.alloc(), 1024)?), None);
    assert_eq!(rt;
        fault_of(places_only(rt.alloc(), 1025)?),
        Some(Fault {
            cause: Cause::Limits,
            at: Record::Header,
        })
    );
    Ok(())
}

// Link 4 takes the chain of link 3, and nobody the points 8 and 9.
#[test]
fn links_may_share_points_and_points_may_be_idle(rt: HostRuntime) -> Result<(), Fail> {
    let shared = quay_with(rt.alloc(), &[(34, 6), (56, u32::MAX), (57, 0), (59, 0)])?;
    let book = RoadBook::open(shared)?;
    assert_eq!(rt; book.arrival(4, 0), Some(30));
    assert_eq!(rt; book.arrival(4, 40), book.arrival(3, 40));
    Ok(())
}

#[test]
fn the_kind_of_a_book_may_come_with_the_input(rt: HostRuntime) -> Result<(), Fail> {
    let quay = AnyBook::open(Kind::Road, words().to_vec(rt.alloc())?)?;
    assert_eq!(rt; quay.kind(), Kind::Road);
    assert_eq!(rt; quay.arrival(1, 20), Some(40));
    let ferry = AnyBook::open(Kind::Timetable, ferry_words().to_vec(rt.alloc())?)?;
    assert_eq!(rt; ferry.kind(), Kind::Timetable);
    assert_eq!(rt; ferry.arrival(1, 20), Some(30));
    let cause = match AnyBook::open(Kind::Timetable, words().to_vec(rt.alloc())?) {
        Ok(_) => None,
        Err(refused) => Some(refused.fault.cause),
    };
    assert_eq!(rt; cause, Some(Cause::Kind));
    Ok(())
}

#[test]
fn a_fault_is_told_in_words(rt: HostRuntime) -> Result<(), Fail> {
    let fault = Fault {
        cause: Cause::Order { link: 7 },
        at: Record::Point(2),
    };
    let record = fault.at.to_string(rt.alloc())?;
    assert_eq!(rt; record.as_str(), "point 2");
    let cause = fault.cause.to_string(rt.alloc())?;
    assert_eq!(rt;
        cause.as_str(),
        "on the chain of link 7, it does not depart later than the point before and arrive no earlier"
    );
    Ok(())
}
