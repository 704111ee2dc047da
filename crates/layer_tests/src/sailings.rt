// Timetables: sailings in any order, and the checks that they share with road books.
use crate::answers::{arrivals, departures};
use books::Timetable;
use quay::{changed, ferry_words, words};
use refusals::fault::{Cause, Fault, Record};
use std::alloc::{AllocError, Global};
use std::test::Fail;

// The ferry's words with one changed, by its index: places are from 5, links from 11 and points from 17 on.
fn ferry_with(heap: Global, at: usize, word: u32) -> Result<Vec<u32>, AllocError> {
    changed(heap, &ferry_words(), &[(at, word)])
}

#[test]
fn the_sailings_row(rt: HostRuntime) -> Result<(), Fail> {
    let ferry = Timetable::open(ferry_words().to_vec(rt.alloc())?)?;
    arrivals(
        &rt,
        &ferry,
        1,
        &[(0, Some(30)), (20, Some(30)), (21, Some(70)), (51, None)],
    );
    departures(
        &rt,
        &ferry,
        1,
        &[(29, None), (40, Some(20)), (100, Some(50)), (101, None)],
    );
    Ok(())
}

#[test]
fn sailings_may_depart_together_and_arrive_in_any_order(rt: HostRuntime) -> Result<(), Fail> {
    let ferry = Timetable::open(ferry_with(rt.alloc(), 23, 20)?)?;
    arrivals(&rt, &ferry, 1, &[(20, Some(30)), (21, None)]);
    Ok(())
}

#[test]
fn each_cause_but_9_names_its_record(rt: HostRuntime) -> Result<(), Fail> {
    let cases = [
        (0usize, 1u32, Cause::Kind, Record::Header),
        (1, 1025, Cause::Limits, Record::Header),
        (2, 2, Cause::Length, Record::Header),
        (7, 0, Cause::Chain, Record::Place(2)),
        (13, 1, Cause::Chain, Record::Link(1)),
        (11, 4, Cause::Ends, Record::Link(1)),
        (15, 0, Cause::Floor, Record::Link(1)),
        (16, 4, Cause::PointIndex, Record::Link(1)),
        (22, 2, Cause::PointIndex, Record::Point(2)),
        (18, 101, Cause::Time { link: 1 }, Record::Point(1)),
        (21, 29, Cause::Time { link: 1 }, Record::Point(2)),
    ];
    for (at, word, cause, record) in cases {
        match Timetable::open(ferry_with(rt.alloc(), at, word)?) {
            Ok(_) => return Err(Fail::new("accepted")),
            Err(refused) => assert_eq!(rt; refused.fault, Fault { cause, at: record }),
        }
    }
    Ok(())
}

#[test]
fn a_road_book_is_no_timetable(rt: HostRuntime) -> Result<(), Fail> {
    match Timetable::open(words().to_vec(rt.alloc())?) {
        Ok(_) => Err(Fail::new("accepted")),
        Err(refused) => {
            assert_eq!(rt; refused.fault.cause, Cause::Kind);
            Ok(())
        },
    }
}
