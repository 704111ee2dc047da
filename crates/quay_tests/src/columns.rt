// Columns offered over the Quay book, and what they estimate.
use books::RoadBook;
use marks::estimates::{Backward, Forward};
use marks::marks::Marks;
use quay::words;
use queues::Queue;
use queues::scan::ScanQueue;
use refusals::column::ColumnRefusal;
use search::memory::Memory;
use search::question::{Answer, Question};
use search::{arrive_by, depart_at};
use std::test::Fail;

#[test]
fn with_a_mark_fewer_places_are_taken(rt: HostRuntime) -> Result<(), Fail> {
    let book = RoadBook::open(words().to_vec(rt.alloc())?)?;
    let mut marks = Marks::new();
    marks.offer(&book, &[0, 5, 10])?;
    let mut queue = ScanQueue::new(vec![in rt.alloc(); None; 3]?);
    let question = Question {
        start: 1,
        destination: 3,
        tick: 20,
    };
    let estimate = Forward::new(&marks, 3);
    let memory = Memory {
        queue: &mut queue,
        table: &mut [0; 3],
        list: &mut [0; 3],
    };
    let reply = depart_at(&book, &estimate, memory, question);
    let found = Answer::Found {
        tick: 43,
        roads: 1,
        taken: 2,
    };
    assert_eq!(rt; reply, Ok(found));
    Ok(())
}

#[test]
fn backward_in_time_a_mark_estimates_the_way_to_the_start(rt: HostRuntime) -> Result<(), Fail> {
    let book = RoadBook::open(words().to_vec(rt.alloc())?)?;
    let mut marks = Marks::new();
    marks.offer(&book, &[0, 5, 10])?;
    let mut queue = ScanQueue::new(vec![in rt.alloc(); None; 3]?);
    let question = Question {
        start: 1,
        destination: 3,
        tick: 45,
    };
    let estimate = Backward::new(&marks, 1);
    let memory = Memory {
        queue: &mut queue,
        table: &mut [0; 3],
        list: &mut [0; 3],
    };
    let reply = arrive_by(&book, &estimate, memory, question);
    let found = Answer::Found {
        tick: 23,
        roads: 1,
        taken: 3,
    };
    assert_eq!(rt; reply, Ok(found));
    Ok(())
}

#[test]
fn a_column_is_refused(rt: HostRuntime) -> Result<(), Fail> {
    let book = RoadBook::open(words().to_vec(rt.alloc())?)?;
    let mut marks = Marks::new();
    let broken = Err(ColumnRefusal::BrokenRule { link: 2 });
    assert_eq!(rt; marks.offer(&book, &[0, 5, 11]), broken);
    assert_eq!(rt;
        marks.offer(&book, &[0, 5, 101]),
        Err(ColumnRefusal::AboveLast)
    );
    assert_eq!(rt;
        marks.offer(&book, &[0, 5]),
        Err(ColumnRefusal::ColumnLength)
    );
    for _ in 0..4 {
        marks.offer(&book, &[0, 0, 0])?;
    }
    let full = Err(ColumnRefusal::TooManyMarks);
    assert_eq!(rt; marks.offer(&book, &[0, 5, 10]), full);
    marks.clear();
    assert_eq!(rt; marks.count(), 0);
    Ok(())
}
