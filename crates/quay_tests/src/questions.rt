// Questions over the Quay book.
use books::RoadBook;
use quay::words;
use queues::scan::ScanQueue;
use refusals::refusal::Refusal;
use search::estimate::NoEstimate;
use search::memory::Memory;
use search::question::{Answer, Question};
use search::{arrive_by, depart_at, parts};
use std::alloc::{AllocError, Global};
use std::test::Fail;

// A depart-at question from place 1 to place 3, with lent memory of these lengths that is not blank: the reply, and the front of the list.
fn depart(
    heap: Global,
    book: &RoadBook,
    tick: u32,
    lengths: [usize; 3],
) -> Result<(Result<Answer, Refusal>, Vec<u32>), AllocError> {
    let [table, queue, list] = lengths;
    let mut table = vec![in heap; 7; table]?;
    let mut queue = ScanQueue::new(vec![in heap; Some(7); queue]?);
    let mut list = vec![in heap; 7; list]?;
    let question = Question {
        start: 1,
        destination: 3,
        tick,
    };
    let memory = Memory {
        queue: &mut queue,
        table: &mut table,
        list: &mut list,
    };
    let reply = depart_at(book, &NoEstimate, memory, question);
    Ok((reply, list))
}

#[test]
fn the_roads_go_to_the_front_of_the_list(rt: HostRuntime) -> Result<(), Fail> {
    let book = RoadBook::open(words().to_vec(rt.alloc())?)?;
    let (reply, list) = depart(rt.alloc(), &book, 0, [3, 3, 4])?;
    assert_eq!(rt;
        reply,
        Ok(Answer::Found {
            tick: 26,
            roads: 2,
            taken: 3,
        })
    );
    assert_eq!(rt; list.as_slice(), [1, 2, 7, 7].as_slice());
    Ok(())
}

#[test]
fn the_lowest_of_two_links_that_arrive_alike(rt: HostRuntime) -> Result<(), Fail> {
    let book = RoadBook::open(words().to_vec(rt.alloc())?)?;
    let (reply, list) = depart(rt.alloc(), &book, 40, [3, 3, 1])?;
    assert_eq!(rt;
        reply,
        Ok(Answer::Found {
            tick: 60,
            roads: 1,
            taken: 2,
        })
    );
    assert_eq!(rt; list.as_slice(), [3].as_slice());
    Ok(())
}

#[test]
fn lent_memory_that_is_too_short(rt: HostRuntime) -> Result<(), Fail> {
    let book = RoadBook::open(words().to_vec(rt.alloc())?)?;
    let (table, _) = depart(rt.alloc(), &book, 0, [2, 2, 1])?;
    assert_eq!(rt; table, Err(Refusal::ShortTable));
    let (queue, _) = depart(rt.alloc(), &book, 0, [3, 2, 1])?;
    assert_eq!(rt; queue, Err(Refusal::ShortQueue));
    let (reply, list) = depart(rt.alloc(), &book, 0, [3, 3, 1])?;
    assert_eq!(rt; reply, Err(Refusal::ShortList { needed: 2 }));
    assert_eq!(rt; list.as_slice(), [7].as_slice());
    Ok(())
}

#[test]
fn the_latest_departure_to_be_there_by_45(rt: HostRuntime) -> Result<(), Fail> {
    let book = RoadBook::open(words().to_vec(rt.alloc())?)?;
    let mut table = [7; 5];
    let mut queue = ScanQueue::new(vec![in rt.alloc(); Some(7); 3]?);
    let mut list = [7; 2];
    let question = Question {
        start: 1,
        destination: 3,
        tick: 45,
    };
    let memory = Memory {
        queue: &mut queue,
        table: &mut table,
        list: &mut list,
    };
    let reply = arrive_by(&book, &NoEstimate, memory, question);
    assert_eq!(rt;
        reply,
        Ok(Answer::Found {
            tick: 23,
            roads: 1,
            taken: 3,
        })
    );
    assert_eq!(rt; list, [4, 7]);
    assert_eq!(rt; table, [0, 0, 0, 7, 7]);
    Ok(())
}

// Link 1 from place 2 to 3, link 2 from 1 to 3 and link 3 from 1 to 2, each with one point: both ways to place 3 arrive at 10, and the
// search finds the one over link 1 last.
#[test]
fn the_lowest_link_wins_though_found_last(rt: HostRuntime) -> Result<(), Fail> {
    let words = [
        1, 3, 3, 3, 20, 2, 0, 1, 3, 0, 1, 2, 3, 0, 2, 5, 1, 1, 3, 3, 0, 10, 2, 1, 2, 0, 0, 5, 3, 5,
        10, 0, 0, 10, 0, 0, 5, 0,
    ];
    let book = RoadBook::open(words.to_vec(rt.alloc())?)?;
    let (reply, list) = depart(rt.alloc(), &book, 0, [3, 3, 3])?;
    assert_eq!(rt;
        reply,
        Ok(Answer::Found {
            tick: 10,
            roads: 2,
            taken: 3,
        })
    );
    assert_eq!(rt; list.as_slice(), [3, 1, 7].as_slice());
    Ok(())
}

// How soon one is at place 3 when one leaves place 1 at 0, and how late one may leave to be there by 45, asked one after the other.
fn soon_and_late(
    book: &RoadBook,
    queue: &mut ScanQueue,
    table: &mut [u32],
    list: &mut [u32],
) -> (Result<Answer, Refusal>, Result<Answer, Refusal>) {
    let mut question = Question {
        start: 1,
        destination: 3,
        tick: 0,
    };
    let soon = parts::depart_at(book, &NoEstimate, queue, table, list, question);
    question.tick = 45;
    let late = parts::arrive_by(book, &NoEstimate, queue, table, list, question);
    (soon, late)
}

#[test]
fn two_questions_are_asked_with_the_same_three_parts(rt: HostRuntime) -> Result<(), Fail> {
    let book = RoadBook::open(words().to_vec(rt.alloc())?)?;
    let mut queue = ScanQueue::new(vec![in rt.alloc(); None; 3]?);
    let (soon, late) = soon_and_late(&book, &mut queue, &mut [7; 3], &mut [7; 3]);
    assert_eq!(rt;
        soon,
        Ok(Answer::Found {
            tick: 26,
            roads: 2,
            taken: 3,
        })
    );
    assert_eq!(rt;
        late,
        Ok(Answer::Found {
            tick: 23,
            roads: 1,
            taken: 3,
        })
    );
    Ok(())
}
