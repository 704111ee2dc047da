// Answers questions over a road book. Standard input has the book and then the questions, four words each; each gets one line.
#![tactic(auto)]

use books::RoadBook;
use network::Network;
use queues::Queue;
use queues::scan::ScanQueue;
use records::bytes;
use refusals::refusal::Refusal;
use requests::question::{Kind, Request};
use requests::{book_size, request};
use search::estimate::NoEstimate;
use search::memory::Memory;
use search::question::{Answer, Question};
use search::{arrive_by, depart_at};
use std::alloc::{AllocError, Global};
use std::io;
use std::io::{BufWriter, Read, Write};

// What is lent to each question: room for every place, and a cell for each road, of which there are fewer than places.
#[derive(Drop)]
struct Workspace {
    queue: ScanQueue,
    table: Vec<u32>,
    list: Vec<u32>,
}

impl Workspace {
    fn new(heap: Global, places: usize) -> Result<Workspace, AllocError> {
        let queue = ScanQueue::new(vec![in heap; None; places]?);
        let table = vec![in heap; 0; places]?;
        let list = vec![in heap; 0; places]?;
        Ok(Workspace { queue, table, list })
    }

    // Which question it is comes with the input, so by match.
    fn ask(&mut self, book: &RoadBook, request: Request) -> Result<Answer, Refusal> {
        let question = Question {
            start: request.start,
            destination: request.destination,
            tick: request.tick,
        };
        let lent = Memory {
            queue: &mut self.queue,
            table: &mut self.table,
            list: &mut self.list,
        };
        match request.kind {
            Kind::DepartAt => depart_at(book, &NoEstimate, lent, question),
            Kind::ArriveBy => arrive_by(book, &NoEstimate, lent, question),
        }
    }
}

fn print_answer<W: Write>(out: &mut W, answer: Answer, list: &[u32]) -> io::Result<()> {
    match answer {
        Answer::NoWay { taken } => writeln!(out, "none {taken}"),
        Answer::Found { tick, roads, taken } => {
            write!(out, "found {tick} {roads} {taken}")?;
            for road in list.iter().take(roads as usize) {
                write!(out, " {road}")?;
            }
            writeln!(out)
        }
    }
}

fn reply<W: Write>(
    out: &mut W,
    book: &RoadBook,
    workspace: &mut Workspace,
    part: &[u8],
) -> io::Result<()> {
    let request = match request(part) {
        Ok(request) => request,
        Err(unread) => return writeln!(out, "refused {}", unread.number()),
    };
    match workspace.ask(book, request) {
        Ok(answer) => print_answer(out, answer, workspace.list.as_slice()),
        Err(refusal) => writeln!(out, "refused {}", refusal.number()),
    }
}

// Prints the reply to each question after the book.
fn answer_all<W: Write>(
    out: &mut W,
    heap: Global,
    book: &RoadBook,
    questions: &[u8],
) -> io::Result<()> {
    let mut workspace = Workspace::new(heap, book.places() as usize)?;
    for part in questions.chunks(16) {
        reply(out, book, &mut workspace, part)?;
    }
    Ok(())
}

fn run<W: Write>(out: &mut W, heap: Global, input: &[u8]) -> io::Result<()> {
    let mut words = bytes::words(heap, input)?;
    let size = match book_size(words.as_slice()) {
        Ok(size) => size,
        Err(fault) => return writeln!(out, "refused {}", fault.cause.number()),
    };
    words.truncate(size);
    match RoadBook::open(words) {
        Ok(book) => answer_all(out, heap, &book, input.get(4 * size..).unwrap_or(&[])),
        Err(refused) => writeln!(out, "refused {}", refused.fault.cause.number()),
    }
}

fn main(rt: HostRuntime) -> io::Result<()> {
    let heap = rt.alloc();
    let mut input = Vec::new(heap);
    rt.stdin().read_to_end(&mut input)?;
    let mut out = BufWriter::new(heap, rt.stdout())?;
    run(&mut out, heap, input.as_slice())?;
    out.flush()
}
