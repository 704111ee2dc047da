// Checks a book on standard input or in a file, or a road book and a timetable in two files as one, and says in sentences what it
// found. The status is 0 exactly when all that it read is accepted.
#![tactic(auto)]

mod sentences;

use crate::sentences::{Departures, LinkOf, Stray, WordCount};
use anyhow::anyhow;
use books::pair::{PairFault, open_both};
use books::{RoadBook, Timetable};
use network::Network;
use records::bytes;
use records::kind::Kind;
use refusals::fault::{Cause, Fault};
use std::io::Read;
use std::{env, fs, io};

fn plural(count: u32) -> &'static str {
    if count == 1 { "" } else { "s" }
}

fn describe_counts<N: Network>(
    rt: &HostRuntime,
    kind: Kind,
    network: &N,
    points: u32,
) -> io::Result<()> {
    let places = network.places();
    let links = network.links();
    let last = network.last_tick();
    println!(rt;
        "A {kind} of {places} place{}, {links} link{} and {points} point{}. The last tick is {last}.",
        plural(places),
        plural(links),
        plural(points)
    )
}

// Links are numbers here and in the next, so a `for` over numbers goes over them; what is said of a link differs.
fn describe_roads(rt: &HostRuntime, book: &RoadBook) -> io::Result<()> {
    describe_counts(rt, Kind::Road, book, book.points())?;
    for link in 1..=book.links() {
        let departures = Departures(book.ends(link));
        println!(rt;
            "{}{departures}",
            LinkOf {
                network: book,
                link
            }
        )?;
    }
    Ok(())
}

fn describe_ferries(rt: &HostRuntime, book: &Timetable) -> io::Result<()> {
    describe_counts(rt, Kind::Timetable, book, book.points())?;
    for link in 1..=book.links() {
        print!(rt;
            "{}",
            LinkOf {
                network: book,
                link
            }
        )?;
        for (_, sailing) in book.chain(link) {
            print!(rt;
                " It sails at {}, arriving at {}.",
                sailing.departure, sailing.arrival
            )?;
        }
        println!(rt)?;
    }
    Ok(())
}

// Says what is wrong and, of a wrong number of words, how many there are and how many there should be.
fn explain(rt: &HostRuntime, kind: Kind, fault: Fault, words: &[u32]) -> io::Result<()> {
    let cause = fault.cause;
    let number = cause.number();
    let record = fault.at;
    if cause == Cause::Kind {
        return println!(rt;
            "The {kind} is refused for cause {number}: its kind is another than the one asked for."
        );
    }
    println!(rt; "The {kind} is refused for cause {number}, {record}: {cause}.")?;
    if cause != Cause::Length {
        return Ok(());
    }
    let count = words.len();
    let header = match kind {
        Kind::Road => RoadBook::header(words),
        Kind::Timetable => Timetable::header(words),
    };
    println!(rt; "{}", WordCount { count, header })
}

// One book, of the kind that its first word says; a word that says none is taken for a road book's. (Two arms, since the kind comes with
// the input, and each kind of book is a type of its own.)
fn check_one(rt: &HostRuntime, words: Vec<u32>) -> anyhow::Result<()> {
    let named = words.first().and_then(|word| Kind::try_from(*word).ok());
    let kind = named.unwrap_or(Kind::Road);
    let refused = match kind {
        Kind::Road => match RoadBook::open(words) {
            Ok(book) => return Ok(describe_roads(rt, &book)?),
            Err(refused) => refused,
        },
        Kind::Timetable => match Timetable::open(words) {
            Ok(book) => return Ok(describe_ferries(rt, &book)?),
            Err(refused) => refused,
        },
    };
    explain(rt, kind, refused.fault, refused.words.as_slice())?;
    Err(anyhow!("the book is refused"))
}

fn check_both(rt: &HostRuntime, roads: Vec<u32>, ferries: Vec<u32>) -> anyhow::Result<()> {
    let refused = match open_both(roads, ferries) {
        Ok(both) => {
            describe_roads(rt, &both.first)?;
            describe_ferries(rt, &both.second)?;
            let before = both.first.links();
            let links = both.links();
            println!(rt;
                "Joined, they have {links} links: those of the timetable are numbered on after link {before}."
            )?;
            return Ok(());
        }
        Err(refused) => refused,
    };
    match refused.fault {
        // Which words are at fault goes by the half.
        PairFault::Half { half, fault } => match half {
            Kind::Road => explain(rt, half, fault, refused.roads.as_slice())?,
            Kind::Timetable => explain(rt, half, fault, refused.ferries.as_slice())?,
        },
        PairFault::Joining(misfit) => {
            let number = misfit.number();
            println!(rt; "The joining is refused for cause {number}: {misfit}.")?;
        }
    }
    Err(anyhow!("the books are refused"))
}

// The whole words of an input; up to three bytes that are left are named and counted.
fn whole_words(rt: &HostRuntime, input: &[u8]) -> io::Result<(Vec<u32>, usize)> {
    let stray = input.len() % 4;
    print!(rt; "{}", Stray(stray))?;
    Ok((bytes::words(rt.alloc(), input)?, stray))
}

fn run(rt: &HostRuntime) -> anyhow::Result<()> {
    let mut args = env::args(rt)?;
    let _program = args.next();
    let first = args.next();
    let second = args.next();
    let stray = match (first, second) {
        (None, _) => {
            let mut input = Vec::new(rt.alloc());
            rt.stdin().read_to_end(&mut input)?;
            let (words, stray) = whole_words(rt, input.as_slice())?;
            check_one(rt, words)?;
            stray
        }
        (Some(path), None) => {
            let (words, stray) = whole_words(rt, fs::read(rt, path.as_str())?.as_slice())?;
            check_one(rt, words)?;
            stray
        }
        (Some(roads), Some(ferries)) => {
            let (roads, stray) = whole_words(rt, fs::read(rt, roads.as_str())?.as_slice())?;
            let (ferries, more) = whole_words(rt, fs::read(rt, ferries.as_str())?.as_slice())?;
            check_both(rt, roads, ferries)?;
            stray.max(more)
        }
    };
    if stray > 0 {
        return Err(anyhow!("the input does not end with the book"));
    }
    Ok(())
}

fn main(rt: HostRuntime) -> anyhow::Result<()> {
    run(&rt)
}
