// What is said of books and networks, as values that print themselves.
use network::Network;
use records::layout::{Header, Point};
use refusals::fault::Fault;
use std::fmt;

// A link's ends and its floor.
#[derive(Drop)]
pub(crate) struct LinkOf<'a, N: Network> {
    pub(crate) network: &'a N,
    pub(crate) link: u32,
}

impl<N: Network> fmt::Display for LinkOf<'_, N> {
    fn fmt<W: fmt::Write>(&self, f: &mut fmt::Formatter<W>) -> fmt::Result {
        let link = self.link;
        let tail = self.network.tail(link);
        let head = self.network.head(link);
        let floor = self.network.floor(link);
        write!(
            f,
            "Link {link} leads from place {tail} to place {head} and takes at least {floor} ticks."
        )
    }
}

// The first and the last departure of a link, if it has any.
#[derive(Clone, Copy)]
pub(crate) struct Departures(pub(crate) Option<(Point, Point)>);

impl fmt::Display for Departures {
    fn fmt<W: fmt::Write>(&self, f: &mut fmt::Formatter<W>) -> fmt::Result {
        match self.0 {
            None => Ok(()),
            Some((first, last)) => write!(
                f,
                " Its first departure is at {}, arriving at {}, and its last at {}, arriving at {}.",
                first.departure, first.arrival, last.departure, last.arrival
            ),
        }
    }
}

// How many bytes at the end of an input make no whole word: a line of its own, or nothing where there are none.
#[derive(Clone, Copy)]
pub(crate) struct Stray(pub(crate) usize);

impl fmt::Display for Stray {
    fn fmt<W: fmt::Write>(&self, f: &mut fmt::Formatter<W>) -> fmt::Result {
        match self.0 {
            0 => Ok(()),
            1 => writeln!(f, "The last byte makes no whole word."),
            bytes => writeln!(f, "The last {bytes} bytes make no whole word."),
        }
    }
}

// How many words there are of a book that has a wrong number of them, and how many its header gives.
#[derive(Clone, Copy)]
pub(crate) struct WordCount {
    pub(crate) count: usize,
    pub(crate) header: Result<Header, Fault>,
}

impl fmt::Display for WordCount {
    fn fmt<W: fmt::Write>(&self, f: &mut fmt::Formatter<W>) -> fmt::Result {
        let count = self.count;
        match self.header {
            Err(_) => write!(f, "There are {count} words, and the header alone has five."),
            Ok(header) => {
                let size = header.size();
                write!(f, "There are {count} words, and the header gives {size}.")
            }
        }
    }
}
