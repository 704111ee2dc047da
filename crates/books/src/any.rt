// A book of either kind, where only the input says which.
ghost use Rattle.std.specs.Prelude.{◌≡◌, true, ◌↔◌, is_ok, IfOk, Some, None, MatchResult};
ghost use Rattle.records.specs.Contents.{book_in, chain_of, points_of};
ghost use Rattle.records.specs.Faults.{header_fault, first_fault};
ghost use Rattle.records.specs.Layout.{header_in};
ghost use Rattle.records.specs.Reading.{to_come};
ghost use Rattle.records.specs.Rules.{Obeys};
ghost use Rattle.books.specs.Any.{any_open, any_fault_named, any_words_held, any_lawful};
ghost use Rattle.books.specs.Networks.{book_network};
ghost use Rattle.books.specs.Roads.{ends_of};

use crate::{RoadBook, Timetable};
use network::Network;
use records::chain::Chain;
use records::kind::Kind;
use records::layout::{Header, Point};
use records::refused::Refused;
use refusals::fault::Fault;

#[derive(Drop)]
pub enum AnyBook {
    Roads(RoadBook),
    Sailings(Timetable),
}

impl AnyBook {
    // What the first five words of a book of this kind say, or what is wrong with them.
    pub fn header(kind: Kind, words: &[u32]) -> Result<Header, Fault>
        ensures { MatchResult result (λ h. (header_fault kind words.now ≡ None) × (h ≡ header_in words.now)) (λ f. header_fault kind words.now ≡ Some f) }
    {
        match kind {
            Kind::Road => RoadBook::header(words),
            Kind::Timetable => Timetable::header(words),
        }
    }

    // The words as a book of this kind, if they obey every rule of it; else the first fault, and the words again.
    pub fn open(kind: Kind, words: Vec<u32>) -> Result<AnyBook, Refused>
        ensures accepted { (is_ok result ≡ true) ↔ Obeys kind words.items }
        ensures book { IfOk result (λ b. any_open b ≡ book_in kind words.items) }
        ensures fault { any_fault_named result ≡ first_fault kind words.items }
        ensures words { any_words_held result ≡ words }
    {
        match kind {
            Kind::Road => match RoadBook::open(words) {
                Ok(book) => Ok(AnyBook::Roads(book)),
                Err(refused) => Err(refused),
            },
            Kind::Timetable => match Timetable::open(words) {
                Ok(book) => Ok(AnyBook::Sailings(book)),
                Err(refused) => Err(refused),
            },
        }
    }

    pub fn kind(&self) -> Kind
        ensures { result ≡ (any_open self.now).kind }
    {
        match self {
            AnyBook::Roads(book) => book.kind(),
            AnyBook::Sailings(book) => book.kind(),
        }
    }

    // How many points the book has, on chains and off them.
    pub fn points(&self) -> u32
        ensures { result ≡ (any_open self.now).header.points }
    {
        match self {
            AnyBook::Roads(book) => book.points(),
            AnyBook::Sailings(book) => book.points(),
        }
    }

    // The points along a link's chain, in its order; none for a link that isn't there.
    pub fn chain(&self, link: u32) -> Chain<'_>
        ensures { to_come result ≡ chain_of (any_open self.now) link }
    {
        match self {
            AnyBook::Roads(book) => book.chain(link),
            AnyBook::Sailings(book) => book.chain(link),
        }
    }

    // The first and the last point of a link's chain, or none for a link that isn't there.
    pub fn ends(&self, link: u32) -> Option<(Point, Point)>
        ensures { result ≡ ends_of (points_of (any_open self.now) link) }
    {
        match self {
            AnyBook::Roads(book) => book.ends(link),
            AnyBook::Sailings(book) => book.ends(link),
        }
    }
}

impl Network for AnyBook {
    ghost meaning = { λ s. book_network (any_open s) };

    ghost lawful = { λ x. any_lawful x };

    fn places(&self) -> u32 {
        match self {
            AnyBook::Roads(book) => book.places(),
            AnyBook::Sailings(book) => book.places(),
        }
    }

    fn links(&self) -> u32 {
        match self {
            AnyBook::Roads(book) => book.links(),
            AnyBook::Sailings(book) => book.links(),
        }
    }

    fn last_tick(&self) -> u32 {
        match self {
            AnyBook::Roads(book) => book.last_tick(),
            AnyBook::Sailings(book) => book.last_tick(),
        }
    }

    fn tail(&self, link: u32) -> u32 {
        match self {
            AnyBook::Roads(book) => book.tail(link),
            AnyBook::Sailings(book) => book.tail(link),
        }
    }

    fn head(&self, link: u32) -> u32 {
        match self {
            AnyBook::Roads(book) => book.head(link),
            AnyBook::Sailings(book) => book.head(link),
        }
    }

    fn floor(&self, link: u32) -> u32 {
        match self {
            AnyBook::Roads(book) => book.floor(link),
            AnyBook::Sailings(book) => book.floor(link),
        }
    }

    fn arrival(&self, link: u32, tick: u32) -> Option<u32> {
        match self {
            AnyBook::Roads(book) => book.arrival(link, tick),
            AnyBook::Sailings(book) => book.arrival(link, tick),
        }
    }

    fn latest_departure(&self, link: u32, tick: u32) -> Option<u32> {
        match self {
            AnyBook::Roads(book) => book.latest_departure(link, tick),
            AnyBook::Sailings(book) => book.latest_departure(link, tick),
        }
    }

    fn first_out(&self, place: u32) -> u32 {
        match self {
            AnyBook::Roads(book) => book.first_out(place),
            AnyBook::Sailings(book) => book.first_out(place),
        }
    }

    fn next_out(&self, link: u32) -> u32 {
        match self {
            AnyBook::Roads(book) => book.next_out(link),
            AnyBook::Sailings(book) => book.next_out(link),
        }
    }

    fn first_in(&self, place: u32) -> u32 {
        match self {
            AnyBook::Roads(book) => book.first_in(place),
            AnyBook::Sailings(book) => book.first_in(place),
        }
    }

    fn next_in(&self, link: u32) -> u32 {
        match self {
            AnyBook::Roads(book) => book.next_in(link),
            AnyBook::Sailings(book) => book.next_in(link),
        }
    }
}
