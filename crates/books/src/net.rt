// A book is a network.
ghost use Rattle.std.specs.Prelude.{◌≡◌};
ghost use Rattle.records.specs.Contents.{chain_of, points_of};
ghost use Rattle.records.specs.Reading.{to_come};
ghost use Rattle.books.specs.Networks.{book_network};
ghost use Rattle.books.specs.Opened.{open_book};
ghost use Rattle.books.specs.Roads.{ends_of};
ghost use Rattle.books.specs.Sound.{sound, laws};

use crate::book::Book;
use crate::kinds::BookKind;
use network::Network;
use records::chain::Chain;
use records::kind::Kind;
use records::layout::Point;

impl<K: BookKind> Network for Book<K> {
    ghost meaning = { λ s. book_network (open_book s) };

    ghost lawful = { λ x. laws (open_book x) (sound x) };

    fn places(&self) -> u32 {
        self.records.header.places
    }

    fn links(&self) -> u32 {
        self.records.header.links
    }

    fn last_tick(&self) -> u32 {
        self.records.header.last
    }

    fn tail(&self, link: u32) -> u32 {
        self.records.link(link).tail
    }

    fn head(&self, link: u32) -> u32 {
        self.records.link(link).head
    }

    fn floor(&self, link: u32) -> u32 {
        self.records.link(link).floor
    }

    #[tactic(auto, using(crate::specs::Sound::ordered))]
    fn arrival(&self, link: u32, tick: u32) -> Option<u32> {
        if tick > self.records.header.last {
            return None;
        }
        K::arrival(self.records.chain(link), tick)
    }

    #[tactic(auto, using(crate::specs::Sound::ordered))]
    fn latest_departure(&self, link: u32, tick: u32) -> Option<u32> {
        if tick > self.records.header.last {
            return None;
        }
        K::latest_departure(self.records.chain(link), tick)
    }

    fn first_out(&self, place: u32) -> u32 {
        self.records.place(place).first_out
    }

    fn next_out(&self, link: u32) -> u32 {
        self.records.link(link).next_out
    }

    fn first_in(&self, place: u32) -> u32 {
        self.records.place(place).first_in
    }

    fn next_in(&self, link: u32) -> u32 {
        self.records.link(link).next_in
    }
}

impl<K: BookKind> Book<K> {
    pub fn kind(&self) -> Kind
        ensures { result ≡ (open_book self.now).kind }
    {
        self.records.kind
    }

    // The words that the book was opened from.
    pub(crate) fn into_words(self) -> Vec<u32>
        ensures { result ≡ self.records.words }
    {
        self.records.words
    }

    // How many points the book has, on chains and off them.
    pub fn points(&self) -> u32
        ensures { result ≡ (open_book self.now).header.points }
    {
        self.records.header.points
    }

    // The points along a link's chain, in its order; none for a link that isn't there.
    pub fn chain(&self, link: u32) -> Chain<'_>
        ensures { to_come result ≡ chain_of (open_book self.now) link }
    {
        self.records.chain(link)
    }

    // The first and the last point of a link's chain, or none for a link that isn't there.
    pub fn ends(&self, link: u32) -> Option<(Point, Point)>
        ensures { result ≡ ends_of (points_of (open_book self.now) link) }
    {
        let mut points = self.chain(link);
        let (_, first) = points.next()?;
        let last = points.last().map_or(first, |(_, last)| last);
        Some((first, last))
    }
}
