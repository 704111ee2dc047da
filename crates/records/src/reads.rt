// The records by number. One that isn't there is all zero.
ghost use Rattle.std.specs.Prelude.{◌≡◌, length};
ghost use Rattle.records.specs.Contents.{end_of, lowest_after};
ghost use Rattle.records.specs.Layout.{link_at, size};
ghost use Rattle.records.specs.Reading.{book_of};

use crate::layout::{End, Header, Link, Place, Point};
use crate::records::Records;
use network::among;

impl Records {
    #[tactic(auto, unfolding(crate::specs::Layout::place_at))]
    pub fn place(&self, number: u32) -> Place
        ensures { result ≡ (book_of self.now).place number }
    {
        if !among(number, self.header.places) {
            return Place::default();
        }
        let words = self.words.as_slice();
        let at = 5 + 2 * (number as usize - 1);
        Place {
            first_out: words[at],
            first_in: words[at + 1],
        }
    }

    pub fn link(&self, number: u32) -> Link
        ensures { result ≡ (book_of self.now).link number }
    {
        link_in(self.words.as_slice(), self.header, number)
    }

    #[tactic(auto, unfolding(crate::specs::Layout::point_at))]
    pub fn point(&self, number: u32) -> Point
        ensures { result ≡ (book_of self.now).point number }
    {
        if !among(number, self.header.points) {
            return Point::default();
        }
        let words = self.words.as_slice();
        let at = 5
            + 2 * self.header.places as usize
            + 6 * self.header.links as usize
            + 3 * (number as usize - 1);
        Point {
            departure: words[at],
            arrival: words[at + 1],
            next: words[at + 2],
        }
    }

    // The lowest link after link `after` that has this end at the place, or 0.
    pub(crate) fn lowest(&self, end: End, place: u32, after: u32) -> u32
        ensures { result ≡ lowest_after (book_of self.now) end place after }
    {
        let words = self.words.as_slice();
        let header = self.header;
        (after..header.links)
            .find(|below| link_in(words, header, below + 1).end(end) == place)
            .map_or(0, |below| below + 1)
    }
}

// A link's record by number. (Words and header are two arguments and no `Records`, so that a scan keeps both in registers.)
#[tactic(auto, unfolding(crate::specs::Layout::link_at))]
fn link_in(words: &[u32], header: Header, number: u32) -> Link
    requires { length words.now ≡ size header }
    ensures { result ≡ link_at header words.now number }
{
    if !among(number, header.links) {
        return Link::default();
    }
    let at = 5 + 2 * header.places as usize + 6 * (number as usize - 1);
    Link {
        tail: words[at],
        head: words[at + 1],
        next_out: words[at + 2],
        next_in: words[at + 3],
        floor: words[at + 4],
        first_point: words[at + 5],
    }
}

impl Link {
    // (By match: which end is asked for is a value, of the definition too.)
    pub(crate) fn end(&self, end: End) -> u32
        ensures { result ≡ end_of end self.now }
    {
        match end {
            End::Tail => self.tail,
            End::Head => self.head,
        }
    }
}
