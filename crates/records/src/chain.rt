// The points along a link's chain.
ghost use Rattle.std.specs.Prelude.{◌≡◌};
ghost use Rattle.records.specs.Contents.{chain_of};
ghost use Rattle.records.specs.Reading.{book_of, to_come};
ghost use Rattle.std.specs.Iterator.{YieldsFirst, item_count};

use crate::layout::Point;
use crate::records::Records;

// The points still to come, each with its number. It stops after as many points as the book has, so a chain can be walked before its
// next points are known to rise. An index of 0 ends it, as the format has it.
#[derive(Drop)]
pub struct Chain<'a> {
    records: &'a Records,
    at: u32,
    left: u32,
}

impl Records {
    pub fn chain(&self, link: u32) -> Chain<'_>
        ensures { to_come result ≡ chain_of (book_of self.now) link }
    {
        Chain {
            records: self,
            at: self.link(link).first_point,
            left: self.header.points,
        }
    }
}

impl<'a> Iterator for Chain<'a> {
    type Item = (u32, Point);

    ghost next_gives = { YieldsFirst to_come };

    ghost remaining = { item_count to_come };

    fn next(&mut self) -> Option<(u32, Point)> {
        if self.at == 0 || self.left == 0 {
            return None;
        }
        let number = self.at;
        let point = self.records.point(number);
        self.at = point.next;
        self.left -= 1;
        Some((number, point))
    }
}
