// Up to four columns in fixed memory.
ghost use Rattle.std.specs.Prelude.{◌≡◌, ◌<◌, ◌≤◌, [], ◌∷◌, ◌++◌, length};
ghost use Rattle.marks.specs.Columns.{IsSmall};
ghost use Rattle.marks.specs.Estimates.{lead};
ghost use Rattle.marks.specs.Offers.{kept, after_offer, Offered};

use crate::columns::{above, broken, number, padded};
use network::Network;
use refusals::column::ColumnRefusal;
use std::marker::Model;

// A column has a number for each place, from place 1 on, and 0 after them. The first `count` are held. (By hand and no `ArrayVec`, which
// writes a blank over each element that it drops: here that would be 4 KiB for each mark.)
#[derive(Drop)]
pub struct Marks {
    pub(crate) columns: [[u32; 1024]; 4],
    pub(crate) count: usize,
}

// They are the list of their columns, in the order in which they were taken.
impl Model for Marks {
    ghost use Rattle.std.specs.Prelude.{◌≡◌, ℕ, ◌≤◌, List, length, take};
    ghost use Rattle.marks.specs.Columns.{AllSmall};

    ghost Value = { List (List ℕ) };

    ghost view = { λ m. take m.count m.columns };

    ghost invariant = { λ m. (m.count ≤ 4) × (length m.columns ≡ 4) × AllSmall m.columns };
}

impl Marks {
    pub fn new() -> Marks
        ensures { result ≡ [] }
    {
        Marks {
            columns: [[0; 1024]; 4],
            count: 0,
        }
    }

    pub fn count(&self) -> usize
        ensures value { result ≡ length self.now }
        ensures within { result ≤ 4 }
    {
        self.count
    }

    // The columns that are held.
    pub fn columns(&self) -> &[[u32; 1024]]
        ensures columns { result.now ≡ self.now }
        ensures within { length result.now ≤ 4 }
    {
        let columns = &self.columns[..];
        &columns[..self.count]
    }

    // Takes a column for a mark, if it has a number for each place, none of them above the last tick, and along each link rises by at
    // most the floor.
    pub fn offer<N: Network>(&mut self, net: &N, column: &[u32]) -> Result<(), ColumnRefusal>
        ensures reply { Offered (N.Network.meaning net.now) self.old column.now result }
        ensures columns { self.new ≡ after_offer self.old column.now result }
    {
        if self.count == 4 {
            return Err(ColumnRefusal::TooManyMarks);
        }
        if column.len() != net.places() as usize {
            return Err(ColumnRefusal::ColumnLength);
        }
        if above(column, net.last_tick()) {
            return Err(ColumnRefusal::AboveLast);
        }
        if let Some(link) = broken(net, column) {
            return Err(ColumnRefusal::BrokenRule { link });
        }
        self.lay(column);
        Ok(())
    }

    // Keeps a column.
    fn lay(&mut self, column: &[u32])
        requires room { length self.old < 4 }
        requires fits { length column.now ≤ 1024 }
        requires small { IsSmall column.now }
        ensures { self.new ≡ self.old ++ kept column.now ∷ [] }
    {
        self.columns[self.count] = padded(column);
        self.count += 1;
    }

    // The most ticks that a mark shows between two places.
    pub fn lead(&self, to: u32, from: u32) -> u32
        ensures { result ≡ lead self.now to from }
    {
        self.columns().iter().fold(0, |most: u32, column| {
            most.max(number(column, to).saturating_sub(number(column, from)))
        })
    }

    // Drops all marks.
    pub fn clear(&mut self)
        ensures { self.new ≡ [] }
    {
        self.count = 0;
    }
}
