// What marks estimate, forward and backward in time: two types, since one type with a direction in it
// would ask for that at each place.
ghost use Rattle.std.specs.Prelude.{◌≡◌, ℕ, ◌≤◌};
ghost use Rattle.marks.specs.Estimates.{forward, backward};

use crate::marks::Marks;
use search::estimate::Estimate;

// The way ahead to a destination.
#[derive(Drop)]
pub struct Forward<'a> {
    marks: &'a Marks,
    destination: u32,
    ghost small: { (v : ℕ) → forward marks.now destination v ≤ 604800 },
}

// Backward in time, the way ahead to a start.
#[derive(Drop)]
pub struct Backward<'a> {
    marks: &'a Marks,
    start: u32,
    ghost small: { (v : ℕ) → backward marks.now start v ≤ 604800 },
}

impl<'a> Forward<'a> {
    pub fn new(marks: &'a Marks, destination: u32) -> Forward<'a>
        ensures marks { result.marks.now ≡ marks.now }
        ensures destination { result.destination ≡ destination }
    {
        // Read, so that its numbers are known to be small.
        let _ = &marks.columns;
        Forward { marks, destination }
    }
}

impl<'a> Backward<'a> {
    pub fn new(marks: &'a Marks, start: u32) -> Backward<'a>
        ensures marks { result.marks.now ≡ marks.now }
        ensures start { result.start ≡ start }
    {
        // Read, so that its numbers are known to be small.
        let _ = &marks.columns;
        Backward { marks, start }
    }
}

impl<'a> Estimate for Forward<'a> {
    ghost ahead = { λ e v. forward e.marks.now e.destination v };

    ghost small = { λ e v. e.small v };

    fn ahead(&self, place: u32) -> u32 {
        self.marks.lead(self.destination, place)
    }
}

impl<'a> Estimate for Backward<'a> {
    ghost ahead = { λ e v. backward e.marks.now e.start v };

    ghost small = { λ e v. e.small v };

    fn ahead(&self, place: u32) -> u32 {
        self.marks.lead(place, self.start)
    }
}
