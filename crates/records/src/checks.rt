// The checks of a book's records, and the first fault that they find.
ghost use Rattle.std.specs.Prelude.{◌≡◌};
ghost use Rattle.records.specs.Reading.{book_of};
ghost use Rattle.records.specs.Faults.{first_of, first_by, fault_by, count_for, link_fault, point_fault, place_chain_fault, link_chain_fault, times_fault, timely, follows};

use crate::kind::Kind;
use crate::layout::{End, Header, Link, Point};
use crate::records::Records;
use network::among;
use refusals::fault::{Cause, Fault, Record};

// What is looked at: each link and each point by itself, the chains of links at each place and at each link, and the points
// along each link's chain. An enum and no closures: the order of the checks is a list that the caller hands in and that the definition
// of the first fault names, and a list of closures can't be named.
#[derive(Clone, Copy)]
pub enum Check {
    Links,
    Points,
    PlaceChains,
    LinkChains,
    Times,
}

impl Link {
    fn fault(&self, number: u32, header: &Header) -> Option<Fault>
        ensures { result ≡ link_fault header.now number self.now }
    {
        let at = Record::Link(number);
        if !among(self.tail, header.places) || !among(self.head, header.places) {
            return Some(Cause::Ends.at(at));
        }
        if !among(self.floor, header.last) {
            return Some(Cause::Floor.at(at));
        }
        if !among(self.first_point, header.points) {
            return Some(Cause::PointIndex.at(at));
        }
        None
    }
}

impl Point {
    // (A next point of 0 ends a chain, as the format has it.)
    fn fault(&self, number: u32, header: &Header) -> Option<Fault>
        ensures { result ≡ point_fault header.now number self.now }
    {
        if self.next > header.points || (self.next != 0 && self.next <= number) {
            return Some(Cause::PointIndex.at(Record::Point(number)));
        }
        None
    }

    // Whether its times suit a link with this floor.
    fn timely(&self, floor: u32, last: u32) -> bool
        ensures { result ≡ timely floor last self.now }
    {
        self.departure <= last
            && self.arrival <= last
            && self.departure <= self.arrival
            && floor <= self.arrival - self.departure
    }

    // Whether it may follow the point before, if there is one: on a road it departs later and arrives no earlier. (The kind is a value
    // here and no type: this is all that the records ask of it.)
    fn follows(&self, kind: Kind, before: &Option<Point>) -> bool
        ensures { result ≡ follows kind before.now self.now }
    {
        match (kind, before) {
            (Kind::Road, Some(p)) => p.departure < self.departure && p.arrival <= self.arrival,
            _ => true,
        }
    }
}

impl Records {
    fn place_chain_fault(&self, number: u32) -> Option<Fault>
        ensures { result ≡ place_chain_fault (book_of self.now) number }
    {
        let place = self.place(number);
        if place.first_out != self.lowest(End::Tail, number, 0)
            || place.first_in != self.lowest(End::Head, number, 0)
        {
            return Some(Cause::Chain.at(Record::Place(number)));
        }
        None
    }

    fn link_chain_fault(&self, number: u32) -> Option<Fault>
        ensures { result ≡ link_chain_fault (book_of self.now) number }
    {
        let link = self.link(number);
        if link.next_out != self.lowest(End::Tail, link.tail, number)
            || link.next_in != self.lowest(End::Head, link.head, number)
        {
            return Some(Cause::Chain.at(Record::Link(number)));
        }
        None
    }

    // The first fault along a link's chain of points.
    fn times_fault(&self, number: u32) -> Option<Fault>
        ensures { result ≡ times_fault (book_of self.now) number }
    {
        let link = self.link(number);
        let mut before = None;
        for (at, point) in self.chain(number) {
            if !point.timely(link.floor, self.header.last) {
                return Some(Cause::Time { link: number }.at(Record::Point(at)));
            }
            if !point.follows(self.kind, &before) {
                return Some(Cause::Order { link: number }.at(Record::Point(at)));
            }
            before = Some(point);
        }
        None
    }

    #[tactic(auto, unfolding(crate::specs::Faults::fault_by))]
    fn fault(&self, check: Check, number: u32) -> Option<Fault>
        ensures { result ≡ fault_by (book_of self.now) check number }
    {
        match check {
            Check::Links => self.link(number).fault(number, &self.header),
            Check::Points => self.point(number).fault(number, &self.header),
            Check::PlaceChains => self.place_chain_fault(number),
            Check::LinkChains => self.link_chain_fault(number),
            Check::Times => self.times_fault(number),
        }
    }

    fn count(&self, check: Check) -> u32
        ensures { result ≡ count_for self.now.header check }
    {
        match check {
            Check::Links | Check::LinkChains | Check::Times => self.header.links,
            Check::Points => self.header.points,
            Check::PlaceChains => self.header.places,
        }
    }

    // The first fault that one check finds. (This loop and the next are `for`s, since the check found no proof of `find_map`.)
    fn first(&self, check: Check) -> Option<Fault>
        ensures { result ≡ first_of (fault_by (book_of self.now) check) (count_for self.now.header check) }
    {
        let count = self.count(check);
        for number in 1..=count {
            if let Some(fault) = self.fault(check, number) {
                return Some(fault);
            }
        }
        None
    }

    // The first fault by these checks, one after the other.
    pub fn first_fault(&self, checks: &[Check]) -> Option<Fault>
        ensures { result ≡ first_by (book_of self.now) checks.now }
    {
        for check in checks {
            if let Some(fault) = self.first(*check) {
                return Some(fault);
            }
        }
        None
    }
}
