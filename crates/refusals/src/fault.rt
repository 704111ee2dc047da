// What is wrong with a book, and where.
ghost use Rattle.std.specs.Prelude.{◌≡◌};
ghost use Rattle.refusals.specs.Numbers.{cause_number, record_number};

use std::fmt;

// Time and order are judged along a link's chain, so they name the link that was walked.
#[derive(Clone, Copy, PartialEq, Eq, Debug)]
pub enum Cause {
    Length,
    Kind,
    Limits,
    Chain,
    Ends,
    Floor,
    PointIndex,
    Time { link: u32 },
    Order { link: u32 },
}

// A record by its sort and number.
#[derive(Clone, Copy, PartialEq, Eq, Debug)]
pub enum Record {
    Header,
    Place(u32),
    Link(u32),
    Point(u32),
}

#[derive(Clone, Copy, PartialEq, Eq, Debug)]
pub struct Fault {
    pub cause: Cause,
    pub at: Record,
}

impl Cause {
    // The fault that this cause at a record is.
    pub fn at(self, at: Record) -> Fault
        ensures { result ≡ record { cause = self; at = at } }
    {
        Fault { cause: self, at }
    }

    pub fn number(&self) -> u32
        ensures { result ≡ cause_number self.now }
    {
        match self {
            Cause::Length => 1,
            Cause::Kind => 2,
            Cause::Limits => 3,
            Cause::Chain => 4,
            Cause::Ends => 5,
            Cause::Floor => 6,
            Cause::PointIndex => 7,
            Cause::Time { link: _ } => 8,
            Cause::Order { link: _ } => 9,
        }
    }
}

impl Record {
    // The record's number, or 0 for the header.
    pub fn number(&self) -> u32
        ensures { result ≡ record_number self.now }
    {
        match self {
            Record::Header => 0,
            Record::Place(number) | Record::Link(number) | Record::Point(number) => *number,
        }
    }
}

impl fmt::Display for Cause {
    fn fmt<W: fmt::Write>(&self, f: &mut fmt::Formatter<W>) -> fmt::Result {
        match self {
            Cause::Length => write!(
                f,
                "the number of words is not the one that the header gives"
            ),
            Cause::Kind => write!(f, "this is no road book"),
            Cause::Limits => write!(f, "a number of the header is outside its limits"),
            Cause::Chain => write!(
                f,
                "a chain of links does not go by the lowest link that is left"
            ),
            Cause::Ends => write!(f, "its tail or its head is no place"),
            Cause::Floor => write!(f, "its floor is not from 1 to the last tick"),
            Cause::PointIndex => write!(f, "it names a point that may not come there"),
            Cause::Time { link } => write!(
                f,
                "on the chain of link {link}, a time is above the last tick or under the departure plus the floor"
            ),
            Cause::Order { link } => write!(
                f,
                "on the chain of link {link}, it does not depart later than the point before and arrive no earlier"
            ),
        }
    }
}

impl fmt::Display for Record {
    fn fmt<W: fmt::Write>(&self, f: &mut fmt::Formatter<W>) -> fmt::Result {
        match self {
            Record::Header => write!(f, "header"),
            Record::Place(number) => write!(f, "place {number}"),
            Record::Link(number) => write!(f, "link {number}"),
            Record::Point(number) => write!(f, "point {number}"),
        }
    }
}
