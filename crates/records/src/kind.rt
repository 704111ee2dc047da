// The kinds of book.
ghost use Rattle.std.specs.Prelude.{◌≡◌};
ghost use Rattle.records.specs.Layout.{kind_number};
ghost use Rattle.records.specs.Kinds.{Names};

use std::fmt;

// What a book is of: roads, where a lorry drives off at any tick, or sailings, at fixed ticks.
#[derive(Clone, Copy, PartialEq, Eq, Debug)]
pub enum Kind {
    Road,
    Timetable,
}

// A word that is no kind's.
#[derive(Clone, Copy, PartialEq, Eq, Debug)]
pub struct UnknownKind(pub u32);

impl Kind {
    // The first word of a book of this kind. (A method and no `From`, as in `refusals`.)
    pub fn number(&self) -> u32
        ensures { result ≡ kind_number self.now }
    {
        match self {
            Kind::Road => 1,
            Kind::Timetable => 2,
        }
    }
}

impl TryFrom<u32> for Kind {
    type Error = UnknownKind;

    ghost try_from_gives = { Names };

    fn try_from(word: u32) -> Result<Kind, UnknownKind> {
        match word {
            1 => Ok(Kind::Road),
            2 => Ok(Kind::Timetable),
            _ => Err(UnknownKind(word)),
        }
    }
}

impl fmt::Display for Kind {
    fn fmt<W: fmt::Write>(&self, f: &mut fmt::Formatter<W>) -> fmt::Result {
        f.write_str(match self {
            Kind::Road => "road book",
            Kind::Timetable => "timetable",
        })
    }
}
