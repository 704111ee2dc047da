// A question as it is asked, and why one can't be read.
ghost use Rattle.std.specs.Prelude.{◌≡◌};
ghost use Rattle.requests.specs.Requests.{kind_in, unread_number};

// Whether the tick is that of the departure or the last one for the arrival.
#[derive(Clone, Copy, PartialEq, Eq, Debug)]
pub enum Kind {
    DepartAt,
    ArriveBy,
}

impl TryFrom<u32> for Kind {
    type Error = Unread;

    ghost try_from_gives = { λ word r. r ≡ kind_in word };

    fn try_from(word: u32) -> Result<Kind, Unread> {
        match word {
            1 => Ok(Kind::DepartAt),
            2 => Ok(Kind::ArriveBy),
            _ => Err(Unread::NoKind),
        }
    }
}

// What is asked: a way from the start to the destination. (A struct of its own, so that what reads an input stands on no search.)
#[derive(Clone, Copy, PartialEq, Eq, Debug)]
pub struct Request {
    pub kind: Kind,
    pub start: u32,
    pub destination: u32,
    pub tick: u32,
}

// Under four words, or a first word that is no kind.
#[derive(Clone, Copy, PartialEq, Eq, Debug)]
pub enum Unread {
    Short,
    NoKind,
}

impl Unread {
    // The number that it is refused with. (A method and no `From`, as in `refusals`.)
    pub fn number(&self) -> u32
        ensures { result ≡ unread_number self.now }
    {
        match self {
            Unread::Short => 1,
            Unread::NoKind => 14,
        }
    }
}
