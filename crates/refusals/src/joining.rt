// Why two networks can't be joined.
ghost use Rattle.std.specs.Prelude.{◌≡◌};
ghost use Rattle.refusals.specs.Numbers.{misfit_number};

use std::fmt;

// Their numbers of places or their last ticks differ, or together they have more links than a network may have.
#[derive(Clone, Copy, PartialEq, Eq, Debug)]
pub enum Misfit {
    Unequal,
    TooManyLinks,
}

impl Misfit {
    pub fn number(&self) -> u32
        ensures { result ≡ misfit_number self.now }
    {
        match self {
            Misfit::Unequal => 10,
            Misfit::TooManyLinks => 11,
        }
    }
}

impl fmt::Display for Misfit {
    fn fmt<W: fmt::Write>(&self, f: &mut fmt::Formatter<W>) -> fmt::Result {
        match self {
            Misfit::Unequal => write!(
                f,
                "the two have not the same number of places and the same last tick"
            ),
            Misfit::TooManyLinks => write!(f, "together the two have more than 8192 links"),
        }
    }
}
