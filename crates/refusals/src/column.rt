// Why a column is refused.
ghost use Rattle.std.specs.Prelude.{◌≡◌};
ghost use Rattle.refusals.specs.Numbers.{column_number};

// It would be a fifth mark, or has not a number for each place, has one above the last tick, or breaks the rule along a link.
#[derive(Clone, Copy, PartialEq, Eq, Debug)]
pub enum ColumnRefusal {
    TooManyMarks,
    ColumnLength,
    AboveLast,
    BrokenRule { link: u32 },
}

impl ColumnRefusal {
    pub fn number(&self) -> u32
        ensures { result ≡ column_number self.now }
    {
        match self {
            ColumnRefusal::TooManyMarks => 22,
            ColumnRefusal::ColumnLength => 23,
            ColumnRefusal::AboveLast => 24,
            ColumnRefusal::BrokenRule { link: _ } => 25,
        }
    }
}
