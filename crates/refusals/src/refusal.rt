// Why a call is refused.
ghost use Rattle.std.specs.Prelude.{◌≡◌};
ghost use Rattle.refusals.specs.Numbers.{refusal_number};

// A place or a tick that isn't there, or lent memory that is too short: of the working table and the queue, which need room for each
// place, and of the list, which needs a cell for each road.
#[derive(Clone, Copy, PartialEq, Eq, Debug)]
pub enum Refusal {
    NoPlace,
    NoTick,
    ShortTable,
    ShortQueue,
    ShortList { needed: u32 },
}

impl Refusal {
    pub fn number(&self) -> u32
        ensures { result ≡ refusal_number self.now }
    {
        match self {
            Refusal::NoPlace => 12,
            Refusal::NoTick => 14,
            Refusal::ShortTable => 19,
            Refusal::ShortQueue => 20,
            Refusal::ShortList { needed: _ } => 21,
        }
    }
}
