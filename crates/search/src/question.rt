// A question and its answer.
ghost use Rattle.std.specs.Prelude.{◌≡◌};
ghost use Rattle.search.specs.Question.{filled};

#[derive(Clone, Copy)]
pub struct Question {
    pub start: u32,
    pub destination: u32,
    pub tick: u32,
}

// The tick is the arrival, or the departure, that was asked for. As many roads as it says stand at the front of the list.
#[derive(Clone, Copy, PartialEq, Eq, Debug)]
pub enum Answer {
    Found { tick: u32, roads: u32, taken: u32 },
    NoWay { taken: u32 },
}

impl Answer {
    // How many roads stand at the front of the list.
    pub(crate) fn roads(self) -> u32
        ensures { result ≡ filled (Ok self) }
    {
        match self {
            Answer::Found { roads, .. } => roads,
            Answer::NoWay { .. } => 0,
        }
    }
}
