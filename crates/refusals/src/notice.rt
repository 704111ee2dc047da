// Why a notice is refused.
ghost use Rattle.std.specs.Prelude.{◌≡◌};
ghost use Rattle.refusals.specs.Numbers.{notice_number};

// It stands already, or doesn't, or finds no room; or it is a delay of no or too many ticks.
#[derive(Clone, Copy, PartialEq, Eq, Debug)]
pub enum NoticeRefusal {
    AlreadyStanding,
    NotStanding,
    NoRoom,
    NoDelay,
}

impl NoticeRefusal {
    pub fn number(&self) -> u32
        ensures { result ≡ notice_number self.now }
    {
        match self {
            NoticeRefusal::AlreadyStanding => 15,
            NoticeRefusal::NotStanding => 16,
            NoticeRefusal::NoRoom => 17,
            NoticeRefusal::NoDelay => 18,
        }
    }
}
