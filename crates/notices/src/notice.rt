// What is said of a link.

// Nobody enters the link at a tick from `from` to just before `until`.
#[derive(Clone, Copy, PartialEq, Eq, Default, Debug)]
pub struct Closure {
    pub link: u32,
    pub from: u32,
    pub until: u32,
}

impl Closure {
    ghost use Rattle.std.specs.Prelude.{◌≡◌};
    ghost use Rattle.notices.specs.Closures.{shuts};

    // Whether nobody enters that link at that tick.
    pub fn shuts(&self, link: u32, tick: u32) -> bool
        ensures { result ≡ shuts link tick self.now }
    {
        self.link == link && (self.from..self.until).contains(&tick)
    }
}

// Each arrival over the link is this many ticks later.
#[derive(Clone, Copy, PartialEq, Eq, Default, Debug)]
pub struct Delay {
    pub link: u32,
    pub ticks: u32,
}
