// The delays that stand, and the arrivals that they make later.
ghost use Rattle.std.specs.Prelude.{◌≡◌, ◌≤◌, [], length, position};
ghost use Rattle.notices.specs.Refusals.{refusal_in};
ghost use Rattle.notices.specs.Calls.{set_refusal, set_after, clear_refusal, clear_after};
ghost use Rattle.notices.specs.Delays.{on_link, delay_on, delayed};
ghost use Rattle.notices.specs.Late.{delayed_lawful};

use crate::notice::Delay;
use arrayvec::ArrayVec;
use layers::over::{Retiming, later};
use network::{Network, among};
use refusals::notice::NoticeRefusal;
use std::marker::Model;

// Up to 32 delays, no two of them on the same link.
#[derive(Drop)]
pub struct Delays {
    standing: ArrayVec<Delay, 32>,
}

// They are the list of those that stand, in the order in which their links were first delayed.
impl Model for Delays {
    ghost use Rattle.std.specs.Prelude.{List};
    ghost use Rattle.notices.specs.declared.notice.Delay.{Delay};

    ghost Value = { List Delay };

    ghost view = { λ s. s.standing.items };
}

impl Delays {
    pub fn new() -> Delays
        ensures { result ≡ [] }
    {
        Delays {
            standing: ArrayVec::new(),
        }
    }

    // All that stand, in the order in which their links were first delayed.
    pub fn standing(&self) -> &[Delay]
        ensures delays { result.now ≡ self.now }
        ensures within { length result.now ≤ 32 }
    {
        &self.standing
    }

    // Puts a delay on its link, in the place of the one that stands there.
    pub fn set(&mut self, delay: Delay) -> Result<(), NoticeRefusal>
        ensures reply { refusal_in result ≡ set_refusal self.old delay }
        ensures delays { self.new ≡ set_after self.old delay }
    {
        if !among(delay.ticks, 86_400) {
            return Err(NoticeRefusal::NoDelay);
        }
        match self.place_of(delay.link) {
            Some(at) => {
                self.standing[at] = delay;
                Ok(())
            }
            None => self
                .standing
                .try_push(delay)
                .map_err(|_| NoticeRefusal::NoRoom),
        }
    }

    // Takes the delay off a link.
    #[tactic(auto, using(crate::proofs::Found::taken, crate::proofs::Found::not_taken))]
    pub fn clear(&mut self, link: u32) -> Result<(), NoticeRefusal>
        ensures reply { refusal_in result ≡ clear_refusal self.old link }
        ensures delays { self.new ≡ clear_after self.old link }
    {
        let at = self.place_of(link).ok_or(NoticeRefusal::NotStanding)?;
        self.standing.remove(at);
        Ok(())
    }

    // Where the delay on a link stands.
    fn place_of(&self, link: u32) -> Option<usize>
        ensures { result ≡ position (on_link link) self.now }
    {
        self.standing.iter().position(|delay| delay.link == link)
    }

    // The ticks of the delay on a link, 0 where none stands.
    fn ticks_on(&self, link: u32) -> u32
        ensures { result ≡ delay_on link self.now }
    {
        self.standing
            .iter()
            .find(|delay| delay.link == link)
            .map_or(0, |delay| delay.ticks)
    }
}

impl Retiming for Delays {
    ghost arrivals = { delayed };

    ghost lawful = { delayed_lawful };

    fn arrival<N: Network>(&self, below: &N, link: u32, tick: u32) -> Option<u32> {
        let arrival = below.arrival(link, tick)?;
        later(below.last_tick(), self.ticks_on(link), arrival)
    }

    // To be there by a tick in spite of a delay is to be there so much earlier below.
    fn latest_departure<N: Network>(&self, below: &N, link: u32, tick: u32) -> Option<u32> {
        if tick > below.last_tick() {
            return None;
        }
        let earlier = tick.checked_sub(self.ticks_on(link))?;
        below.latest_departure(link, earlier)
    }
}
