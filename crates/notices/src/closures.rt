// The closures that stand, and the arrivals that they leave.
ghost use Rattle.std.specs.Prelude.{◌≡◌, ◌≤◌, [], length, position};
ghost use Rattle.notices.specs.Refusals.{refusal_in};
ghost use Rattle.notices.specs.Calls.{up_refusal, up_after, down_refusal, down_after};
ghost use Rattle.notices.specs.Closures.{same, closed};
ghost use Rattle.notices.specs.Shut.{closed_lawful};

use crate::notice::Closure;
use crate::windows::{open_from, open_until};
use arrayvec::ArrayVec;
use layers::over::Retiming;
use network::Network;
use refusals::notice::NoticeRefusal;
use std::marker::Model;

// Up to 32 closures, no two of them the same.
#[derive(Drop)]
pub struct Closures {
    standing: ArrayVec<Closure, 32>,
}

// They are the list of those that stand, in the order in which they were put up.
impl Model for Closures {
    ghost use Rattle.std.specs.Prelude.{List};
    ghost use Rattle.notices.specs.declared.notice.Closure.{Closure};

    ghost Value = { List Closure };

    ghost view = { λ s. s.standing.items };
}

impl Closures {
    pub fn new() -> Closures
        ensures { result ≡ [] }
    {
        Closures {
            standing: ArrayVec::new(),
        }
    }

    // All that stand, in the order in which they were put up.
    pub fn standing(&self) -> &[Closure]
        ensures closures { result.now ≡ self.now }
        ensures within { length result.now ≤ 32 }
    {
        &self.standing
    }

    // Puts a closure up.
    pub fn up(&mut self, closure: Closure) -> Result<(), NoticeRefusal>
        ensures reply { refusal_in result ≡ up_refusal self.old closure }
        ensures closures { self.new ≡ up_after self.old closure }
    {
        if self.standing.contains(&closure) {
            return Err(NoticeRefusal::AlreadyStanding);
        }
        self.standing
            .try_push(closure)
            .map_err(|_| NoticeRefusal::NoRoom)
    }

    // Takes a closure down.
    #[tactic(auto, using(crate::proofs::Found::taken, crate::proofs::Found::not_taken))]
    pub fn down(&mut self, closure: Closure) -> Result<(), NoticeRefusal>
        ensures reply { refusal_in result ≡ down_refusal self.old closure }
        ensures closures { self.new ≡ down_after self.old closure }
    {
        let at = self.place_of(closure).ok_or(NoticeRefusal::NotStanding)?;
        self.standing.remove(at);
        Ok(())
    }

    // Where a closure stands.
    fn place_of(&self, closure: Closure) -> Option<usize>
        ensures { result ≡ position (same closure) self.now }
    {
        self.standing
            .iter()
            .position(|standing| *standing == closure)
    }
}

impl Retiming for Closures {
    ghost arrivals = { closed };

    ghost lawful = { closed_lawful };

    // Whoever finds the link shut waits until it opens.
    fn arrival<N: Network>(&self, below: &N, link: u32, tick: u32) -> Option<u32> {
        let open = open_from(self.standing(), link, tick, below.last_tick())?;
        below.arrival(link, open)
    }

    // The last tick that would do below, or the last before it at which the link is open.
    fn latest_departure<N: Network>(&self, below: &N, link: u32, tick: u32) -> Option<u32> {
        let latest = below.latest_departure(link, tick)?;
        open_until(self.standing(), link, latest)
    }
}
