// The network below, read backward in time.
ghost use Rattle.std.specs.Prelude.{◌≡◌};
ghost use Rattle.journeys.specs.Turned.{turned};
ghost use Rattle.journeys.proofs.Turning.{turned_laws};

use network::Network;

// Each link leads the other way, and each tick is counted back from the last.
#[derive(Drop)]
pub struct Turned<N> {
    below: N,
}

impl<N> Turned<N> {
    pub fn new(below: N) -> Turned<N>
        ensures { result.below ≡ below }
    {
        Turned { below }
    }
}

impl<N: Network> Network for Turned<N> {
    ghost meaning = { λ s. turned (N.Network.meaning s.below) };

    ghost lawful = { λ x. turned_laws (N.Network.meaning x.below) (N.Network.lawful x.below) };

    fn places(&self) -> u32 {
        self.below.places()
    }

    fn links(&self) -> u32 {
        self.below.links()
    }

    fn last_tick(&self) -> u32 {
        self.below.last_tick()
    }

    fn tail(&self, link: u32) -> u32 {
        self.below.head(link)
    }

    fn head(&self, link: u32) -> u32 {
        self.below.tail(link)
    }

    fn floor(&self, link: u32) -> u32 {
        self.below.floor(link)
    }

    #[tactic(auto, using(journeys::proofs::Turning::latest_within))]
    fn arrival(&self, link: u32, tick: u32) -> Option<u32> {
        let last = self.below.last_tick();
        let departure = self.below.latest_departure(link, last.checked_sub(tick)?)?;
        Some(last - departure)
    }

    #[tactic(auto, using(journeys::proofs::Turning::any_within, journeys::proofs::Turning::latest_turned))]
    fn latest_departure(&self, link: u32, tick: u32) -> Option<u32> {
        let last = self.below.last_tick();
        let arrival = self.below.arrival(link, last.checked_sub(tick)?)?;
        Some(last - arrival)
    }

    fn first_out(&self, place: u32) -> u32 {
        self.below.first_in(place)
    }

    fn next_out(&self, link: u32) -> u32 {
        self.below.next_in(link)
    }

    fn first_in(&self, place: u32) -> u32 {
        self.below.first_out(place)
    }

    fn next_in(&self, link: u32) -> u32 {
        self.below.next_out(link)
    }
}
