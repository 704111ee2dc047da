// A network with arrivals of its own over the places and links of the one below.
ghost use Rattle.std.specs.Prelude.{◌≡◌};
ghost use Rattle.network.specs.Meaning.{Meaning};
ghost use Rattle.network.specs.Laws.{Laws};
ghost use Rattle.network.specs.Latest.{latest};
ghost use Rattle.layers.specs.Retimed.{Arrivals, over, LawfulArrivals, later};
ghost use Rattle.layers.specs.Retimings.{over_laws};

use network::Network;

// What makes arrivals from those of a network below, whichever that is, and goes back from an arrival without losing a tick.
pub trait Retiming {
    ghost arrivals: { Self → Meaning → Arrivals };

    fn arrival<N: Network>(&self, below: &N, link: u32, tick: u32) -> Option<u32>
        ensures { result ≡ arrivals self.now (N.Network.meaning below.now) link tick };

    fn latest_departure<N: Network>(&self, below: &N, link: u32, tick: u32) -> Option<u32>
        ensures { result ≡ latest (over (arrivals self.now) (N.Network.meaning below.now)) link tick };

    ghost lawful: { (x : Self) (net : Meaning) → Laws net → LawfulArrivals net (arrivals x net) };
}

// A retiming over a network: `Over<Closures, Over<Delays, N>>` is closures over delays over N.
#[derive(Drop)]
pub struct Over<R, N> {
    pub retiming: R,
    pub below: N,
}

impl<R: Retiming, N: Network> Network for Over<R, N> {
    ghost meaning = { λ s. over (R.Retiming.arrivals s.retiming) (N.Network.meaning s.below) };

    ghost lawful = { λ x.
        let net = N.Network.meaning x.below in
        let law = N.Network.lawful x.below in
        over_laws net law (R.Retiming.arrivals x.retiming) (R.Retiming.lawful x.retiming net law) };

    fn places(&self) -> u32 {
        self.below.places()
    }

    fn links(&self) -> u32 {
        self.below.links()
    }

    fn last_tick(&self) -> u32 {
        self.below.last_tick()
    }

    fn tail(&self, link: u32) -> u32 {
        self.below.tail(link)
    }

    fn head(&self, link: u32) -> u32 {
        self.below.head(link)
    }

    fn floor(&self, link: u32) -> u32 {
        self.below.floor(link)
    }

    fn arrival(&self, link: u32, tick: u32) -> Option<u32> {
        self.retiming.arrival(&self.below, link, tick)
    }

    fn latest_departure(&self, link: u32, tick: u32) -> Option<u32> {
        self.retiming.latest_departure(&self.below, link, tick)
    }

    fn first_out(&self, place: u32) -> u32 {
        self.below.first_out(place)
    }

    fn next_out(&self, link: u32) -> u32 {
        self.below.next_out(link)
    }

    fn first_in(&self, place: u32) -> u32 {
        self.below.first_in(place)
    }

    fn next_in(&self, link: u32) -> u32 {
        self.below.next_in(link)
    }
}

// So many ticks after a tick, or none above the last.
pub fn later(last: u32, by: u32, tick: u32) -> Option<u32>
    ensures { result ≡ later last by tick }
{
    tick.checked_add(by).filter(|later| *later <= last)
}
