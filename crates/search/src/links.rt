// The links out of a place, or into it.
ghost use Rattle.std.specs.Prelude.{◌≡◌};
ghost use Rattle.std.specs.Iterator.{at_most};
ghost use Rattle.network.specs.Links.{first};
ghost use Rattle.search.specs.LinkWalks.{end_on, link_steps, links_left};

use network::Network;

// Which links of a place: a value, so that one iterator serves both.
#[derive(Clone, Copy)]
pub(crate) enum Side {
    Out,
    Into,
}

// The links still to come, in rising order; the next of them is 0 where none is left, as every network says it.
#[derive(Drop)]
pub(crate) struct Links<'a, N> {
    net: &'a N,
    side: Side,
    next: u32,
}

impl<'a, N: Network> Links<'a, N> {
    pub(crate) fn new(net: &'a N, side: Side, place: u32) -> Links<'a, N>
        ensures network { result.net ≡ net.entry }
        ensures side { result.side ≡ side }
        ensures first { result.next ≡ first (N.Network.meaning net.now) (end_on (N.Network.meaning net.now) side) place }
    {
        let next = match side {
            Side::Out => net.first_out(place),
            Side::Into => net.first_in(place),
        };
        Links { net, side, next }
    }
}

impl<'a, N: Network> Iterator for Links<'a, N> {
    type Item = u32;

    ghost next_gives = { link_steps N.Network.meaning };

    ghost remaining = { λ s. at_most (links_left (N.Network.meaning s.net.now).links s.next) };

    fn next(&mut self) -> Option<u32> {
        let link = self.next;
        if link == 0 {
            return None;
        }
        self.next = match self.side {
            Side::Out => self.net.next_out(link),
            Side::Into => self.net.next_in(link),
        };
        Some(link)
    }
}
