// A network by reference is a network, with the same meaning: so a layer that owns the network below it can be put over one that
// stays where it is.
use crate::Network;

impl<'a, N: Network> Network for &'a N {
    ghost meaning = { λ s. N.Network.meaning s.now };

    ghost lawful = { λ x. N.Network.lawful x.now };

    fn places(&self) -> u32 {
        (**self).places()
    }

    fn links(&self) -> u32 {
        (**self).links()
    }

    fn last_tick(&self) -> u32 {
        (**self).last_tick()
    }

    fn tail(&self, link: u32) -> u32 {
        (**self).tail(link)
    }

    fn head(&self, link: u32) -> u32 {
        (**self).head(link)
    }

    fn floor(&self, link: u32) -> u32 {
        (**self).floor(link)
    }

    fn arrival(&self, link: u32, tick: u32) -> Option<u32> {
        (**self).arrival(link, tick)
    }

    fn latest_departure(&self, link: u32, tick: u32) -> Option<u32> {
        (**self).latest_departure(link, tick)
    }

    fn first_out(&self, place: u32) -> u32 {
        (**self).first_out(place)
    }

    fn next_out(&self, link: u32) -> u32 {
        (**self).next_out(link)
    }

    fn first_in(&self, place: u32) -> u32 {
        (**self).first_in(place)
    }

    fn next_in(&self, link: u32) -> u32 {
        (**self).next_in(link)
    }
}
