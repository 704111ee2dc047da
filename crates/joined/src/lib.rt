// Two networks as one.
#![tactic(auto)]

ghost use Rattle.std.specs.Prelude.{◌≡◌, ◌≤◌};
ghost use Rattle.joined.specs.Joined.{misfit, joined, second_link, numbered_on};
ghost use Rattle.joined.specs.Joins.{joined_laws};

use network::Network;
use refusals::joining::Misfit;

// The second's links are numbered on after the first's. Two that don't fit mean the first alone.
#[derive(Drop)]
pub struct Joined<A, B> {
    pub first: A,
    pub second: B,
}

// Two networks that can't be joined, handed back.
#[derive(Drop)]
pub struct Unjoined<A, B> {
    pub misfit: Misfit,
    pub first: A,
    pub second: B,
}

impl<A: Network, B: Network> Joined<A, B> {
    ghost use Rattle.joined.specs.Answered.{misfit_in, halves_in};

    // The two as one, if they fit.
    pub fn join(first: A, second: B) -> Result<Joined<A, B>, Unjoined<A, B>>
        ensures reply { misfit_in result ≡ misfit (A.Network.meaning first) (B.Network.meaning second) }
        ensures halves { halves_in result ≡ (first, second) }
    {
        let two = Joined { first, second };
        match two.misfit() {
            None => Ok(two),
            Some(misfit) => {
                let Joined { first, second } = two;
                Err(Unjoined {
                    misfit,
                    first,
                    second,
                })
            }
        }
    }

    // Why the two don't fit, or none.
    pub fn misfit(&self) -> Option<Misfit>
        ensures { result ≡ misfit (A.Network.meaning self.now.first) (B.Network.meaning self.now.second) }
    {
        if self.first.places() != self.second.places()
            || self.first.last_tick() != self.second.last_tick()
        {
            return Some(Misfit::Unequal);
        }
        if self.first.links() + self.second.links() > 8192 {
            return Some(Misfit::TooManyLinks);
        }
        None
    }

    // The second's own number for a link, if it is one of the second's.
    fn second_link(&self, link: u32) -> Option<u32>
        ensures { result ≡ second_link (A.Network.meaning self.now.first) (B.Network.meaning self.now.second) link }
    {
        let links = self.first.links();
        if link <= links || self.misfit().is_some() {
            return None;
        }
        Some(link - links)
    }

    // The number here of a link of the second; 0 for no link.
    fn numbered_on(&self, link: u32) -> u32
        requires { link ≤ (B.Network.meaning self.now.second).links }
        ensures { result ≡ numbered_on (A.Network.meaning self.now.first) (B.Network.meaning self.now.second) link }
    {
        if link == 0 || self.misfit().is_some() {
            return 0;
        }
        self.first.links() + link
    }
}

impl<A: Network, B: Network> Network for Joined<A, B> {
    ghost meaning = { λ s. joined (A.Network.meaning s.first) (B.Network.meaning s.second) };

    ghost lawful = { λ x. joined_laws (A.Network.meaning x.first) (B.Network.meaning x.second) (A.Network.lawful x.first) (B.Network.lawful x.second) };

    fn places(&self) -> u32 {
        self.first.places()
    }

    fn links(&self) -> u32 {
        if self.misfit().is_some() {
            return self.first.links();
        }
        self.first.links() + self.second.links()
    }

    fn last_tick(&self) -> u32 {
        self.first.last_tick()
    }

    fn tail(&self, link: u32) -> u32 {
        match self.second_link(link) {
            None => self.first.tail(link),
            Some(second) => self.second.tail(second),
        }
    }

    fn head(&self, link: u32) -> u32 {
        match self.second_link(link) {
            None => self.first.head(link),
            Some(second) => self.second.head(second),
        }
    }

    fn floor(&self, link: u32) -> u32 {
        match self.second_link(link) {
            None => self.first.floor(link),
            Some(second) => self.second.floor(second),
        }
    }

    fn arrival(&self, link: u32, tick: u32) -> Option<u32> {
        match self.second_link(link) {
            None => self.first.arrival(link, tick),
            Some(second) => self.second.arrival(second, tick),
        }
    }

    fn latest_departure(&self, link: u32, tick: u32) -> Option<u32> {
        match self.second_link(link) {
            None => self.first.latest_departure(link, tick),
            Some(second) => self.second.latest_departure(second, tick),
        }
    }

    // First and next links, out and in, are four questions of a network, and so four functions here too; what they share is
    // `numbered_on`. 0 says that there is none, as of every network.
    fn first_out(&self, place: u32) -> u32 {
        let first = self.first.first_out(place);
        if first != 0 {
            return first;
        }
        self.numbered_on(self.second.first_out(place))
    }

    fn next_out(&self, link: u32) -> u32 {
        if let Some(second) = self.second_link(link) {
            return self.numbered_on(self.second.next_out(second));
        }
        let next = self.first.next_out(link);
        if next != 0 {
            return next;
        }
        self.numbered_on(self.second.first_out(self.first.tail(link)))
    }

    fn first_in(&self, place: u32) -> u32 {
        let first = self.first.first_in(place);
        if first != 0 {
            return first;
        }
        self.numbered_on(self.second.first_in(place))
    }

    fn next_in(&self, link: u32) -> u32 {
        if let Some(second) = self.second_link(link) {
            return self.numbered_on(self.second.next_in(second));
        }
        let next = self.first.next_in(link);
        if next != 0 {
            return next;
        }
        self.numbered_on(self.second.first_in(self.first.head(link)))
    }
}
