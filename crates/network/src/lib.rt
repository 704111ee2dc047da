// What every network of places and timed links shows, by its meaning.
#![tactic(auto)]

ghost use Rattle.std.specs.Prelude.{◌≡◌};
ghost use Rattle.network.specs.Meaning.{Meaning, among};
ghost use Rattle.network.specs.Laws.{Laws};
ghost use Rattle.network.specs.Latest.{latest, MeetsDeadline};
ghost use Rattle.network.specs.Same.{SameMeaningIsOne};
ghost use Rattle.network.specs.Links.{first_out, next_out, first_in, next_in, LowestIsLowest};

mod borrowed;

// A network. Each answer is fixed by the meaning for every number that a caller can pass: for a place, link or tick that isn't
// there, an arrival or a latest departure is none and every other answer is 0. That no link is left is said by 0 too, and by no
// Option: books say it so, and every network answers as a book does.
pub trait Network {
    ghost meaning: { Self → Meaning };

    fn places(&self) -> u32
        ensures { result ≡ (meaning self.now).places };

    fn links(&self) -> u32
        ensures { result ≡ (meaning self.now).links };

    fn last_tick(&self) -> u32
        ensures { result ≡ (meaning self.now).last };

    fn tail(&self, link: u32) -> u32
        ensures { result ≡ (meaning self.now).tail link };

    fn head(&self, link: u32) -> u32
        ensures { result ≡ (meaning self.now).head link };

    fn floor(&self, link: u32) -> u32
        ensures { result ≡ (meaning self.now).floor link };

    fn arrival(&self, link: u32, tick: u32) -> Option<u32>
        ensures { result ≡ (meaning self.now).arrival link tick };

    fn latest_departure(&self, link: u32, tick: u32) -> Option<u32>
        ensures { result ≡ latest (meaning self.now) link tick };

    fn first_out(&self, place: u32) -> u32
        ensures { result ≡ first_out (meaning self.now) place };

    fn next_out(&self, link: u32) -> u32
        ensures { result ≡ next_out (meaning self.now) link };

    fn first_in(&self, place: u32) -> u32
        ensures { result ≡ first_in (meaning self.now) place };

    fn next_in(&self, link: u32) -> u32
        ensures { result ≡ next_in (meaning self.now) link };

    ghost lawful: { (x : Self) → Laws (meaning x) };
}

// Whether k is one of the numbers 1 to n.
pub fn among(k: u32, n: u32) -> bool
    ensures { result ≡ among k n }
{
    (1..=n).contains(&k)
}

// Whether one who enters the link at the departure is through it by the deadline, for a deadline up to the last tick: exactly when the
// departure is no later than the latest one for it.
pub fn meets_deadline<N: Network>(network: &N, link: u32, departure: u32, deadline: u32) -> bool
    ensures { MeetsDeadline (N.Network.meaning network.now) link departure deadline result }
{
    network
        .latest_departure(link, deadline)
        .is_some_and(|latest| departure <= latest)
}

// Each link out of a place, or into it, is found once: first and next are the lowest links that are left.
pub fn lowest_is_lowest()
    ensures { LowestIsLowest }
{}

// Networks of one meaning are equal as meanings, whatever they are made of.
pub fn same_meaning_is_one()
    ensures { SameMeaningIsOne }
{}
