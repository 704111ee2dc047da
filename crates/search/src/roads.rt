// The road list, found backward by the labels of a search. Network and labels are two arguments, here and in `seek`: as methods of `Search`
// these would carry an estimate and a queue besides, which they have no use for.
ghost use Rattle.std.specs.Prelude.{◌≡◌, ℕ, ◌≤◌, List, length};
ghost use Rattle.std.specs.Iterator.{at_most};
ghost use Rattle.journeys.specs.Roads.{Back};
ghost use Rattle.search.specs.Labels.{arrivals_in, label};
ghost use Rattle.search.specs.RoadLists.{Labelled, back_steps};

use crate::seek::seek;
use network::Network;

// The roads from a place back to the start.
#[derive(Drop)]
pub(crate) struct RoadsBack<'a, N> {
    net: &'a N,
    labels: &'a [u32],
    start: u32,
    at: u32,
}

impl<'a, N: Network> RoadsBack<'a, N> {
    pub(crate) fn new(net: &'a N, labels: &'a [u32], start: u32, place: u32) -> RoadsBack<'a, N>
        ensures { result ≡ record { net = net.entry; labels = labels.entry; start = start; at = place } }
    {
        RoadsBack {
            net,
            labels,
            start,
            at: place,
        }
    }
}

impl<'a, N: Network> Iterator for RoadsBack<'a, N> {
    type Item = u32;

    ghost next_gives = { back_steps N.Network.meaning };

    ghost remaining = { λ s. at_most (label s.labels.now s.at) };

    fn next(&mut self) -> Option<u32> {
        if self.at == self.start {
            return None;
        }
        let link = seek(self.net, self.labels, self.at)?;
        self.at = self.net.tail(link);
        Some(link)
    }
}

// How many roads lead from a place back to the start.
pub(crate) fn count_roads<N: Network>(net: &N, labels: &[u32], start: u32, place: u32) -> u32
    requires labelled { Labelled (N.Network.meaning net.now) labels.now place }
    ensures { (back : List ℕ) → Back (N.Network.meaning net.now) (arrivals_in labels.now) start place back → result ≡ length back }
{
    RoadsBack::new(net, labels, start, place).count() as u32
}

// Writes the roads from a place back to the start to a list.
pub(crate) fn write_roads<N: Network>(
    net: &N,
    labels: &[u32],
    list: &mut [u32],
    start: u32,
    place: u32,
)
    requires labelled { Labelled (N.Network.meaning net.now) labels.now place }
    ensures { (back : List ℕ) → Back (N.Network.meaning net.now) (arrivals_in labels.now) start place back → length list.old ≡ length back → list.new ≡ back }
{
    // Not by `zip`: over an adapter of `iter_mut` an invariant has no name for the list, so the proof doesn't close.
    let mut roads = RoadsBack::new(net, labels, start, place);
    for cell in list.iter_mut() {
        let Some(road) = roads.next() else {
            return;
        };
        *cell = road;
    }
}
