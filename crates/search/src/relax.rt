// The search itself: the links of each place that is taken out of the queue are relaxed, until no pair left in it can matter.
ghost use Rattle.std.specs.Prelude.{◌≡◌, ◌+◌, ◌≤◌, None};
ghost use Rattle.network.specs.Meaning.{IsLink, IsPlace};
ghost use Rattle.queues.specs.Queue.{Empty};
ghost use Rattle.search.specs.Estimate.{Consistent};
ghost use Rattle.search.specs.Labels.{Found, Past, Sound, Tells, arrivals_in, goal_arrival, label};
ghost use Rattle.search.specs.Searching.{Stays};
ghost use Rattle.search.specs.Steps.{State, Step, Walk};

use crate::estimate::Estimate;
use crate::labels::{arrival, is_past, lower};
use crate::links::{Links, Side};
use crate::work::Search;
use network::Network;
use queues::Queue;

// That a place or a tick is one is asked by each method: they are arguments of the question, and no part of what a search works on.
impl<'a, N: Network, E: Estimate, Q: Queue> Search<'a, N, E, Q> {
    // The arrival that a place's label says, or none. (This and the next are methods, since of labels lent on from behind `&mut self` the
    // check no longer knows what they hold.)
    fn arrival(&self, place: u32) -> Option<u32>
        ensures { result ≡ arrivals_in self.now.labels.now place }
    {
        arrival(self.labels, place)
    }

    // Says whether a key is past the arrival at the goal, where a goal is given.
    fn is_past(&self, goal: Option<u32>, key: u32) -> bool
        ensures { Tells (Past (goal_arrival self.now.labels.now goal) key) result }
    {
        is_past(self.labels, goal, key)
    }

    // Relaxes a link from a tick: its head's label is lowered to the arrival, if that is earlier, and the head is offered to the queue.
    fn relax(&mut self, link: u32, tick: u32)
        requires link { IsLink (N.Network.meaning self.old.net.now) link }
        requires tick { tick ≤ (N.Network.meaning self.old.net.now).last }
        ensures stays { Stays self.old self.new }
        ensures step { Step (N.Network.meaning self.old.net.now) (E.Estimate.ahead self.old.estimate.now) link tick self.old.labels.now self.new.labels.now (Q.Queue.held self.old.queue.now) (Q.Queue.held self.new.queue.now) }
    {
        let Some(arrival) = self.net.arrival(link, tick) else {
            return;
        };
        let head = self.net.head(link);
        if lower(self.labels, head, arrival) {
            self.queue.offer(head, arrival + self.estimate.ahead(head));
        }
    }

    // Relaxes each link out of a place, from the tick of its label.
    fn relax_out(&mut self, place: u32)
        requires place { IsPlace (N.Network.meaning self.old.net.now) place }
        requires labelled { 1 ≤ label self.old.labels.now place }
        requires early { label self.old.labels.now place ≤ (N.Network.meaning self.old.net.now).last + 1 }
        requires taken { Q.Queue.held self.old.queue.now place ≡ None }
        ensures stays { Stays self.old self.new }
        ensures walk { Walk (N.Network.meaning self.old.net.now) (E.Estimate.ahead self.old.estimate.now) place 0 self.old.labels.now self.new.labels.now (Q.Queue.held self.old.queue.now) (Q.Queue.held self.new.queue.now) }
    {
        let Some(tick) = self.arrival(place) else {
            return;
        };
        for link in Links::new(self.net, Side::Out, place) {
            self.relax(link, tick);
        }
    }

    // Labels and holds the start alone.
    fn begin(&mut self, start: u32, tick: u32)
        requires start { IsPlace (N.Network.meaning self.old.net.now) start }
        requires tick { tick ≤ (N.Network.meaning self.old.net.now).last }
        ensures stays { Stays self.old self.new }
        ensures state { State (N.Network.meaning self.old.net.now) (E.Estimate.ahead self.old.estimate.now) start tick 0 0 self.new.labels.now (Q.Queue.held self.new.queue.now) }
    {
        self.labels.fill(0);
        self.queue.clear();
        lower(self.labels, start, tick);
        self.queue.offer(start, tick + self.estimate.ahead(start));
    }

    // With a consistent estimate, labels each place with its earliest arrival from the start at the tick; where a goal is given, at
    // least each place whose arrival is, with the estimate, no later than the goal's.
    pub(crate) fn run(&mut self, start: u32, tick: u32, goal: Option<u32>)
        requires start { IsPlace (N.Network.meaning self.old.net.now) start }
        requires tick { tick ≤ (N.Network.meaning self.old.net.now).last }
        ensures stays { Stays self.old self.new }
        ensures sound { Sound (N.Network.meaning self.old.net.now) start tick self.new.labels.now }
        ensures found { Consistent (N.Network.meaning self.old.net.now) (E.Estimate.ahead self.old.estimate.now) → Found (N.Network.meaning self.old.net.now) (E.Estimate.ahead self.old.estimate.now) start tick goal self.new.labels.now }
        ensures empty { Empty (Q.Queue.held self.new.queue.now) }
    {
        self.begin(start, tick);
        // By `while`, since a queue is no iterator: what is taken is held again if its label falls.
        while let Some((key, place)) = self.queue.take() {
            if self.is_past(goal, key) {
                break;
            }
            self.relax_out(place);
        }
        self.queue.clear();
    }
}
