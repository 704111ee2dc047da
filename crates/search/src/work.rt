// What a search works on.
ghost use Rattle.std.specs.Prelude.{◌≡◌, length, replicate};
ghost use Rattle.search.specs.Labels.{Room};

use network::Network;
use queues::Queue;

// A guard over the cells of a search: they are zero again when it ends.
pub(crate) struct Work<'a> {
    pub(crate) cells: &'a mut [u32],
}

impl Drop for Work<'_> {
    fn drop(self)
        ensures { self.exit.0.now ≡ replicate (length self.entry.cells.now) 0 }
    {
        let Work { cells } = self;
        cells.fill(0);
    }
}

// A search over a network, with a label for each place. That a method leaves the network, the estimate and the lengths as they are is
// in its contract (`Stays`) and in no ghost field, since a field behind `&mut self` can be replaced.
#[derive(Drop)]
pub(crate) struct Search<'a, N: Network, E, Q: Queue> {
    pub(crate) net: &'a N,
    pub(crate) estimate: &'a E,
    pub(crate) queue: &'a mut Q,
    pub(crate) labels: &'a mut [u32],
    ghost room: { Room (N.Network.meaning net.now) labels.now (Q.Queue.capacity queue.now) },
}
