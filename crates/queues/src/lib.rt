// What every queue of places shows, by its meaning, and the queue that scans a table.
#![tactic(auto)]

ghost use Rattle.std.specs.Prelude.{◌≡◌, ℕ, Option};
ghost use Rattle.queues.specs.Queue.{Empty, Offered, Taken};

pub mod scan;
#[cfg(test)]
mod tests;

// A set of places, each held with one key. The place with the least key is taken first, and among equal keys the lowest place.
pub trait Queue {
    // the key of each place that is held, and none for every other
    ghost held: { Self → ℕ → Option ℕ };

    // the highest place that can be held; each method says that it stays, since a trait has no field that could
    ghost capacity: { Self → ℕ };

    fn capacity(&self) -> usize
        ensures { result ≡ capacity self.now };

    // Takes every place out.
    fn clear(&mut self)
        ensures capacity { capacity self.new ≡ capacity self.old }
        ensures empty { Empty (held self.new) };

    // Adds a place with a key, or lowers the key of one that is held. The answer is no for a place that can't be held.
    fn offer(&mut self, place: u32, key: u32) -> bool
        ensures capacity { capacity self.new ≡ capacity self.old }
        ensures offered { Offered (held self.old) (held self.new) (capacity self.old) place key result };

    // Takes out the place with the least key, and among equal keys the lowest. The answer is the key and the place.
    fn take(&mut self) -> Option<(u32, u32)>
        ensures capacity { capacity self.new ≡ capacity self.old }
        ensures taken { Taken (held self.old) (held self.new) result };
}
