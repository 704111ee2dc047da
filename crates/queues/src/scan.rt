// The queue that scans a table of keys: the table's first entry is for place 1, and so on.
ghost use Rattle.std.specs.Prelude.{◌≡◌, length, vec_len};
ghost use Rattle.queues.specs.Queue.{Empty, Offered, BestOf, Taken};
ghost use Rattle.queues.specs.Scan.{held_in};

use crate::Queue;

#[derive(Drop)]
pub struct ScanQueue {
    keys: Vec<Option<u32>>,
}

impl ScanQueue {
    // An empty queue over a table, whatever the table held.
    pub fn new(mut keys: Vec<Option<u32>>) -> ScanQueue
        ensures capacity { vec_len result.keys ≡ vec_len keys }
        ensures empty { Empty (held_in result.keys.items) }
    {
        empty(&mut keys);
        ScanQueue { keys }
    }

    // The table, to be used again.
    pub fn into_table(self) -> Vec<Option<u32>>
        ensures { result ≡ self.keys }
    {
        self.keys
    }
}

impl Queue for ScanQueue {
    ghost held = { λ s. held_in s.keys.items };

    ghost capacity = { λ s. vec_len s.keys };

    fn capacity(&self) -> usize {
        self.keys.len()
    }

    fn clear(&mut self) {
        empty(&mut self.keys);
    }

    fn offer(&mut self, place: u32, key: u32) -> bool {
        lower(&mut self.keys, place, key)
    }

    fn take(&mut self) -> Option<(u32, u32)> {
        take_best(&mut self.keys)
    }
}

// Takes every key out of a table.
fn empty(keys: &mut [Option<u32>])
    ensures { Empty (held_in keys.new) }
{
    keys.fill(None);
}

// Adds a place to a table or lowers its key, if the table has an entry for it.
fn lower(keys: &mut [Option<u32>], place: u32, key: u32) -> bool
    ensures { Offered (held_in keys.old) (held_in keys.new) (length keys.old) place key result }
{
    if place == 0 || place as usize > keys.len() {
        return false;
    }
    // Tested and then indexed: `checked_sub` and `get_mut` would take as many lines, and a closure.
    let at = place as usize - 1;
    keys[at] = Some(keys[at].map_or(key, |old| old.min(key)));
    true
}

// Takes the best pair out of a table.
fn take_best(keys: &mut [Option<u32>]) -> Option<(u32, u32)>
    ensures { Taken (held_in keys.old) (held_in keys.new) result }
{
    let (key, place) = best(keys)?;
    keys[place as usize - 1] = None;
    Some((key, place))
}

// The pair with the least key in a table, and among equal keys the one with the lowest place.
fn best(keys: &[Option<u32>]) -> Option<(u32, u32)>
    ensures { BestOf (held_in keys.now) result }
{
    keys.iter()
        .enumerate()
        .filter_map(|(at, key)| Some(((*key)?, u32::try_from(at + 1).ok()?)))
        .min_by_key(|(key, _)| *key)
}
