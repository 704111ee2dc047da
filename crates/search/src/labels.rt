// The table of labels, one for each place, from place 1 on: 0 for none, else the arrival plus one, since it is lent as words and is zero
// again after.
ghost use Rattle.std.specs.Prelude.{◌≡◌, ◌≤◌, length};
ghost use Rattle.network.specs.Meaning.{Among};
ghost use Rattle.search.specs.Labels.{Lowers, NearIn, Past, Tells, arrivals_in, goal_arrival, is_near};
ghost use Rattle.search.specs.Counting.{Count};

use crate::estimate::Estimate;

// The arrival that a place's label says, or none.
pub(crate) fn arrival(labels: &[u32], place: u32) -> Option<u32>
    ensures { result ≡ arrivals_in labels.now place }
{
    let index = place.checked_sub(1)?;
    labels.get(index as usize)?.checked_sub(1)
}

// Lowers the label of a place to an arrival, if that is earlier, and says whether it did.
pub(crate) fn lower(labels: &mut [u32], place: u32, tick: u32) -> bool
    requires place { Among place (length labels.old) }
    requires early { tick ≤ 604800 }
    ensures { Lowers labels.old labels.new place tick result }
{
    let earlier = arrival(labels, place).is_none_or(|old| tick < old);
    if earlier {
        labels[place as usize - 1] = tick + 1;
    }
    earlier
}

// Says whether a key is past the arrival at the goal, where a goal is given.
pub(crate) fn is_past(labels: &[u32], goal: Option<u32>, key: u32) -> bool
    ensures { Tells (Past (goal_arrival labels.now goal) key) result }
{
    goal.and_then(|goal| arrival(labels, goal))
        .is_some_and(|bound| bound < key)
}

// Whether a place has a label that is, with the estimate, within a limit.
fn is_near<E: Estimate>(estimate: &E, labels: &[u32], place: u32, limit: Option<u32>) -> bool
    ensures { result ≡ is_near (E.Estimate.ahead estimate.now) limit place (arrivals_in labels.now place) }
{
    let Some(tick) = arrival(labels, place) else {
        return false;
    };
    // The estimate is asked only where there is a limit.
    limit.is_none_or(|limit| {
        // in 64 bits, where no sum wraps
        let near = u64::from(tick) + u64::from(estimate.ahead(place));
        near <= u64::from(limit)
    })
}

// How many of the first places have a label that is, with the estimate, within a limit.
pub(crate) fn taken<E: Estimate>(
    estimate: &E,
    labels: &[u32],
    places: u32,
    limit: Option<u32>,
) -> u32
    ensures { Count (NearIn (E.Estimate.ahead estimate.now) limit labels.now) places result }
{
    (1..=places)
        .filter(|place| is_near(estimate, labels, *place, limit))
        .count() as u32
}
