// The way back over the labels.
ghost use Rattle.search.specs.Labels.{Carries, Sought, Tells};

use crate::labels::arrival;
use crate::links::{Links, Side};
use network::Network;

// Says whether a link, entered at the label of its tail, arrives at a tick.
fn carries<N: Network>(net: &N, labels: &[u32], link: u32, own: u32) -> bool
    ensures { Tells (Carries (N.Network.meaning net.now) labels.now own link) result }
{
    arrival(labels, net.tail(link))
        .and_then(|tick| net.arrival(link, tick))
        .is_some_and(|tick| tick == own)
}

// The lowest link into a place that fits the labels.
pub(crate) fn seek<N: Network>(net: &N, labels: &[u32], place: u32) -> Option<u32>
    ensures { Sought (N.Network.meaning net.now) labels.now place result }
{
    let own = arrival(labels, place)?;
    Links::new(net, Side::Into, place).find(|link| carries(net, labels, *link, own))
}
