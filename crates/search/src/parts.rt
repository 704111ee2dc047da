// Both questions, lent their memory in parts: for a caller who holds each part by a reference of its own and asks more than once. (The
// check can't follow a caller who makes two `Memory`s, one after the other, of the same three references.)
ghost use Rattle.search.specs.Question.{ArrivesBy, DepartsAt};

use crate::ask;
use crate::estimate::Estimate;
use crate::memory::Memory;
use crate::question::{Answer, Question};
use network::Network;
use queues::Queue;
use refusals::refusal::Refusal;

// As `depart_at`.
pub fn depart_at<N: Network, E: Estimate, Q: Queue>(
    net: &N,
    estimate: &E,
    queue: &mut Q,
    table: &mut [u32],
    list: &mut [u32],
    question: Question,
) -> Result<Answer, Refusal>
    ensures { DepartsAt (N.Network.meaning net.now) (E.Estimate.ahead estimate.now) question (record { table = table.old; list = list.old; held = Q.Queue.held queue.old; capacity = Q.Queue.capacity queue.old }) (record { table = table.new; list = list.new; held = Q.Queue.held queue.new; capacity = Q.Queue.capacity queue.new }) result }
{
    ask::depart_at(net, estimate, Memory { queue, table, list }, question)
}

// As `arrive_by`.
pub fn arrive_by<N: Network, E: Estimate, Q: Queue>(
    net: &N,
    estimate: &E,
    queue: &mut Q,
    table: &mut [u32],
    list: &mut [u32],
    question: Question,
) -> Result<Answer, Refusal>
    ensures { ArrivesBy (N.Network.meaning net.now) (E.Estimate.ahead estimate.now) question (record { table = table.old; list = list.old; held = Q.Queue.held queue.old; capacity = Q.Queue.capacity queue.old }) (record { table = table.new; list = list.new; held = Q.Queue.held queue.new; capacity = Q.Queue.capacity queue.new }) result }
{
    ask::arrive_by(net, estimate, Memory { queue, table, list }, question)
}
