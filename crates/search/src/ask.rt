// Both questions, over any network, with any queue and any estimate.
ghost use Rattle.std.specs.Prelude.{◌≡◌, ◌≤◌, length, drop, Some, None, MatchResult};
ghost use Rattle.network.specs.Meaning.{IsPlace};
ghost use Rattle.queues.specs.Queue.{Empty};
ghost use Rattle.search.specs.Labels.{Found, Sound};
ghost use Rattle.search.specs.Searching.{Stays};
ghost use Rattle.search.specs.Estimate.{Fit};
ghost use Rattle.search.specs.Question.{ArrivesBy, Asks, DepartsAt, Searched, back_tick, counted_back, filled, left, lent, refusal_of};

use crate::estimate::Estimate;
use crate::labels::{arrival, taken};
use crate::memory::Memory;
use crate::question::{Answer, Question};
use crate::roads::{count_roads, write_roads};
use crate::work::{Search, Work};
use layers::turned::Turned;
use network::{Network, among};
use queues::Queue;
use refusals::refusal::Refusal;

// Refuses a question before the search.
#[tactic(auto, unfolding(crate::specs::Question::refusal_of))]
fn admit<N: Network, Q: Queue>(
    net: &N,
    queue: &Q,
    table: usize,
    question: Question,
) -> Result<(), Refusal>
    ensures { let refusal = refusal_of (N.Network.meaning net.now) table (Q.Queue.capacity queue.now) question.start question.destination question.tick in MatchResult result (λ _. refusal ≡ None) (λ r. refusal ≡ Some r) }
{
    let places = net.places();
    if !among(question.start, places) || !among(question.destination, places) {
        return Err(Refusal::NoPlace);
    }
    if question.tick > net.last_tick() {
        return Err(Refusal::NoTick);
    }
    if table < places as usize {
        return Err(Refusal::ShortTable);
    }
    if queue.capacity() < places as usize {
        return Err(Refusal::ShortQueue);
    }
    Ok(())
}

// That the roads are no more than the cells of the list (`within`) is said by `told`, `answer` and `ask`, fit estimate or not: an answer
// is a number of roads and doesn't know the list.
impl<'a, N: Network, E: Estimate, Q: Queue> Search<'a, N, E, Q> {
    // The answer by the labels of a search for the destination; the roads stand as they are found, from the destination back.
    fn told(&self, list: &mut [u32], question: Question) -> Result<Answer, Refusal>
        requires start { IsPlace (N.Network.meaning self.now.net.now) question.start }
        requires destination { IsPlace (N.Network.meaning self.now.net.now) question.destination }
        requires tick { question.tick ≤ (N.Network.meaning self.now.net.now).last }
        requires sound { Sound (N.Network.meaning self.now.net.now) question.start question.tick self.now.labels.now }
        ensures told { Fit (N.Network.meaning self.now.net.now) (E.Estimate.ahead self.now.estimate.now) question.destination → Found (N.Network.meaning self.now.net.now) (E.Estimate.ahead self.now.estimate.now) question.start question.tick (Some question.destination) self.now.labels.now → Searched (N.Network.meaning self.now.net.now) (E.Estimate.ahead self.now.estimate.now) question.start question.destination question.tick list.new result }
        ensures within { filled result ≤ length list.old }
        ensures list { drop (filled result) list.new ≡ drop (filled result) list.old }
    {
        let Question {
            start,
            destination,
            ..
        } = question;
        let reached = arrival(self.labels, destination);
        let taken = taken(self.estimate, self.labels, self.net.places(), reached);
        let Some(tick) = reached else {
            return Ok(Answer::NoWay { taken });
        };
        let roads = count_roads(self.net, self.labels, start, destination);
        if roads as usize > list.len() {
            return Err(Refusal::ShortList { needed: roads });
        }
        let front = &mut list[..roads as usize];
        write_roads(self.net, self.labels, front, start, destination);
        Ok(Answer::Found { tick, roads, taken })
    }

    // The answer to a question that is not refused before the search.
    fn answer(&mut self, list: &mut [u32], question: Question) -> Result<Answer, Refusal>
        requires start { IsPlace (N.Network.meaning self.old.net.now) question.start }
        requires destination { IsPlace (N.Network.meaning self.old.net.now) question.destination }
        requires tick { question.tick ≤ (N.Network.meaning self.old.net.now).last }
        ensures stays { Stays self.old self.new }
        ensures told { Fit (N.Network.meaning self.old.net.now) (E.Estimate.ahead self.old.estimate.now) question.destination → Searched (N.Network.meaning self.old.net.now) (E.Estimate.ahead self.old.estimate.now) question.start question.destination question.tick list.new result }
        ensures within { filled result ≤ length list.old }
        ensures list { drop (filled result) list.new ≡ drop (filled result) list.old }
        ensures empty { Empty (Q.Queue.held self.new.queue.now) }
    {
        self.run(question.start, question.tick, Some(question.destination));
        self.told(list, question)
    }
}

// Asks over the network that is searched; the roads stand as they are found, from the destination back. It takes the memory in parts. (Of
// a `Memory` that is handed on whole, next to a reference to a network made here, the check no longer knows what it holds.)
fn ask<'a, N: Network, E: Estimate, Q: Queue>(
    net: &'a N,
    estimate: &'a E,
    queue: &'a mut Q,
    table: &'a mut [u32],
    list: &mut [u32],
    question: Question,
) -> Result<Answer, Refusal>
    ensures asked { Asks (N.Network.meaning net.now) (E.Estimate.ahead estimate.now) question (record { table = table.old; list = list.old; held = Q.Queue.held queue.old; capacity = Q.Queue.capacity queue.old }) (record { table = table.new; list = list.new; held = Q.Queue.held queue.new; capacity = Q.Queue.capacity queue.new }) result }
    ensures within { filled result ≤ length list.old }
{
    admit(net, queue, table.len(), question)?;
    let (cells, _) = table.split_at_mut(net.places() as usize);
    let work = Work { cells };
    let mut search = Search {
        net,
        estimate,
        queue,
        labels: work.cells,
    };
    search.answer(list, question)
}

// Leaving the start at the tick, how soon is one at the destination, and by which roads.
pub fn depart_at<N: Network, E: Estimate, Q: Queue>(
    net: &N,
    estimate: &E,
    memory: Memory<'_, Q>,
    question: Question,
) -> Result<Answer, Refusal>
    ensures { DepartsAt (N.Network.meaning net.now) (E.Estimate.ahead estimate.now) question (lent Q.Queue.held Q.Queue.capacity memory.entry) (left Q.Queue.held Q.Queue.capacity memory.exit) result }
{
    let Memory { queue, table, list } = memory;
    let answer = ask(net, estimate, queue, table, list, question)?;
    list[..answer.roads() as usize].reverse();
    Ok(answer)
}

// A tick counted back from the last; one above the last stays above it.
fn back_tick(last: u32, tick: u32) -> u32
    requires { last ≤ 604800 }
    ensures { result ≡ back_tick last tick }
{
    last.checked_sub(tick).unwrap_or(last + 1)
}

// The reply of a search on the turned network, with its tick counted back.
fn counted_back(last: u32, reply: Result<Answer, Refusal>) -> Result<Answer, Refusal>
    ensures { result ≡ counted_back last reply }
{
    match reply? {
        Answer::Found { tick, roads, taken } => Ok(Answer::Found {
            tick: last.saturating_sub(tick),
            roads,
            taken,
        }),
        no_way => Ok(no_way),
    }
}

// To be at the destination by the tick, how late may one leave the start, and by which roads.
pub fn arrive_by<N: Network, E: Estimate, Q: Queue>(
    net: &N,
    estimate: &E,
    memory: Memory<'_, Q>,
    question: Question,
) -> Result<Answer, Refusal>
    ensures { ArrivesBy (N.Network.meaning net.now) (E.Estimate.ahead estimate.now) question (lent Q.Queue.held Q.Queue.capacity memory.entry) (left Q.Queue.held Q.Queue.capacity memory.exit) result }
{
    let Memory { queue, table, list } = memory;
    let last = net.last_tick();
    let backward = Question {
        start: question.destination,
        destination: question.start,
        tick: back_tick(last, question.tick),
    };
    let turned = Turned::new(net);
    let reply = ask(&turned, estimate, queue, table, list, backward);
    counted_back(last, reply)
}
