// What an input asks: how much of it is the book at its front, and the questions after that.
#![tactic(auto)]

ghost use Rattle.std.specs.Prelude.{◌≡◌, ◌≤◌, length, IfOk, Some, None, MatchResult};
ghost use Rattle.records.specs.Layout.{header_in, size};
ghost use Rattle.requests.specs.Requests.{front_fault, request_in};

use crate::question::{Kind, Request, Unread};
use books::RoadBook;
use refusals::fault::{Cause, Fault, Record};

pub mod question;
#[cfg(test)]
mod tests;

// A book's most words: 64 KiB of them.
const MOST: usize = 16384;

// How many of the words are the book at their front, or what is wrong with it. The book's records aren't judged.
#[tactic(auto, unfolding(crate::specs::Requests::front_fault))]
pub fn book_size(words: &[u32]) -> Result<usize, Fault>
    ensures cases { MatchResult result (λ n. (front_fault words.now ≡ None) × (n ≡ size (header_in words.now))) (λ f. front_fault words.now ≡ Some f) }
    ensures within { IfOk result (λ n. n ≤ length words.now) }
{
    let header = RoadBook::header(words)?;
    let size = header.size();
    if words.len() < size || size > MOST {
        return Err(Cause::Length.at(Record::Header));
    }
    Ok(size)
}

// The question in the first sixteen bytes. What comes after them isn't read.
pub fn request(bytes: &[u8]) -> Result<Request, Unread>
    ensures { result ≡ request_in bytes.now }
{
    let (words, _) = bytes.as_chunks::<4>();
    let [kind, start, destination, tick, ..] = words else {
        return Err(Unread::Short);
    };
    Ok(Request {
        kind: Kind::try_from(u32::from_be_bytes(*kind))?,
        start: u32::from_be_bytes(*start),
        destination: u32::from_be_bytes(*destination),
        tick: u32::from_be_bytes(*tick),
    })
}
