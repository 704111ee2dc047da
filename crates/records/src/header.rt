// The header's five words, and the number of words that it asks for.
ghost use Rattle.std.specs.Prelude.{◌≡◌, drop, Some, None, MatchResult};
ghost use Rattle.records.specs.Layout.{header_in, within, size};
ghost use Rattle.records.specs.Faults.{header_fault, size_fault, or_else};

use crate::kind::Kind;
use crate::layout::Header;
use crate::records::Records;
use crate::refused::Refused;
use network::among;
use refusals::fault::{Cause, Fault, Record};

impl Header {
    fn within_limits(&self) -> bool
        ensures { result ≡ within self.now }
    {
        among(self.places, 1024)
            && self.links <= 4096
            && self.points <= 16384
            && among(self.last, 604800)
    }

    // How many words a book with this header has.
    pub fn size(&self) -> usize
        ensures { result ≡ size self.now }
    {
        5 + 2 * self.places as usize + 6 * self.links as usize + 3 * self.points as usize
    }

    // The header of a book of this kind and the words after it, or what is wrong with the header.
    #[tactic(auto, using(crate::proofs::Headers::other_kind))]
    pub fn split(words: &[u32], kind: Kind) -> Result<(Header, &[u32]), Fault>
        ensures { MatchResult result (λ x. (header_fault kind words.now ≡ None) × (x.0 ≡ header_in words.now) × (x.1.now ≡ drop 5 words.now)) (λ f. header_fault kind words.now ≡ Some f) }
    {
        let [first, places, links, points, last, rest @ ..] = words else {
            return Err(Cause::Length.at(Record::Header));
        };
        if *first != kind.number() {
            return Err(Cause::Kind.at(Record::Header));
        }
        let header = Header {
            places: *places,
            links: *links,
            points: *points,
            last: *last,
        };
        if !header.within_limits() {
            return Err(Cause::Limits.at(Record::Header));
        }
        Ok((header, rest))
    }
}

impl Records {
    // The words behind a right header of this kind, or the fault and the words again.
    pub fn read(words: Vec<u32>, kind: Kind) -> Result<Records, Refused>
        ensures { MatchResult result (λ s. (or_else (header_fault kind words.items) (size_fault words.items) ≡ None) × (s.kind ≡ kind) × (s.words ≡ words)) (λ e. (or_else (header_fault kind words.items) (size_fault words.items) ≡ Some e.fault) × (e.words ≡ words)) }
    {
        let header = match Header::split(words.as_slice(), kind) {
            Err(fault) => return Err(Refused { fault, words }),
            Ok((header, rest)) => {
                if 5 + rest.len() != header.size() {
                    return Err(Refused {
                        fault: Cause::Length.at(Record::Header),
                        words,
                    });
                }
                header
            }
        };
        Ok(Records {
            kind,
            words,
            header,
        })
    }
}
