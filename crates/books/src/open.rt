// Opening a book.
ghost use Rattle.std.specs.Prelude.{◌≡◌, true, ◌↔◌, is_ok, IfOk, Some, None, MatchResult};
ghost use Rattle.records.specs.Contents.{book_in};
ghost use Rattle.records.specs.Faults.{header_fault, first_fault};
ghost use Rattle.records.specs.Layout.{header_in};
ghost use Rattle.books.specs.Opened.{open_book, fault_named, words_held};
ghost use Rattle.records.specs.Rules.{Obeys};

use crate::book::Book;
use crate::kinds::BookKind;
use records::checks::Check;
use records::layout::Header;
use records::records::Records;
use records::refused::Refused;
use refusals::fault::Fault;
use std::marker::PhantomData;

impl<K: BookKind> Book<K> {
    // What the first five words say, or what is wrong with them. The number of words after them isn't judged.
    pub fn header(words: &[u32]) -> Result<Header, Fault>
        ensures { MatchResult result (λ h. (header_fault K.kind words.now ≡ None) × (h ≡ header_in words.now)) (λ f. header_fault K.kind words.now ≡ Some f) }
    {
        let (header, _) = Header::split(words, K::kind())?;
        Ok(header)
    }

    // The words as a book, if they obey every rule of its kind; else the first fault, and the words again.
    pub fn open(words: Vec<u32>) -> Result<Book<K>, Refused>
        ensures accepted { (is_ok result ≡ true) ↔ Obeys K.kind words.items }
        ensures book { IfOk result (λ b. open_book b ≡ book_in K.kind words.items) }
        ensures fault { fault_named result ≡ first_fault K.kind words.items }
        ensures words { words_held result ≡ words }
    {
        let kind = K::kind();
        let records = Records::read(words, kind)?;
        let checks = [
            Check::Links,
            Check::Points,
            Check::PlaceChains,
            Check::LinkChains,
            Check::Times,
        ];
        if let Some(fault) = records.first_fault(&checks) {
            return Err(Refused {
                fault,
                words: records.words,
            });
        }
        Ok(Book {
            records,
            of: PhantomData,
        })
    }
}
