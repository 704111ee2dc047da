// Books by their size, and questions by their bytes.
use crate::question::{Kind, Request, Unread};
use crate::{book_size, request};
use refusals::fault::{Cause, Fault, Record};
use std::test::Fail;

// The fault of a book that is cut short or too long.
const LENGTH: Fault = Fault {
    cause: Cause::Length,
    at: Record::Header,
};

#[test]
fn a_book_of_64_kib_is_taken(rt: HostRuntime) -> Result<(), Fail> {
    let mut words = [1, 1, 2729, 1, 100].to_vec(rt.alloc())?;
    words.resize(16384, 0)?;
    assert_eq!(rt; book_size(words.as_slice()), Ok(16384));
    Ok(())
}

#[test]
fn one_word_more_is_too_long(rt: HostRuntime) -> Result<(), Fail> {
    let mut words = [1, 3, 2729, 0, 100].to_vec(rt.alloc())?;
    words.resize(16385, 0)?;
    assert_eq!(rt; book_size(words.as_slice()), Err(LENGTH));
    Ok(())
}

#[test]
fn a_book_cut_short_is_refused(rt: HostRuntime) {
    assert_eq!(rt; book_size(&[1, 1, 0, 0, 100, 0]), Err(LENGTH));
}

#[test]
fn what_comes_after_the_book_does_not_matter(rt: HostRuntime) {
    assert_eq!(rt; book_size(&[1, 1, 0, 0, 100, 0, 0]), Ok(7));
    assert_eq!(rt; book_size(&[1, 1, 0, 0, 100, 0, 0, 9, 9]), Ok(7));
}

#[test]
fn each_kind_is_read(rt: HostRuntime) {
    assert_eq!(rt;
        request(&[0, 0, 0, 1, 0, 0, 0, 2, 0, 0, 0, 3, 0, 0, 1, 4]),
        Ok(Request {
            kind: Kind::DepartAt,
            start: 2,
            destination: 3,
            tick: 260,
        })
    );
    assert_eq!(rt;
        request(&[0, 0, 0, 2, 0, 0, 0, 2, 0, 0, 0, 3, 0, 0, 1, 4, 9]),
        Ok(Request {
            kind: Kind::ArriveBy,
            start: 2,
            destination: 3,
            tick: 260,
        })
    );
}

#[test]
fn short_comes_before_no_kind(rt: HostRuntime) {
    assert_eq!(rt;
        request(&[0, 0, 0, 7, 0, 0, 0, 2, 0, 0, 0, 3, 0, 0, 1]),
        Err(Unread::Short)
    );
    assert_eq!(rt;
        request(&[0, 0, 0, 3, 0, 0, 0, 2, 0, 0, 0, 3, 0, 0, 1, 4]),
        Err(Unread::NoKind)
    );
}
