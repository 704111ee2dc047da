// The worked example: the Quay book, with three places and four links, and a ferry's timetable that can be joined to it.
#![tactic(auto)]

ghost use Rattle.std.specs.Prelude.{◌≡◌, IfOk};
ghost use Rattle.quay.specs.Quay.{quay_words, Rows};
ghost use Rattle.quay.specs.Ferry.{ferry_words};
ghost use Rattle.quay.specs.Changes.{changed};

use std::alloc::{AllocError, Global};

// The book's words; a comment ends each part.
pub fn words() -> [u32; 62]
    ensures { result ≡ quay_words }
{
    [
        1, 3, 4, 9, 100, // header
        1, 0, 2, 1, 0, 2, // places
        1, 2, 3, 0, 5, 1, 2, 3, 0, 3, 5, 4, 1, 3, 4, 4, 20, 6, 1, 3, 0, 0, 20, 8, // links
        0, 10, 2, 10, 15, 3, 20, 40, 0, 0, 20, 5, 30, 40, 0, 0, 30, 7, 40, 60, 0, 0, 26, 9, 40, 60,
        0, // points
    ]
}

// The ferry's words.
pub fn ferry_words() -> [u32; 26]
    ensures { result ≡ ferry_words }
{
    [
        2, 3, 1, 3, 100, // header
        0, 0, 1, 0, 0, 1, // places
        2, 3, 0, 0, 10, 1, // links
        10, 40, 2, 20, 30, 3, 50, 70, 0, // points
    ]
}

// The rows hold of the definitions.
pub fn rows()
    ensures { Rows }
{}

// Words with some of them changed, each given by its index.
pub fn changed(
    heap: Global,
    words: &[u32],
    changes: &[(usize, u32)],
) -> Result<Vec<u32>, AllocError>
    ensures { IfOk result (λ v. v.items ≡ changed words.now changes.now) }
{
    let mut changed = words.to_vec(heap)?;
    for (at, word) in changes {
        if *at < changed.len() {
            changed[*at] = *word;
        }
    }
    Ok(changed)
}
