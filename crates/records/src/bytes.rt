// Words in a run of bytes.
ghost use Rattle.std.specs.Prelude.{◌≡◌, IfOk};
ghost use Rattle.records.specs.Bytes.{words_in};

use std::alloc::{AllocError, Global};

// The whole words, most significant byte first. Up to three bytes at the end make no word.
pub fn words(heap: Global, bytes: &[u8]) -> Result<Vec<u32>, AllocError>
    ensures { IfOk result (λ v. v.items ≡ words_in bytes.now) }
{
    let (chunks, _) = bytes.as_chunks::<4>();
    chunks
        .iter()
        .map(|chunk| u32::from_be_bytes(*chunk))
        .collect(heap)
}
