// A book's words behind a header that is right.
ghost use Rattle.std.specs.Prelude.{◌≡◌, true, length};
ghost use Rattle.records.specs.Layout.{header_in, within, size};

use crate::kind::Kind;
use crate::layout::Header;

#[derive(Drop)]
pub struct Records {
    pub kind: Kind,
    pub words: Vec<u32>,
    pub header: Header,
    ghost read: { header ≡ header_in words.items },
    ghost limits: { within header ≡ true },
    ghost full: { length words.items ≡ size header },
}
