// A book: words that obey every rule of their kind.
ghost use Rattle.std.specs.Prelude.{◌≡◌};
ghost use Rattle.records.specs.Rules.{Obeys};

use crate::kinds::BookKind;
use records::records::Records;
use std::marker::PhantomData;

#[derive(Drop)]
pub struct Book<K: BookKind> {
    pub(crate) records: Records,
    pub(crate) of: PhantomData<K>,
    ghost of_kind: { records.kind ≡ K.kind },
    ghost obeys: { ∥ Obeys records.kind records.words.items ∥₁ },
}
