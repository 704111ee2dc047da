// What a book is of, as a type.
ghost use Rattle.std.specs.Prelude.{◌≡◌, None};
ghost use Rattle.records.specs.declared.kind.Kind.{Kind};
ghost use Rattle.records.specs.Contents.{unnumbered};
ghost use Rattle.records.specs.Reading.{to_come};
ghost use Rattle.records.specs.Rules.{Ordered};
ghost use Rattle.books.specs.Networks.{arrival_by, back_by};

use records::chain::Chain;
use records::kind::Kind;

// How the points along a chain say when a link arrives. Its module is private, so nobody but a book calls these functions, which ask
// for points in order.
pub trait BookKind {
    ghost kind: { Kind };

    fn kind() -> Kind
        ensures { result ≡ kind };

    // The arrival for a tick.
    fn arrival(points: Chain<'_>, tick: u32) -> Option<u32>
        requires { Ordered kind None (unnumbered (to_come points)) }
        ensures { result ≡ arrival_by kind (unnumbered (to_come points.entry)) tick };

    // The latest departure that arrives by a tick.
    fn latest_departure(points: Chain<'_>, tick: u32) -> Option<u32>
        requires { Ordered kind None (unnumbered (to_come points)) }
        ensures { result ≡ back_by kind (unnumbered (to_come points.entry)) tick };
}
