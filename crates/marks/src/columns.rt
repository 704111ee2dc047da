// One column: what is read from it, and what is asked of it.
ghost use Rattle.std.specs.Prelude.{◌≡◌, ◌≤◌, length};
ghost use Rattle.marks.specs.Columns.{number};
ghost use Rattle.marks.specs.Offers.{some_above, breaks, Broken, kept};

use network::Network;

// The number of a place, or 0 for what is no place.
pub(crate) fn number(column: &[u32], place: u32) -> u32
    ensures { result ≡ number column.now place }
{
    place
        .checked_sub(1)
        .and_then(|at| column.get(at as usize))
        .copied()
        .unwrap_or(0)
}

// A column with 0 for what is no place.
pub(crate) fn padded(column: &[u32]) -> [u32; 1024]
    requires { length column.now ≤ 1024 }
    ensures { result ≡ kept column.now }
{
    let mut cells = [0; 1024];
    cells[..column.len()].copy_from_slice(column);
    cells
}

// Whether a number is above the last tick.
pub(crate) fn above(column: &[u32], last: u32) -> bool
    ensures { result ≡ some_above last column.now }
{
    column.iter().any(|number| *number > last)
}

// Whether the column rises along a link by more than the floor.
fn breaks<N: Network>(net: &N, column: &[u32], link: u32) -> bool
    ensures { result ≡ breaks (N.Network.meaning net.now) column.now link }
{
    let low = number(column, net.tail(link));
    let high = number(column, net.head(link));
    high > low && high - low > net.floor(link)
}

// A link along which it does.
pub(crate) fn broken<N: Network>(net: &N, column: &[u32]) -> Option<u32>
    ensures { Broken (N.Network.meaning net.now) column.now result }
{
    (1..=net.links()).find(|link| breaks(net, column, *link))
}
