// The ticks at which a link is open.
ghost use Rattle.std.specs.Prelude.{◌≡◌};
ghost use Rattle.std.specs.List.{find};
ghost use Rattle.notices.specs.Closures.{shuts, next_open, last_open};

use crate::notice::Closure;

// The first closure that shuts the link at the tick. (Link and tick are two arguments here and below: a walk changes the tick alone.)
fn shutting(closures: &[Closure], link: u32, tick: u32) -> Option<Closure>
    ensures { result ≡ find (shuts link tick) closures.now }
{
    closures
        .iter()
        .copied()
        .find(|closure| closure.shuts(link, tick))
}

// The earliest tick from this one to the last at which the link is open. From a shut tick the walk goes on at the end of the closure
// that shuts it, so closures that touch, overlap or nest are followed to their end.
pub(crate) fn open_from(closures: &[Closure], link: u32, tick: u32, last: u32) -> Option<u32>
    ensures { result ≡ next_open closures.now link tick last }
{
    let mut t = tick;
    while t <= last {
        match shutting(closures, link, t) {
            None => return Some(t),
            Some(closure) => t = closure.until,
        }
    }
    None
}

// The latest tick up to this one at which the link is open.
pub(crate) fn open_until(closures: &[Closure], link: u32, tick: u32) -> Option<u32>
    ensures { result ≡ last_open closures.now link tick }
{
    // As above, and back: a walk over closures, and no count of ticks.
    let mut t = tick;
    while let Some(closure) = shutting(closures, link, t) {
        t = closure.from.checked_sub(1)?;
    }
    Some(t)
}
