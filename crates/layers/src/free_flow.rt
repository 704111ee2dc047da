// Free flow: every link takes its floor at every tick.
ghost use Rattle.layers.specs.FreeFlow.{free_flow};
ghost use Rattle.std.proofs.Common.{rules};

use crate::over::{Retiming, later};
use network::Network;

#[derive(Clone, Copy)]
pub struct FreeFlow;

impl Retiming for FreeFlow {
    ghost arrivals = { λ _ net. free_flow net };

    ghost lawful = { Prim.search rules };

    // A floor of 0 says that the link isn't there.
    fn arrival<N: Network>(&self, below: &N, link: u32, tick: u32) -> Option<u32> {
        let floor = below.floor(link);
        if floor == 0 {
            return None;
        }
        later(below.last_tick(), floor, tick)
    }

    fn latest_departure<N: Network>(&self, below: &N, link: u32, tick: u32) -> Option<u32> {
        let floor = below.floor(link);
        if floor == 0 || tick > below.last_tick() {
            return None;
        }
        tick.checked_sub(floor)
    }
}
