// What a planner may rely on. Each function here carries one theorem.
ghost use Rattle.notices.specs.Theorems.{NextOpenIsEarliest, UpShutsItsTicks, DownTakesOneClosure, NoClosureTwice, SetDelaysOneLink, ClearFreesOneLink, OneDelayEach};

// A link that is shut is entered at the earliest tick at which it is open again.
pub fn next_open_is_earliest()
    ensures { NextOpenIsEarliest }
{}

// A closure that goes up shuts its link for its ticks, besides what was shut before.
pub fn up_shuts_its_ticks()
    ensures { UpShutsItsTicks }
{}

// A closure that comes down no longer stands, and what the others shut stays shut.
pub fn down_takes_one_closure()
    ensures { DownTakesOneClosure }
{}

// No closure ever stands twice.
pub fn no_closure_twice()
    ensures { NoClosureTwice }
{}

// A delay that is set stands on its link, and every other link is delayed as before.
pub fn set_delays_one_link()
    ensures { SetDelaysOneLink }
{}

// A link that is cleared has no delay, and every other link is delayed as before.
pub fn clear_frees_one_link()
    ensures { ClearFreesOneLink }
{}

// No link ever has two delays.
pub fn one_delay_each()
    ensures { OneDelayEach }
{}
