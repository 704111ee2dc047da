// Journeys over any network. The definitions are in specs/; each function here carries one theorem, which holds of every network.
#![tactic(auto)]

ghost use Rattle.journeys.specs.Theorems.{WaitsGainNothing, EarliestIsOne, EarliestIsComputed, LatestIsExact, OneRoadList, TurnedKeepsTheLaws, TurnedTwice, TurnedJourneys, LatestStartIsExact, ArriveByRoads};

// Over the same roads, who doesn't wait arrives no later.
pub fn waits_gain_nothing()
    ensures { WaitsGainNothing }
{}

// The earliest arrival is one number, or none.
pub fn earliest_is_one()
    ensures { EarliestIsOne }
{}

// The computed arrival is the earliest of all journeys, with waits of any length.
pub fn earliest_is_computed()
    ensures { EarliestIsComputed }
{}

// Departing at d arrives by a exactly when d is no later than the latest departure for a.
pub fn latest_is_exact()
    ensures { LatestIsExact }
{}

// The road list exists, is the only one, and driven without waiting arrives at the earliest arrival.
pub fn one_road_list()
    ensures { OneRoadList }
{}

// The network read backward in time keeps the laws.
pub fn turned_keeps_the_laws()
    ensures { TurnedKeepsTheLaws }
{}

// Turned twice, a network is itself.
pub fn turned_twice()
    ensures { TurnedTwice }
{}

// Backward in time the same journeys are made, their roads in the other order.
pub fn turned_journeys()
    ensures { TurnedJourneys }
{}

// Who is at s at x can be at d by y exactly when x is no later than the latest start.
pub fn latest_start_is_exact()
    ensures { LatestStartIsExact }
{}

// The roads found backward in time, driven from the latest start without waiting, are at the destination by the deadline.
pub fn arrive_by_roads()
    ensures { ArriveByRoads }
{}
