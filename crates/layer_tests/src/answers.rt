// Tables of a link's answers.
use network::Network;
use std::process::Abort;

// Departures with their arrivals.
pub(crate) fn arrivals<N: Network>(
    rt: &impl Abort,
    network: &N,
    link: u32,
    rows: &[(u32, Option<u32>)],
) {
    for (departure, arrival) in rows {
        assert_eq!(rt; network.arrival(link, *departure), *arrival);
    }
}

// Deadlines with their latest departures.
pub(crate) fn departures<N: Network>(
    rt: &impl Abort,
    network: &N,
    link: u32,
    rows: &[(u32, Option<u32>)],
) {
    for (deadline, departure) in rows {
        assert_eq!(rt; network.latest_departure(link, *deadline), *departure);
    }
}

// Links with their tails, their heads, and the next links with the same tail and the same head.
pub(crate) fn links<N: Network>(rt: &impl Abort, network: &N, rows: &[(u32, [u32; 4])]) {
    for (link, answers) in rows {
        let tail = network.tail(*link);
        let head = network.head(*link);
        let out = network.next_out(*link);
        let into = network.next_in(*link);
        assert_eq!(rt; [tail, head, out, into], *answers);
    }
}
