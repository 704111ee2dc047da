// What a book's words say, as structs. Records are numbered from 1 within their sort, and a chain index of 0 ends a chain.

// How many records of each sort a book has, and its last tick.
#[derive(Clone, Copy)]
pub struct Header {
    pub places: u32,
    pub links: u32,
    pub points: u32,
    pub last: u32,
}

// The lowest links out of a place and into it.
#[derive(Clone, Copy, Default)]
pub struct Place {
    pub first_out: u32,
    pub first_in: u32,
}

// A link from its tail to its head, the next links with the same tail and with the same head, and its first point.
#[derive(Clone, Copy, Default)]
pub struct Link {
    pub tail: u32,
    pub head: u32,
    pub next_out: u32,
    pub next_in: u32,
    pub floor: u32,
    pub first_point: u32,
}

// A departure with its arrival, and the next point of the chain.
#[derive(Clone, Copy, Default)]
pub struct Point {
    pub departure: u32,
    pub arrival: u32,
    pub next: u32,
}

// One of a link's two ends.
#[derive(Clone, Copy)]
pub enum End {
    Tail,
    Head,
}
