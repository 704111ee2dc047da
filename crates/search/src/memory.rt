// What a question is lent.

// The queue has room for each place, the table a cell for each place, and the list a cell for each road.
#[derive(Drop)]
pub struct Memory<'a, Q> {
    pub queue: &'a mut Q,
    pub table: &'a mut [u32],
    pub list: &'a mut [u32],
}
