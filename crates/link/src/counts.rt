// What a technician reads of one direction of a link.

#[derive(Clone, Copy, PartialEq, Eq, Debug)]
pub struct Counts {
    // packets taken at the near end
    pub taken: usize,
    // packets handed up at the far end
    pub handed_up: usize,
    // packets that the near end released, and those that it holds
    pub released: usize,
    pub held: usize,
}
