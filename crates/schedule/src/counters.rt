// The counters of a book.
#[derive(Clone, Copy)]
pub struct Counters {
    // the current group, how many jobs have joined it, and how many it takes
    pub group: u32,
    pub members: u32,
    pub group_size: u32,
    // jobs begun, which is also the last ticket given, and jobs closed, by how they closed
    pub begun: u32,
    pub ended: u32,
    pub given_up: u32,
    pub rejected: u32,
}

impl Counters {
    pub const FRESH: Counters = Counters {
        group: 1,
        members: 0,
        group_size: 8,
        begun: 0,
        ended: 0,
        given_up: 0,
        rejected: 0,
    };
}

// How a job closes.
#[derive(Clone, Copy)]
pub enum Closing {
    Ended,
    GaveUp,
    Rejected,
}

// The jobs since the book was fresh: begun, and of these ended, given up, rejected and open.
#[derive(Clone, Copy, PartialEq, Eq, Debug)]
pub struct Report {
    pub begun: u32,
    pub ended: u32,
    pub given_up: u32,
    pub rejected: u32,
    pub open: u32,
}
