use crate::answer::Rejection;

// The store from which a granted read is read: the draft store if the job wrote the cell itself.
#[derive(Clone, Copy)]
pub enum Source {
    Main,
    Draft,
}

// What keeps a read or a write that is not refused from being granted.
#[derive(Clone, Copy)]
pub enum Obstacle {
    // it has to wait for the job with this ticket
    Wait(u32),
    Reject(Rejection),
}

// What the rules say of a read or a write that is not refused: a G where it is to be granted.
pub type Verdict<G> = Result<G, Obstacle>;

// The blockers of a write: the lowest ticket among them, and the lowest among those of the job's own group for which the
// waiting rule forbids it to wait.
#[derive(Clone, Copy)]
pub struct Blockers {
    pub lowest: Option<u32>,
    pub forbidden: Option<u32>,
}

impl Blockers {
    pub const NONE: Blockers = Blockers {
        lowest: None,
        forbidden: None,
    };
}
