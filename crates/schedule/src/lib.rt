// The scheduler's plain data, and in specs/ the definitions of what each request does to it.
#![tactic(auto)]

pub mod answer;
pub mod cell;
pub mod counters;
pub mod job;
pub mod request;
pub mod verdict;

pub use answer::{NotGranted, Refusal, Rejection, Reply};
pub use cell::CellRecord;
pub use counters::{Closing, Counters, Report};
pub use job::{Job, Kind, Seated, Wait, job_in};
pub use request::{Event, Request};
pub use verdict::{Blockers, Obstacle, Source, Verdict};
