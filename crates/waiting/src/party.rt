ghost use Rattle.std.specs.Prelude.{◌≡◌};

use crate::class::Class;

// A job as a waiting rule sees it: its class, and its ticket, the number that it got when it began and no other job has.
#[derive(Clone, Copy)]
pub struct Party {
    pub class: Class,
    pub ticket: u32,
}

impl Party {
    pub fn new(class: Class, ticket: u32) -> Party
        ensures made { result ≡ record { class = class; ticket = ticket } }
    {
        Party { class, ticket }
    }
}
