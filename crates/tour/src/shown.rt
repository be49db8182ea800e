// How the tour writes what it shows.
use schedule::{Event, NotGranted, Refusal, Reply};
use std::fmt;
use waiting::{Class, Party, WaitingRule};

// A height, kept in tenths of a millimetre and shown in metres with four decimals.
#[derive(Clone, Copy)]
pub struct Metres(pub i32);

impl fmt::Display for Metres {
    fn fmt<W: fmt::Write>(&self, f: &mut fmt::Formatter<W>) -> fmt::Result {
        let sign = if self.0 < 0 { "-" } else { "" };
        let tenths = self.0.unsigned_abs();
        write!(f, "{sign}{}.{:04}", tenths / 10_000, tenths % 10_000)
    }
}

// Bytes, each as a space and two digits in base sixteen.
#[derive(Clone, Copy)]
pub struct Hex<'a>(pub &'a [u8]);

impl<'a> fmt::Display for Hex<'a> {
    fn fmt<W: fmt::Write>(&self, f: &mut fmt::Formatter<W>) -> fmt::Result {
        for byte in self.0 {
            write!(f, " {byte:02x}")?;
        }
        Ok(())
    }
}

const CLASSES: [Class; 4] = [Class::Zero, Class::One, Class::Two, Class::Three];

// What a rule says of a job of one class that would wait for one of another, as the job that began first and as the one
// that began later.
fn in_a_word<R: WaitingRule>(rule: &R, waiter: Class, blocker: Class) -> &'static str {
    let first = rule.may_wait(&Party::new(waiter, 1), &Party::new(blocker, 2));
    let later = rule.may_wait(&Party::new(waiter, 2), &Party::new(blocker, 1));
    match (first, later) {
        (true, true) => "yes",
        (true, false) => "first",
        (false, true) => "later",
        (false, false) => "no",
    }
}

// What a rule says of the jobs of one class, for each class that they would wait for.
#[derive(Clone, Copy)]
struct RuleRow<'a, R>(&'a R, Class);

impl<'a, R: WaitingRule> fmt::Display for RuleRow<'a, R> {
    fn fmt<W: fmt::Write>(&self, f: &mut fmt::Formatter<W>) -> fmt::Result {
        let RuleRow(rule, waiter) = *self;
        write!(f, "  class {} for class", u32::from(waiter))?;
        for blocker in CLASSES {
            write!(
                f,
                "  {} {}",
                u32::from(blocker),
                in_a_word(rule, waiter, blocker)
            )?;
        }
        Ok(())
    }
}

// A waiting rule as a table: a row for each class that would wait.
#[derive(Clone, Copy)]
pub struct RuleTable<'a, R>(pub &'a R);

impl<'a, R: WaitingRule> fmt::Display for RuleTable<'a, R> {
    fn fmt<W: fmt::Write>(&self, f: &mut fmt::Formatter<W>) -> fmt::Result {
        for waiter in CLASSES {
            writeln!(f, "{}", RuleRow(self.0, waiter))?;
        }
        Ok(())
    }
}

// Why a request was refused.
#[derive(Clone, Copy)]
struct Refused(Refusal);

impl fmt::Display for Refused {
    fn fmt<W: fmt::Write>(&self, f: &mut fmt::Formatter<W>) -> fmt::Result {
        write!(f, "refused, {}", self.0.number())
    }
}

// Whether a read or a write was granted, and what came in place of a grant.
#[derive(Clone, Copy)]
struct Granted<T>(Reply<T>);

impl<T> fmt::Display for Granted<T> {
    fn fmt<W: fmt::Write>(&self, f: &mut fmt::Formatter<W>) -> fmt::Result {
        match &self.0 {
            Ok(_) => write!(f, "granted"),
            Err(NotGranted::Wait(blocker)) => write!(f, "wait for job {blocker}"),
            Err(NotGranted::Rejected(why)) => write!(
                f,
                "rejected, {} naming {}",
                why.number(),
                why.detail()
            ),
            Err(NotGranted::Refused(why)) => write!(f, "{}", Refused(*why)),
        }
    }
}

// A request to a receiver's book with the answer that it got.
#[derive(Clone, Copy)]
pub struct Told(pub Event<i32>);

impl fmt::Display for Told {
    fn fmt<W: fmt::Write>(&self, f: &mut fmt::Formatter<W>) -> fmt::Result {
        match self.0 {
            Event::Begin(class, Ok((ticket, group, place))) => write!(
                f,
                "begin, class {class}: job {ticket}, place {place} in group {group}"
            ),
            Event::Begin(class, Err(why)) => write!(f, "begin, class {class}: {}", Refused(why)),
            Event::Read(ticket, cell, Ok(height)) => write!(
                f,
                "job {ticket} reads cell {cell}: {} m",
                Metres(height)
            ),
            Event::Read(ticket, cell, reply) => write!(
                f,
                "job {ticket} reads cell {cell}: {}",
                Granted(reply)
            ),
            Event::Write(ticket, cell, height, reply) => write!(
                f,
                "job {ticket} writes {} m into cell {cell}: {}",
                Metres(height),
                Granted(reply)
            ),
            Event::End(ticket, Ok((group, number))) => write!(
                f,
                "job {ticket} ends: end {number}, in group {group}"
            ),
            Event::End(ticket, Err(why)) => write!(f, "job {ticket} ends: {}", Refused(why)),
            Event::GiveUp(ticket, Ok(())) => write!(f, "job {ticket} gives up"),
            Event::GroupSize(_, Ok(size)) => write!(f, "a group takes {size}"),
            Event::GiveUp(_, Err(why)) | Event::GroupSize(_, Err(why)) => write!(
                f,
                "{}",
                Refused(why)
            ),
        }
    }
}
