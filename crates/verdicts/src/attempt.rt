ghost use Rattle.std.specs.Prelude.{◌≡◌};
ghost use Rattle.schedule.specs.Verdicts.{blocks, forbidding, gathered, lower, no_blockers, past_blockers, past_writer, read_verdict, top_mark, with_row, write_verdict, writer_job};

use schedule::{Blockers, CellRecord, Job, Obstacle, Rejection, Seated, Source, Verdict, job_in};
use waiting::WaitingRule;

// A read or a write of a cell that an open job attempts, with all that the rules go by.
#[derive_where(Clone, Copy)]
pub struct Attempt<'a, W: WaitingRule> {
    pub rule: &'a W,
    // the rows of the open jobs
    pub rows: &'a [Option<Job>],
    // the record of the cell
    pub cell: &'a CellRecord,
    // the job that attempts it
    pub seated: Seated,
}

// The lower of a known ticket, if any, and another.
fn lower(known: Option<u32>, ticket: u32) -> Option<u32>
    ensures ticket { result ≡ lower known ticket }
{
    Some(known.map_or(ticket, |least| least.min(ticket)))
}

// How a write fares that comes late to no mark and has these blockers.
fn past_blockers(blockers: Blockers) -> Verdict<()>
    ensures verdict { result ≡ past_blockers blockers }
{
    if let Some(ticket) = blockers.forbidden {
        return Err(Obstacle::Reject(Rejection::MayNotWait(ticket)));
    }
    match blockers.lowest {
        Some(ticket) => Err(Obstacle::Wait(ticket)),
        None => Ok(()),
    }
}

impl<'a, W: WaitingRule> Attempt<'a, W> {
    // The job that is the writer of the cell, if any.
    fn writer(&self) -> Option<Job>
        ensures job { result ≡ writer_job self.now.rows.now self.now.cell.now.writer }
    {
        job_in(self.rows, self.cell.writer?)
    }

    // How a read fares that the write mark lets through.
    fn past_writer(&self) -> Verdict<Source>
        ensures verdict { result ≡ past_writer (W.WaitingRule.may self.now.rule.now) self.now.seated.job (writer_job self.now.rows.now self.now.cell.now.writer) }
    {
        let job = self.seated.job;
        let Some(other) = self.writer() else {
            return Ok(Source::Main);
        };
        if job.group < other.group {
            return Ok(Source::Main);
        }
        if other.group == job.group && !self.rule.may_wait(&job.party(), &other.party()) {
            return Err(Obstacle::Reject(Rejection::MayNotWait(other.ticket)));
        }
        Err(Obstacle::Wait(other.ticket))
    }

    // What the rules say of a read.
    pub fn read_verdict(&self) -> Verdict<Source>
        ensures verdict { result ≡ read_verdict (W.WaitingRule.may self.now.rule.now) self.now.rows.now self.now.cell.now self.now.seated.row self.now.seated.job }
    {
        let Seated { row, job } = self.seated;
        let mark = self.cell.write_mark;
        if self.cell.is_written_by(row) {
            return Ok(Source::Draft);
        }
        if job.group < mark {
            return Err(Obstacle::Reject(Rejection::TooLate(mark)));
        }
        self.past_writer()
    }

    // The largest of the read mark, the write mark and the writer's group.
    fn top_mark(&self) -> u32
        ensures mark { result ≡ top_mark self.now.rows.now self.now.cell.now }
    {
        let group = self.writer().map_or(0, |writer| writer.group);
        self.cell.read_mark.max(self.cell.write_mark).max(group)
    }

    // Whether the other job, in row `i`, blocks the write.
    fn is_blocked_by(&self, i: usize, other: Job) -> bool
        ensures answer { result ≡ blocks self.now.cell.now self.now.seated.row self.now.seated.job i other }
    {
        if i == self.seated.row {
            return false;
        }
        if self.cell.is_written_by(i) {
            return true;
        }
        self.cell.is_read_by(i) && other.group == self.seated.job.group
    }

    // The lowest ticket known for which the job may not wait, and now the other job.
    fn forbidding(&self, other: Job, known: Option<u32>) -> Option<u32>
        ensures ticket { result ≡ forbidding (W.WaitingRule.may self.now.rule.now) self.now.seated.job other known }
    {
        let job = self.seated.job;
        if other.group != job.group || self.rule.may_wait(&job.party(), &other.party()) {
            return known;
        }
        lower(known, other.ticket)
    }

    // The blockers known so far, and what lies in row `i`.
    fn with_row(&self, i: usize, other: Option<Job>, known: Blockers) -> Blockers
        ensures blockers { result ≡ with_row (W.WaitingRule.may self.now.rule.now) self.now.cell.now self.now.seated.row self.now.seated.job i other known }
    {
        match other {
            Some(other) if self.is_blocked_by(i, other) => Blockers {
                lowest: lower(known.lowest, other.ticket),
                forbidden: self.forbidding(other, known.forbidden),
            },
            _ => known,
        }
    }

    // The blockers of the write.
    fn blockers(&self) -> Blockers
        ensures blockers { result ≡ gathered (W.WaitingRule.may self.now.rule.now) self.now.cell.now self.now.seated.row self.now.seated.job 0 self.now.rows.now no_blockers }
    {
        let mut known = Blockers::NONE;
        for (i, other) in self.rows.iter().enumerate() {
            known = self.with_row(i, *other, known);
        }
        known
    }

    // What the rules say of a write.
    pub fn write_verdict(&self) -> Verdict<()>
        ensures verdict { result ≡ write_verdict (W.WaitingRule.may self.now.rule.now) self.now.rows.now self.now.cell.now self.now.seated.row self.now.seated.job }
    {
        let top = self.top_mark();
        if self.seated.job.group < top {
            return Err(Obstacle::Reject(Rejection::TooLate(top)));
        }
        past_blockers(self.blockers())
    }
}
