// The walk of a job: a message is moved by hops until a decision is no hop. `walk` and `walk_for` are the questions: they take any numbers and bytes, and
// test them. The other functions are theirs, and what reads labels is handed the job's half alone; `table_refusal` is lent to the walk by networks too.
#![tactic(auto)]

ghost use Rattle.std.specs.Prelude.{◌<◌, ◌^◌, length, ◌≡◌};
ghost use Rattle.cube.specs.Count.{largest};
ghost use Rattle.cube.specs.Refused.{answered, number};
ghost use Rattle.cube.specs.Tables.{label_in};
ghost use Rattle.jobs.specs.Jobs.{label_for};
ghost use Rattle.walk.specs.Helpers.{table_refusal, walk_asked, walk_or_refusal};
ghost use Rattle.walk.specs.Walk.{moved, refused, row_bytes, walked};

use cube::refusals::Refusal;
use cube::{HIGHEST, neighbour};
use hop::{Decision, hop_at, place_refusal};
use jobs::Labels;

const ROW_BYTES: usize = 34; // a row that is lent: two bytes for each of 17 places

// The travelling message: where it is, where it goes, and its hops so far.
#[derive(Clone, Copy)]
pub struct Message {
    pub at: usize,
    pub to: usize,
    pub hops: usize,
}

// How a walk ended: an enum of three and no Result, since a refused walk has a hop count and a row too (RULES, Walk).
#[derive(Clone, Copy)]
pub enum Ending {
    Delivered,
    Halted,
    Refused(Refusal),
}

// (17 places beside the count: RULES, Walk. And there is no heap.)
#[derive(Clone, Copy)]
pub struct Walked {
    pub row: [u16; 17],
    pub hops: usize,
    pub ending: Ending,
}

impl Message {
    // The message one hop on, across dimension i.
    fn moved(self, i: usize) -> Self
        requires { (i < 64) × (self.hops < 64) }
        ensures { result ≡ moved self i }
    {
        let at = self.at;
        let hops = self.hops;
        let next = neighbour(at, i);
        Message {
            at: next,
            to: self.to,
            hops: hops + 1,
        }
    }
}

// A refused walk: hop count 0 and a row of zeros.
fn refused(refusal: Refusal) -> Walked
    ensures { result ≡ refused (number refusal) }
{
    Walked {
        row: [0u16; 17],
        hops: 0,
        ending: Ending::Refused(refusal),
    }
}

// The walk from s: a message is moved until a decision is no hop. It is refused where it would go on after n + 4 hops. (The loop has no counter of its own: the
// travelling message counts its hops, as the rules have it (RULES, Walk).)
fn walk_or_refusal(labels: Labels, s: usize, d: usize) -> Result<Walked, Refusal>
    requires { (s < 2 ^ labels.n) × (d < 2 ^ labels.n) }
    ensures { result ≡ walk_or_refusal labels.entry.n (label_in labels.entry.bytes.now) d s }
{
    let mut row = [0u16; 17];
    row[0] = s as u16;
    let mut m = Message {
        at: s,
        to: d,
        hops: 0,
    };
    loop {
        let at = m.at;
        let to = m.to;
        let hops = m.hops;
        match hop_at(labels, at, to) {
            Decision::Deliver => return Ok(Walked {
                row,
                hops,
                ending: Ending::Delivered,
            }),
            Decision::Halted => return Ok(Walked {
                row,
                hops,
                ending: Ending::Halted,
            }),
            Decision::Hop(i) => {
                if labels.n + 4 <= hops {
                    return Err(Refusal::Hops);
                }
                m = m.moved(i);
                let next = m.at;
                row[hops + 1] = next as u16;
            }
        }
    }
}

// The largest byte: one compare with it tells whether a byte is above the highest label, and the loop has one way out and runs on whole vectors. (The iterator's
// `max` was tried: its loop takes a third longer.)
fn largest(labels: &[u8]) -> u8
    ensures { result ≡ largest (length labels.now) (label_in labels.now) }
{
    let mut high = 0u8;
    for label in labels {
        high = high.max(*label);
    }
    high
}

// The refusals that the labels give.
pub fn table_refusal(labels: Labels, s: usize, d: usize) -> Result<(), Refusal>
    requires { (s < 2 ^ labels.n) × (d < 2 ^ labels.n) }
    ensures { result ≡ answered (table_refusal labels.entry.n s d (label_in labels.entry.bytes.now)) tt }
{
    if HIGHEST < largest(labels.bytes) {
        return Err(Refusal::Label);
    }
    if 3 <= labels.at(s) {
        return Err(Refusal::Source);
    }
    if labels.at(d) == 3 {
        return Err(Refusal::Destination);
    }
    Ok(())
}

// The walk from s to d for a job, or why it is refused.
fn walk_asked(
    n: usize,
    job: usize,
    s: usize,
    d: usize,
    labels: &[u8],
    room: usize,
) -> Result<Walked, Refusal>
    ensures { result ≡ walk_asked n job s d (length labels.now) room (label_for n job labels.now) }
{
    place_refusal(n, job, s, d, labels.len(), room != ROW_BYTES)?;
    let table = Labels::of(n, job, labels);
    table_refusal(table, s, d)?;
    walk_or_refusal(table, s, d)
}

// The walk from s to d for a job, for a caller who lends a row of `room` bytes: another length than 34 is refused.
pub fn walk_for(n: usize, job: usize, s: usize, d: usize, labels: &[u8], room: usize) -> Walked
    ensures { result ≡ walked n job s d (length labels.now) room (label_for n job labels.now) }
{
    walk_asked(n, job, s, d, labels, room).unwrap_or_else(refused)
}

// The walk from s to d for a job, for a caller who takes the row from the answer.
pub fn walk(n: usize, job: usize, s: usize, d: usize, labels: &[u8]) -> Walked
    ensures { result ≡ walked n job s d (length labels.now) row_bytes (label_for n job labels.now) }
{
    walk_for(n, job, s, d, labels, ROW_BYTES)
}
