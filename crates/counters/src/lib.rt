// The tally's counters: what the crate figures defines, counted. `tally` is the library's function: it takes any dimension and any counters, and tests them.
// The others are its own. They go through the tables by number, label each once as job 0 by rule 3, and add what the walks of all pairs of working nodes come
// to. A walk has one of four kinds, and each has its counter: that there is no fifth is demand 3.
#![tactic(auto)]

ghost use Rattle.std.specs.Prelude.{◌*◌, ◌%◌, ◌^◌, ◌≤◌, ◌<◌, length, replicate, ◌≡◌};
ghost use Rattle.counters.specs.Helpers.{Room, Tallying, kind_of, place, plus, table_adds, walk_in, walks_to};
ghost use Rattle.counters.specs.Tally.{counters_after, is_tallied, tally_refusal};
ghost use Rattle.cube.specs.Cube.{dist};
ghost use Rattle.cube.specs.Refused.{answered};
ghost use Rattle.figures.specs.Figures.{counters_of, figure, tables, tally_of, walks_of};
ghost use Rattle.figures.specs.Laws.{OneKind};
ghost use Rattle.jobs.specs.Jobs.{label_bytes};
ghost use Rattle.rule.specs.Cabinet.{plain};
ghost use Rattle.theorems.specs.Words.{Works};

use cube::refusals::Refusal;
use cube::{count_of, distance, node_bit, nodes, table_len};
use jobs::{half, label_bytes};
use labels::label;
use walk::{Ending, walk};

const COLUMNS: usize = 6; // the counters of one number of faults: tables, tables with no safe node, and the walks of four kinds

// ---- one walk

// The kinds of a walk: delivered with 0, 2 or 4 extra hops, or halted.
#[derive(Clone, Copy)]
enum WalkKind {
    Least,
    TwoMore,
    FourMore,
    Halted,
}

impl WalkKind {
    // The place of its counter.
    fn place(self) -> usize
        ensures { result ≡ place self }
    {
        self as usize
    }
}

// The kind of a walk that was delivered with 0, 2 or 4 extra hops.
fn extra_kind(extra: usize) -> WalkKind
    requires { (extra ≤ 4) × (extra % 2 ≡ 0) }
    ensures { extra ≡ 2 * place result }
{
    match extra {
        0 => WalkKind::Least,
        2 => WalkKind::TwoMore,
        _ => WalkKind::FourMore,
    }
}

// ---- one table

// The fault table of an n-cube, and the buffer that labelling left of it as job 0's.
#[derive(Clone, Copy)]
struct Table<'a> {
    n: usize,
    faults: &'a [u8],
    labels: &'a [u8],
    ghost tallying: { Tallying n faults.now labels.now },
}

// (`Room` stays in the clauses: how many counters are lent, and what can be added to them, differs from call to call.)
impl Table<'_> {
    // The kind of the walk from s to d.
    fn kind(&self, s: usize, d: usize) -> WalkKind
        requires { OneKind (walk_in self.now.n s d self.now.labels.now) (dist s d) }
        ensures { place result ≡ kind_of (walk_in self.now.n s d self.now.labels.now) (dist s d) }
    {
        let walked = walk(self.n, 0, s, d, self.labels);
        let hops = walked.hops;
        match walked.ending {
            Ending::Delivered => {
                let least = distance(s, d) as usize;
                extra_kind(hops - least)
            }
            Ending::Halted => WalkKind::Halted,
            Ending::Refused(_) => unreachable!(),
        }
    }

    // Adds the walks of one source.
    fn add_walks_from(&self, s: usize, kinds: &mut [u32])
        requires works { Works (plain self.now.n 3 self.now.faults.now) s }
        requires room { Room 4 (2 ^ self.now.n) kinds.old }
        ensures { kinds.new ≡ plus 4 (walks_to (plain self.now.n 3 self.now.faults.now) s (2 ^ self.now.n)) kinds.old }
    {
        for d in 0..nodes(self.n) {
            if !node_bit(self.faults, d) {
                let k = self.kind(s, d).place();
                kinds[k] += 1;
            }
        }
    }

    // Adds the walks of all sources.
    fn add_walks(&self, kinds: &mut [u32])
        requires { Room 4 (2 ^ self.now.n * 2 ^ self.now.n) kinds.old }
        ensures { kinds.new ≡ plus 4 (walks_of (plain self.now.n 3 self.now.faults.now)) kinds.old }
    {
        for s in 0..nodes(self.n) {
            if !node_bit(self.faults, s) {
                self.add_walks_from(s, kinds);
            }
        }
    }

    // Adds what the table comes to, to the counters of its number of faults.
    fn add_figures(&self, row: &mut [u32])
        requires { Room 6 512 row.old }
        ensures { row.new ≡ plus 6 (λ c. figure c (plain self.now.n 3 self.now.faults.now)) row.old }
    {
        row[0] += 1;
        if count_of(half(self.n, 0, self.labels), 0) == 0 {
            row[1] += 1;
        }
        self.add_walks(&mut row[2..]);
    }
}

// ---- all tables

// Adds table t.
// (1 ≤ n ≤ 4 stays a clause: two functions here and two of the program have it, and a type would hold the number alone.)
fn add_table(n: usize, t: usize, labels: &mut [u8], counters: &mut [u32])
    requires le_n { (1 ≤ n) × (n ≤ 4) }
    requires t_bound { (t < tables n) × (length labels.old ≡ label_bytes n) }
    requires room { Room (counters_of n) 512 counters.old }
    ensures { counters.new ≡ plus (counters_of n) (table_adds n t) counters.old }
{
    let bytes = (t as u16).to_le_bytes();
    let zeros = [0u8; 2];
    let len = table_len(n);
    let faults = &bytes[..len];
    let none = &zeros[..len];
    let _ = label(n, 3, 0, faults, none, none, labels);
    let from = COLUMNS * count_of(half(n, 0, labels), 3);
    let to = from + COLUMNS;
    let table = Table { n, faults, labels };
    table.add_figures(&mut counters[from..to]);
}

// Adds all of them.
fn add_tables(n: usize, labels: &mut [u8], counters: &mut [u32])
    requires le_n { ((1 ≤ n) × (n ≤ 4)) × (length labels.old ≡ label_bytes n) }
    requires counters_value { counters.old ≡ replicate (counters_of n) 0 }
    ensures { counters.new ≡ tally_of n }
{
    let end: usize = 1 << nodes(n);
    for t in 0..end {
        add_table(n, t, labels, counters);
    }
}

// ---- the function

// Whether the cube of this dimension is tallied.
#[tactic(auto, unfolding(crate::specs::Tally::is_tallied))]
fn is_tallied(n: usize) -> bool
    ensures { result ≡ is_tallied n }
{
    (1 <= n) & (n <= 4)
}

// The refusal, if any, where so many counters are lent.
#[tactic(auto, unfolding(crate::specs::Tally::tally_refusal, crate::specs::Tally::is_tallied, cube::specs::Refusal::first))]
fn refusal(n: usize, len: usize) -> Result<(), Refusal>
    ensures { result ≡ answered (tally_refusal n len) tt }
{
    if !is_tallied(n) {
        return Err(Refusal::Dimension);
    }
    if len != COLUMNS * (nodes(n) + 1) {
        return Err(Refusal::Length);
    }
    Ok(())
}

// Counts the figures of all fault tables of an n-cube: for each number of faults, from none to all nodes, six counters. A refusal leaves the counters as they
// were.
pub fn tally(n: usize, counters: &mut [u32]) -> Result<(), Refusal>
    ensures answer { result ≡ answered (tally_refusal n (length counters.old)) tt }
    ensures counters { counters.new ≡ counters_after n counters.old }
{
    refusal(n, counters.len())?;
    counters.fill(0);
    let mut labels = [0u8; 32];
    let bytes = label_bytes(n);
    add_tables(n, &mut labels[..bytes], counters);
    Ok(())
}
