// Asking the neighbours: a fault table is repaired by what the nodes that it calls working say of their neighbours. Everything is tested before the first
// byte is written. The nodes are heard in rising order, so whoever names a node first is the lowest that names it: a node that is in the result already is an
// old fault, or it was named before.
#![tactic(auto)]

ghost use Rattle.std.specs.Prelude.{◌+◌, ◌/◌, ◌^◌, ◌≤◌, ◌<◌, length, replicate, set, cond, ◌≡◌};
ghost use Rattle.cube.specs.Refused.{answered};
ghost use Rattle.cube.specs.Tables.{node_bit, table_len};
ghost use Rattle.notice.specs.Addresses.{with_bit};
ghost use Rattle.repair.specs.Hearing.{Heard, HeardBy};
ghost use Rattle.repair.specs.Repaired.{namers, repaired, strays};
ghost use Rattle.repair.specs.Repairing.{namers_after, repair_refusal, result_after};
ghost use Rattle.spelling.specs.Laws.{Bytes};

use cube::refusals::Refusal;
use cube::{is_dimension, neighbour, node_bit, nodes, table_len, unused_set};
use notice::set_bit;

// Whether some mask has a bit at n or above.
fn some_stray(n: usize, masks: &[u16]) -> bool
    requires { n < 16 }
    ensures { result ≡ strays n masks.now }
{
    masks.iter().any(|mask| *mask >> n != 0)
}

// The refusal, if any, where result and row have room for so many numbers.
#[tactic(auto, unfolding(crate::specs::Repairing::repair_refusal, cube::specs::Refusal::first, cube::specs::Tables::is_dimension))]
fn refusal(n: usize, faults: &[u8], masks: &[u16], res: usize, row: usize) -> Result<(), Refusal>
    ensures { result ≡ answered (repair_refusal n faults.now masks.now res row) tt }
{
    if !is_dimension(n) {
        return Err(Refusal::Dimension);
    }
    let bytes = table_len(n);
    let size = nodes(n);
    if faults.len() != bytes {
        return Err(Refusal::Length);
    }
    if masks.len() != size {
        return Err(Refusal::Length);
    }
    if res != bytes {
        return Err(Refusal::Length);
    }
    if row != size {
        return Err(Refusal::Length);
    }
    if unused_set(n, faults) {
        return Err(Refusal::Unused);
    }
    if some_stray(n, masks) {
        return Err(Refusal::Mask);
    }
    Ok(())
}

// Copies a table. (`copy_from_slice` here is a call of memmove, which the archive for C must not need: tests/footprint.)
fn copy(from: &[u8], to: &mut [u8])
    requires { length to.old ≡ length from.now }
    ensures { to.new ≡ from.now }
{
    for i in 0..from.len() {
        to[i] = from[i];
    }
}

// Puts node k into the result, and one more than its namer w into the row, where it is not in the result yet. (C lends the two one by one, and so they go
// from function to function: a struct of them would be no plainer, for each clause speaks of both, before and after.)
fn put_named(k: usize, w: usize, res: &mut [u8], row: &mut [u16])
    requires { (k / 8 < length res.old) × ((k < length row.old) × (w < 4096)) }
    ensures table { res.new ≡ cond (node_bit res.old k) res.old (with_bit res.old k) }
    ensures row { row.new ≡ cond (node_bit res.old k) row.old (set row.old k (w + 1)) }
{
    if node_bit(res, k) {
        return;
    }
    set_bit(res, k);
    row[k] = (w + 1) as u16;
}

// Goes through the dimensions of node w's mask, and puts in whom it names.
fn put_all(n: usize, w: usize, mask: u16, res: &mut [u8], row: &mut [u16])
    requires { (n ≤ 12) × ((length res.old ≡ table_len n) × ((length row.old ≡ 2 ^ n) × (w < 2 ^ n))) }
    ensures { Heard n mask w res.old row.old res.new row.new }
{
    for i in 0..n {
        if (mask >> i) % 2 == 1 {
            put_named(neighbour(w, i), w, res, row);
        }
    }
}

// What is asked: the old fault table of an n-cube, and a mask for each node.
#[derive(Clone, Copy)]
struct Asked<'a> {
    n: usize,
    faults: &'a [u8],
    masks: &'a [u16],
    ghost small: { n ≤ 12 },
    ghost table: { length faults.now ≡ table_len n },
    ghost bytes: { Bytes faults.now },
    ghost masked: { length masks.now ≡ 2 ^ n },
}

impl Asked<'_> {
    // Hears node w, unless the old table calls it faulty. Most masks are 0, and those are done with at once.
    fn hear(&self, w: usize, res: &mut [u8], row: &mut [u16])
        requires node { w < 2 ^ self.now.n }
        requires res_len { (length res.old ≡ table_len self.now.n) × (length row.old ≡ 2 ^ self.now.n) }
        ensures { HeardBy self.now.n self.now.faults.now self.now.masks.now w res.old row.old res.new row.new }
    {
        let mask = self.masks[w];
        if mask == 0 {
            return;
        }
        if node_bit(self.faults, w) {
            return;
        }
        put_all(self.n, w, mask, res, row);
    }

    // Hears all nodes, in rising order.
    fn hear_all(&self, res: &mut [u8], row: &mut [u16])
        requires table { res.old ≡ self.now.faults.now }
        requires row { row.old ≡ replicate (2 ^ self.now.n) 0 }
        ensures table { res.new ≡ repaired self.now.n self.now.faults.now self.now.masks.now }
        ensures row { row.new ≡ namers self.now.n self.now.faults.now self.now.masks.now }
    {
        for w in 0..self.masks.len() {
            self.hear(w, res, row);
        }
    }
}

// Repairs a fault table of an n-cube by the masks of its nodes, into the result, and says in the row who named whom. A refusal leaves result and row as
// they were.
pub fn repair(
    n: usize,
    faults: &[u8],
    masks: &[u16],
    res: &mut [u8],
    row: &mut [u16],
) -> Result<(), Refusal>
    ensures answer { result ≡ answered (repair_refusal n faults.now masks.now (length res.old) (length row.old)) tt }
    ensures table { res.new ≡ result_after n faults.now masks.now res.old row.old }
    ensures row { row.new ≡ namers_after n faults.now masks.now res.old row.old }
{
    refusal(n, faults, masks, res.len(), row.len())?;
    copy(faults, res);
    row.fill(0);
    let asked = Asked { n, faults, masks };
    asked.hear_all(res, row);
    Ok(())
}
