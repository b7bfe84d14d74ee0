// One hop: the decision at a node, for a job. `hop` is the question: it takes any numbers and bytes, and tests them. What reads labels is handed the job's
// labels alone. `place_refusal` and `hop_at` are lent to the walk, which tests those labels once; `place_refusal`, `at_node` and `Here`, by which it says which
// scan took a hop, to the crate why; `at_node`, `around` and `Here` to the hop by networks. The other functions are theirs.
#![tactic(auto)]

ghost use Rattle.std.specs.Prelude.{◌-◌, ◌+◌, ◌<◌, ◌≤◌, ◌^◌, ltb, get_or, length, replicate, ◌≢◌, ◌≡◌, bit_xor};
ghost use Rattle.std.specs.Result.{result_map_both};
ghost use Rattle.cube.specs.Count.{least, some};
ghost use Rattle.cube.specs.Cube.{flip};
ghost use Rattle.cube.specs.Refused.{answered};
ghost use Rattle.cube.specs.Tables.{highest, label_in};
ghost use Rattle.hop.specs.Helpers.{across, around, at_node, chosen, found, gathered, in_set, near_refusal, place_refusal};
ghost use Rattle.hop.specs.Hop as spec;
ghost use Rattle.jobs.specs.Jobs.{label_for};
ghost use Rattle.scans.specs.Scans as scans;

use cube::refusals::Refusal;
use cube::{HIGHEST, distance, is_dimension, neighbour, nodes};
use jobs::{Labels, is_job, label_bytes};

const DRAINING: u8 = 4; // the label of a draining node

// The decision at a node.
#[derive(Clone, Copy)]
pub enum Decision {
    Deliver,
    Hop(usize),
    Halted,
}

// What a node knows of a message: the dimension, the node and the destination, and the labels that it reads: its own, and its neighbours' in the first n
// places, the others 0.
#[derive(Clone, Copy)]
pub struct Here<'a> {
    pub n: usize,
    pub c: usize,
    pub d: usize,
    pub own: u8,
    pub near: &'a [u8; 12],
    ghost small: { n ≤ 12 },
    ghost inside: { c < 2 ^ n },
    ghost target: { d < 2 ^ n },
}

// The refusals that need no label: of a job, two nodes, a label buffer of len bytes, and whether another lent buffer has a wrong length.
// (other, and high of `near_refusal`, stay flags: `place_tests` and `label_tests` have them.)
#[tactic(auto, unfolding(crate::specs::Helpers::place_refusal, cube::specs::Refusal::first, cube::specs::Tables::is_dimension, jobs::specs::Jobs::is_job))]
pub fn place_refusal(
    n: usize,
    job: usize,
    a: usize,
    b: usize,
    len: usize,
    other: bool,
) -> Result<(), Refusal>
    ensures { result ≡ answered (place_refusal n job a b len other) tt }
{
    if !is_dimension(n) {
        return Err(Refusal::Dimension);
    }
    if !is_job(job) {
        return Err(Refusal::Job);
    }
    if len != label_bytes(n) {
        return Err(Refusal::Length);
    }
    if other {
        return Err(Refusal::Length);
    }
    let size = nodes(n);
    if (size <= a) | (size <= b) {
        return Err(Refusal::Node);
    }
    Ok(())
}

// Whether one of the first n labels is above the highest.
fn some_above(n: usize, near: &[u8; 12]) -> bool
    requires { n ≤ 12 }
    ensures { result ≡ some n (λ i. ltb highest (get_or near.now i 0)) }
{
    near[..n].iter().any(|label| HIGHEST < *label)
}

// Reads the labels of c's neighbours, each once, into the first n places of near, and answers whether one is above the highest label. None is above all of
// them joined by `|`: so where that is no higher, as it is where no neighbour drains, they need not be looked at one by one.
// (near is the caller's array: where it was answered, a walk took 1.16 times as long.)
pub fn gather(labels: Labels, c: usize, near: &mut [u8; 12]) -> bool
    requires { (c < 2 ^ labels.n) × (near.old ≡ replicate 12 0) }
    ensures near { near.new ≡ gathered labels.entry.n (label_in labels.entry.bytes.now) c }
    ensures high { result ≡ some labels.entry.n (λ i. ltb highest (label_in labels.entry.bytes.now (flip i c))) }
{
    let mut joined = labels.at(c) & 248; // the node's own is read first; of a label 0 to 4 no bit is left
    for i in 0..labels.n {
        let label = labels.at(neighbour(c, i));
        near[i] = label;
        joined |= label;
    }
    (HIGHEST < joined) && some_above(labels.n, near)
}

// What c knows of a message to d, and whether one of its neighbours' labels is above the highest.
// (The answer of the test stands beside it, in no Result: a walk, whose table was tested, does not ask for it.)
// (c and d stay parameters here and in what a walk calls: the node is another at each hop, and a struct would be made anew there.)
pub fn around<'a>(labels: Labels, c: usize, d: usize, near: &'a mut [u8; 12]) -> (Here<'a>, bool)
    requires { (c < 2 ^ labels.n) × (d < 2 ^ labels.n) × (near.old ≡ replicate 12 0) }
    ensures here { let h = result.0 in (h.n, h.c, h.d, h.own, h.near.now) ≡ around labels.entry.n c d (label_in labels.entry.bytes.now) }
    ensures high { result.1 ≡ some labels.entry.n (λ i. ltb highest (label_in labels.entry.bytes.now (flip i c))) }
{
    let high = gather(labels, c, near);
    let here = Here {
        n: labels.n,
        c,
        d,
        own: labels.at(c),
        near,
    };
    (here, high)
}

// The lowest dimension of a set whose neighbour's label is at most top. The bits of a number are the set's dimensions: its trailing zeros give the lowest of
// them, and `rest & (rest - 1)` is the rest without it. (`(0..n).find(..)` was tried: it asks each dimension, and takes a quarter longer.)
pub fn lowest(n: usize, set: usize, near: &[u8; 12], top: u8) -> Option<usize>
    requires { (n ≤ 12) × (set < 2 ^ n) }
    ensures { result ≡ found n (least n (in_set set (λ i. get_or near.now i 0) top)) }
{
    let mut rest = set;
    while rest != 0 {
        let i = usize::trailing_zeros(rest) as usize;
        if near[i] <= top {
            return Some(i);
        }
        rest = rest & (rest - 1);
    }
    None
}

impl Here<'_> {
    // The hop before the scans: to d itself, where only one dimension is forward, so that d is the neighbour across it, and d drains.
    pub fn last_hop(&self) -> Option<usize>
        requires { self.now.c ≢ self.now.d }
        ensures { result ≡ found self.now.n (scans.lowest self.now.n self.now.c self.now.d 0 (λ i. get_or self.now.near.now i 0) 0) }
    {
        let forward = self.c ^ self.d;
        if forward & (forward - 1) != 0 {
            return None;
        }
        let last = usize::trailing_zeros(forward) as usize;
        if self.near[last] == DRAINING {
            return Some(last);
        }
        None
    }

    // The lowest forward dimension whose neighbour's label is at most top, as scans 1 and 2 take it.
    fn forward(&self, top: u8) -> Option<usize>
        ensures { let s = self.now in result ≡ found s.n (least s.n (in_set (bit_xor s.c s.d) (λ i. get_or s.near.now i 0) top)) }
    {
        lowest(self.n, self.c ^ self.d, self.near, top)
    }

    // The third scan: a strongly unsafe node is entered from another, or near the destination.
    fn third(&self) -> Option<usize>
        ensures { let s = self.now in result ≡ found s.n (scans.lowest s.n s.c s.d s.own (λ i. get_or s.near.now i 0) 3) }
    {
        if (self.own == 2) | (distance(self.c, self.d) <= 2) {
            return self.forward(2);
        }
        None
    }

    // The lowest spare dimension whose neighbour's label is at most top, as scans 4 and 5 take it.
    fn spare(&self, top: u8) -> Option<usize>
        ensures { let s = self.now in result ≡ found s.n (least s.n (in_set (bit_xor (bit_xor s.c s.d) (2 ^ s.n - 1)) (λ i. get_or s.near.now i 0) top)) }
    {
        lowest(
            self.n,
            self.c ^ self.d ^ (nodes(self.n) - 1),
            self.near,
            top,
        )
    }

    // What the first of the scans that takes a dimension picks: the scan and the dimension.
    pub fn chosen(&self) -> Option<(usize, usize)>
        requires { self.now.c ≢ self.now.d }
        ensures { let s = self.now in result ≡ chosen s.n s.c s.d s.own (λ i. get_or s.near.now i 0) }
    {
        scanned(self.n, self.c, self.d, self.own, self.near)
    }
}

// The scans, in order. They are handed one by one what `chosen` has of the node, so that it goes in registers: where they were handed the struct, which goes
// through memory, a walk took 1.2 times as long. (A chain of `or_else` was tried: a closure that captures a struct with a reference in it gives no clause.)
fn scanned(n: usize, c: usize, d: usize, own: u8, near: &[u8; 12]) -> Option<(usize, usize)>
    requires { (n ≤ 12) × (c < 2 ^ n) × (d < 2 ^ n) × (c ≢ d) }
    ensures { result ≡ chosen n c d own (λ i. get_or near.now i 0) }
{
    let here = Here { n, c, d, own, near };
    if let Some(i) = here.last_hop() {
        return Some((0, i));
    }
    if let Some(i) = here.forward(0) {
        return Some((1, i));
    }
    if let Some(i) = here.forward(1) {
        return Some((2, i));
    }
    if let Some(i) = here.third() {
        return Some((3, i));
    }
    if let Some(i) = here.spare(0) {
        return Some((4, i));
    }
    if let Some(i) = here.spare(1) {
        return Some((5, i));
    }
    None
}

// The decision away from the destination, by what the scans picked.
fn across(picked: Option<(usize, usize)>) -> Decision
    ensures { result ≡ across picked }
{
    match picked {
        Some((_, i)) => Decision::Hop(i),
        None => Decision::Halted,
    }
}

// The refusals that the labels give of c and its neighbours: own is c's label, and high says that a neighbour's is above the highest.
#[tactic(auto, unfolding(crate::specs::Helpers::near_refusal, cube::specs::Refusal::first))]
pub fn near_refusal(c: usize, d: usize, own: u8, high: bool) -> Result<(), Refusal>
    ensures { result ≡ answered (near_refusal c d own high) tt }
{
    if (HIGHEST < own) | high {
        return Err(Refusal::Label);
    }
    if own == 3 {
        return Err(Refusal::Source);
    }
    if (own == DRAINING) & (c != d) {
        return Err(Refusal::Source);
    }
    Ok(())
}

// What c knows of a message to d by which a question is answered, or why it is refused. It reads c's label and each neighbour's once, and no other byte.
pub fn at_node<'a>(
    labels: Labels,
    c: usize,
    d: usize,
    near: &'a mut [u8; 12],
) -> Result<Here<'a>, Refusal>
    requires { (c < 2 ^ labels.n) × (d < 2 ^ labels.n) × (near.old ≡ replicate 12 0) }
    ensures { result_map_both (λ h. (h.n, h.c, h.d, h.own, h.near.now)) (λ r. r) result ≡ at_node labels.entry.n c d (label_in labels.entry.bytes.now) }
{
    let own = labels.at(c);
    let high = gather(labels, c, near);
    near_refusal(c, d, own, high)?;
    Ok(Here {
        n: labels.n,
        c,
        d,
        own,
        near,
    })
}

// The decision at c on the way to d, for a job. Of the job's half it reads c's label and each neighbour's once, and no other byte. (With
// `here.chosen()` here too, that was a call of its own, and a hop took 144 bytes of stack; it takes 56.)
pub fn hop(n: usize, job: usize, c: usize, d: usize, labels: &[u8]) -> Result<Decision, Refusal>
    ensures { result ≡ spec.hopped n job c d (length labels.now) (label_for n job labels.now) }
{
    place_refusal(n, job, c, d, labels.len(), false)?;
    let mut near = [0u8; 12];
    let here = at_node(Labels::of(n, job, labels), c, d, &mut near)?;
    if c != d {
        return Ok(across(scanned(here.n, here.c, here.d, here.own, here.near)));
    }
    Ok(Decision::Deliver)
}

// The decision at c by a label table that was tested: what a walk asks at each node. At the destination it reads nothing. (With `here.chosen()` a walk took
// 1.2 times as long.)
pub fn hop_at(labels: Labels, c: usize, d: usize) -> Decision
    requires { (c < 2 ^ labels.n) × (d < 2 ^ labels.n) }
    ensures { result ≡ spec.hop labels.entry.n (label_in labels.entry.bytes.now) c d }
{
    if c == d {
        return Decision::Deliver;
    }
    let mut near = [0u8; 12];
    let (here, _) = around(labels, c, d, &mut near);
    across(scanned(here.n, here.c, here.d, here.own, here.near))
}
