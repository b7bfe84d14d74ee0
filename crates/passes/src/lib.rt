// The passes over the label bytes that labelling is made of: the first, the marks of a round, the end of a round, and the last. The rounds are kept in the
// lent label table itself, by the bytes PLAIN, MARKED, OUT and NEW. A byte is what its node weighs in the test of a neighbour: 0, 2 or 3, and NEW weighs
// nothing in the low seven bits, where the test looks. The last pass tells ORDINARY from MARKED and DRAINING from OUT; PLAIN, MARKED and OUT stay as safe,
// strongly unsafe and faulty. A node that the job closes is faulty here. The passes are handed the half of one job and know of no other; they are lent to
// the crate labels. The nodes are lent to the crate why too.
#![tactic(auto)]

ghost use Rattle.std.specs.Prelude.{◌/◌, ◌<◌, ◌≤◌, ◌^◌, eqb, length, cond, ◌||◌, ◌≡◌};
ghost use Rattle.cube.specs.Count.{count, some};
ghost use Rattle.cube.specs.Cube.{flip};
ghost use Rattle.cube.specs.Tables.{label_in, node_bit, tab, table_len};
ghost use Rattle.passes.specs.Passes.{Kept, NodeOf, Sized, finished, fresh, mark_in, ordinary, out_in, plain_in, settled, started, swept};
ghost use Rattle.rule.specs.Looks.{looks, looks_near};
ghost use Rattle.rule.specs.Rule.{meets};

use cube::{neighbour, node_bit};

// The labels are numbers and no enum: bytes of the buffer that C lends, which may hold any (refusal 4), and the rule adds them up.
const PLAIN: u8 = 0; // no mark; in the end: safe

const ORDINARY: u8 = 1; // in the end: ordinarily unsafe

pub const MARKED: u8 = 2; // marked by an earlier round; in the end: strongly unsafe

pub const OUT: u8 = 3; // does not work; in the end: faulty

const DRAINING: u8 = 4; // in the end: draining

pub const NEW: u8 = 128; // marked by this round

// The answer of a test of a node, and how many of its neighbours' labels were read for it. No Option: so many were read whether it holds or not.
#[derive(Drop)]
struct Tested {
    holds: bool,
    looked: usize,
}

// A rule, by its number: so many neighbours that do not work or are marked make a node unsafe.
// (No enum: the test of a neighbour counts by the number, and so do the contracts.)
#[derive(Clone, Copy)]
pub struct Rule {
    pub number: usize,
    ghost is_rule: { (2 ≤ number) × (number ≤ 3) },
}

// A node of an n-cube, by the cube's label table.
#[derive(Clone, Copy)]
pub struct Node<'a> {
    pub n: usize,
    pub labels: &'a [u8],
    pub x: usize,
    ghost is_node: { NodeOf n labels.now x },
}

impl<'a> Node<'a> {
    // The node's own label.
    #[tactic(auto, unfolding(cube::specs::Tables::label_in))]
    pub fn label(self) -> u8
        ensures { result ≡ label_in self.entry.labels.now self.entry.x }
    {
        self.labels[self.x]
    }

    // The label of its neighbour across dimension i.
    pub fn near(self, i: usize) -> u8
        requires { i < self.n }
        ensures { result ≡ label_in self.entry.labels.now (flip i self.entry.x) }
    {
        self.labels[neighbour(self.x, i)]
    }

    // Whether it meets the rule with the marks of the earlier rounds. The test reads its neighbours' labels one by one, lowest dimension first, and stops where
    // those that it has read settle it. With rule 2 or 3 they do exactly where they weigh twice the rule: two that do not work weigh 6, and of bad ones, as
    // many as the rule names, each weighs 2 at least. The weight begins with 64 less that, so that the bit of 64 tells. Nearly all of labelling's time is spent
    // here. The bit is doubled by hand: with `near(i)`, which shifts, labelling took 1.1 to 1.35 times as long.
    fn meets_rule(self, rule: Rule) -> Tested
        requires { Kept self.labels.now }
        ensures holds { result.holds ≡ meets self.entry.n rule.number (out_in self.entry.labels.now) (mark_in self.entry.labels.now) self.entry.x }
        ensures looked { result.looked ≡ looks self.entry.n rule.number (out_in self.entry.labels.now) (mark_in self.entry.labels.now) self.entry.x }
    {
        let mut weight: usize = 64 - 2 * rule.number;
        let mut looked: usize = 0;
        let mut bit: usize = 1;
        for _i in 0..self.n {
            let byte = self.labels[self.x ^ bit];
            looked += 1;
            weight += byte as usize;
            if 64 <= weight % 128 {
                return Tested {
                    holds: true,
                    looked,
                };
            }
            bit *= 2;
        }
        Tested {
            holds: false,
            looked,
        }
    }

    // Whether this round marks it.
    fn is_fresh(self, rule: Rule) -> bool
        requires { Kept self.labels.now }
        ensures { result ≡ fresh self.entry.n rule.number self.entry.labels.now self.entry.x }
    {
        self.label() == PLAIN && self.meets_rule(rule).holds
    }

    // Whether it has a neighbour without a mark: in the end, a safe one. The test stops at the first.
    // (No one function with `meets_rule`: that adds weights up, this stops at the first. The bit is doubled for the reason given there.)
    fn plain_near(self) -> Tested
        ensures holds { result.holds ≡ some self.entry.n (λ i. plain_in self.entry.labels.now (flip i self.entry.x)) }
        ensures looked { result.looked ≡ looks_near self.entry.n (plain_in self.entry.labels.now) self.entry.x }
    {
        let mut looked = 0;
        let mut bit = 1;
        for _k in 0..self.n {
            looked += 1;
            if self.labels[self.x ^ bit] == PLAIN {
                return Tested {
                    holds: true,
                    looked,
                };
            }
            bit *= 2;
        }
        Tested {
            holds: false,
            looked,
        }
    }

    // Whether it is unsafe and has a safe neighbour.
    fn is_ordinary(self) -> bool
        ensures { result ≡ ordinary self.entry.n self.entry.labels.now self.entry.x }
    {
        self.label() == MARKED && self.plain_near().holds
    }
}

// The nodes that are faulty for a job: those of the fault table, and those that the job closes.
#[derive(Clone, Copy)]
pub struct Faulty<'a> {
    pub n: usize,
    pub faults: &'a [u8],
    pub closed: &'a [u8],
    ghost faults_len: { length faults.now ≡ table_len n },
    ghost closed_len: { length closed.now ≡ table_len n },
}

impl<'a> Faulty<'a> {
    // Whether node k is one of them.
    #[tactic(auto, using(cube::proofs::Tables::node_room))]
    fn has(self, k: usize) -> bool
        requires { k < 2 ^ self.n }
        ensures { result ≡ (node_bit self.entry.faults.now k || node_bit self.entry.closed.now k) }
    {
        let faulty = node_bit(self.faults, k);
        let shut = node_bit(self.closed, k);
        faulty | shut
    }

    // The byte of a node that does not work, in the end: one that is faulty or closed is so whether it drains or not, so the table of draining nodes is not
    // asked.
    fn out_byte(self, x: usize) -> u8
        requires { x < 2 ^ self.n }
        ensures { result ≡ cond (node_bit self.entry.faults.now x || node_bit self.entry.closed.now x) 3 4 }
    {
        let faulty = self.has(x);
        if faulty { OUT } else { DRAINING }
    }

    // The byte of a node in the end.
    fn final_byte(self, node: Node) -> u8
        requires { node.n ≡ self.n }
        ensures { let s = self.entry in result ≡ finished node.entry.n (λ y. cond (node_bit s.faults.now y || node_bit s.closed.now y) 3 4) node.entry.labels.now node.entry.x }
    {
        let label = node.label();
        if label == OUT {
            return self.out_byte(node.x);
        }
        if node.is_ordinary() {
            return ORDINARY;
        }
        label
    }

    // The end of labelling: tells the ordinarily unsafe nodes from the strongly unsafe ones, and the draining nodes from the faulty ones. A node without a
    // mark keeps its byte.
    pub fn finish(self, labels: &mut [u8])
        requires { Sized self.n labels.old }
        ensures { let s = self.entry in labels.new ≡ tab (2 ^ s.n) (finished s.n (λ y. cond (node_bit s.faults.now y || node_bit s.closed.now y) 3 4) labels.old) }
    {
        for x in 0..labels.len() {
            if MARKED <= labels[x] {
                let node = Node {
                    n: self.n,
                    labels: &labels[..],
                    x,
                };
                labels[x] = self.final_byte(node);
            }
        }
    }
}

// The tables of a cabinet, by which its nodes work for a job or do not.
// (It holds no `Faulty`: a struct has not two references of two lifetimes at one parameter. A `NodeTable` would ask n ≤ 12.)
#[derive(Clone, Copy)]
pub struct Tables<'a> {
    pub n: usize,
    pub faults: &'a [u8],
    pub draining: &'a [u8],
    pub closed: &'a [u8],
    ghost faults_len: { length faults.now ≡ table_len n },
    ghost draining_len: { length draining.now ≡ table_len n },
    ghost closed_len: { length closed.now ≡ table_len n },
}

impl<'a> Tables<'a> {
    // The byte that node k starts with: by all three tables, whether it works.
    #[tactic(auto, using(cube::proofs::Tables::node_room))]
    fn start_byte(self, k: usize) -> u8
        requires { k < 2 ^ self.n }
        ensures { let t = self.entry in result ≡ started (λ x. (node_bit t.faults.now x || node_bit t.closed.now x) || node_bit t.draining.now x) k }
    {
        let faulty = Faulty {
            n: self.n,
            faults: self.faults,
            closed: self.closed,
        };
        let out = faulty.has(k);
        let drains = node_bit(self.draining, k);
        if out | drains { OUT } else { PLAIN }
    }

    // The label table before the first round.
    pub fn start(self, labels: &mut [u8])
        requires { length labels.old ≡ 2 ^ self.n }
        ensures { let t = self.entry in labels.new ≡ tab (2 ^ t.n) (started (λ x. (node_bit t.faults.now x || node_bit t.closed.now x) || node_bit t.draining.now x)) }
    {
        for (k, label) in labels.iter_mut().enumerate() {
            *label = self.start_byte(k);
        }
    }
}

// The marks of one round; answers how many.
// (`Sized` stays a clause here, in `finish` and in `label_nodes`: the table is lent to be written, and no struct holds it meanwhile.)
pub fn sweep(n: usize, rule: Rule, labels: &mut [u8]) -> usize
    requires kept { Kept labels.old }
    requires sized { Sized n labels.old }
    ensures marked { result ≡ count (2 ^ n) (fresh n rule.number labels.old) }
    ensures labels { labels.new ≡ tab (2 ^ n) (swept n rule.number labels.old) }
{
    let mut marked = 0;
    for x in 0..labels.len() {
        let node = Node {
            n,
            labels: &labels[..],
            x,
        };
        if node.is_fresh(rule) {
            labels[x] = NEW;
            marked += 1;
        }
    }
    marked
}

// What a byte is at the end of a round. (No `From`: both are bytes.)
fn settled_byte(byte: u8) -> u8
    ensures { result ≡ cond (eqb byte 128) 2 byte }
{
    if byte == NEW { MARKED } else { byte }
}

// The end of a round that marked something.
pub fn settle(labels: &mut [u8])
    ensures { labels.new ≡ tab (length labels.old) (settled labels.old) }
{
    for label in labels.iter_mut() {
        *label = settled_byte(*label);
    }
}
