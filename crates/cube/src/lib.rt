// The cube: nodes as numbers, the neighbour across a dimension, the Hamming distance, the bits of a fault table, and the nodes of a label.
// Nothing here refuses: the crates above test what they are handed before they ask, and give the refusals of refusals.rt.
#![tactic(auto)]

ghost use Rattle.std.specs.Prelude.{◌/◌, ◌^◌, ◌<◌, ◌≤◌, length, ◌≡◌};
ghost use Rattle.cube.specs.Cube.{dist, flip};
ghost use Rattle.cube.specs.Tables.{is_dimension, label_count, node_bit, table_len, unused_set};

pub mod refusals;

pub const HIGHEST: u8 = 4; // the highest label

// How many nodes an n-cube has.
pub fn nodes(n: usize) -> usize
    requires { n < 64 }
    ensures { result ≡ 2 ^ n }
{
    1 << n
}

// Node x's neighbour across dimension i.
pub fn neighbour(x: usize, i: usize) -> usize
    requires { i < 64 }
    ensures { result ≡ flip i x }
{
    x ^ (1 << i)
}

// The Hamming distance of two nodes.
pub fn distance(c: usize, d: usize) -> u32
    ensures { result ≡ dist c d }
{
    (c ^ d).count_ones()
}

// Whether n is a dimension that the library takes, 1 to 12.
// (A range of its own, as `is_rule`, `is_board` and `is_tallied` are: a function with the two bounds is no plainer than the range.)
#[tactic(auto, unfolding(crate::specs::Tables::is_dimension))]
pub fn is_dimension(n: usize) -> bool
    ensures { result ≡ is_dimension n }
{
    matches!(n, 1..=12)
}

// The bytes of a fault table.
pub fn table_len(n: usize) -> usize
    requires { n < 64 }
    ensures { result ≡ table_len n }
{
    if n <= 3 { 1 } else { nodes(n) / 8 }
}

// Node k's bit in a fault table.
pub fn node_bit(t: &[u8], k: usize) -> bool
    requires { k / 8 < length t.now }
    ensures { result ≡ node_bit t.now k }
{
    let byte = t[k / 8];
    (byte >> (k % 8)) % 2 == 1
}

// A table of nodes, as a fault table is: a bit for each node of an n-cube.
#[derive(Clone, Copy)]
pub struct NodeTable<'a> {
    pub n: usize,
    pub size: usize, // a loop that ends at 1 << n shifts at each turn
    pub bytes: &'a [u8],
    ghost small: { n ≤ 12 },
    ghost counted: { size ≡ 2 ^ n },
    ghost sized: { length bytes.now ≡ table_len n },
}

impl NodeTable<'_> {
    // Whether node k is in it.
    #[tactic(auto, using(crate::proofs::Tables::node_room))]
    pub fn has(self, k: usize) -> bool
        requires { k < 2 ^ self.n }
        ensures { result ≡ node_bit self.entry.bytes.now k }
    {
        node_bit(self.bytes, k)
    }
}

// Whether a fault table has a bit set that stands for no node. Only n = 1 and 2 have such bits.
pub fn unused_set(n: usize, t: &[u8]) -> bool
    requires { length t.now ≡ table_len n }
    ensures { result ≡ unused_set n t.now }
{
    if 3 <= n {
        return false;
    }
    let byte = t[0];
    byte >> nodes(n) != 0
}

// How many nodes have this label.
pub fn count_of(labels: &[u8], label: u8) -> usize
    ensures { result ≡ label_count labels.now label }
{
    labels.iter().filter(|l| **l == label).count()
}
