// Two jobs on one cabinet: both label tables stand in one lent buffer, job 0's first, and a question reads the half of its own job alone. Nothing here
// refuses: the crates above test what they are handed before they ask.
#![tactic(auto)]

ghost use Rattle.std.specs.Prelude.{◌+◌, ◌*◌, ◌<◌, ◌≤◌, ◌^◌, length, ◌≡◌};
ghost use Rattle.cube.specs.Tables.{label_in};
ghost use Rattle.jobs.specs.Jobs.{Halved, half, is_job, label_bytes};

use cube::nodes;

// Whether a job has this number: 0 or 1.
// A job stays a number, and is no enum, for the C interface: C hands any number, and each question refuses all others with 19.
pub fn is_job(job: usize) -> bool
    ensures { result ≡ is_job job }
{
    job < 2
}

// The bytes of a label buffer: a label table for each of the two jobs.
pub fn label_bytes(n: usize) -> usize
    requires { n < 63 }
    ensures { result ≡ label_bytes n }
{
    2 * nodes(n)
}

// The half of a job, as a part of the lent buffer.
pub fn half(n: usize, job: usize, labels: &[u8]) -> &[u8]
    requires { Halved n job (length labels.now) }
    ensures bytes { result.now ≡ half job (2 ^ n) labels.now }
    ensures place { result.ref_ptr ≡ (labels.entry.ref_ptr.0, labels.entry.ref_ptr.1 + job * 2 ^ n) }
{
    let size = nodes(n);
    let from = job * size;
    let to = from + size;
    &labels[from..to]
}

// The labels of one job: a byte for each node of an n-cube.
#[derive(Clone, Copy)]
pub struct Labels<'a> {
    pub n: usize,
    pub bytes: &'a [u8],
    ghost small: { n ≤ 12 },
    ghost sized: { length bytes.now ≡ 2 ^ n },
}

impl<'a> Labels<'a> {
    // Those of a job, by its half of the lent buffer.
    pub fn of(n: usize, job: usize, labels: &'a [u8]) -> Labels<'a>
        requires { Halved n job (length labels.now) }
        ensures n { result.n ≡ n }
        ensures bytes { result.bytes.now ≡ half job (2 ^ n) labels.now }
    {
        Labels {
            n,
            bytes: half(n, job, labels),
        }
    }

    // The label of node x.
    #[tactic(auto, unfolding(cube::specs::Tables::label_in))]
    pub fn at(self, x: usize) -> u8
        requires { x < 2 ^ self.n }
        ensures { result ≡ label_in self.entry.bytes.now x }
    {
        self.bytes[x]
    }
}
