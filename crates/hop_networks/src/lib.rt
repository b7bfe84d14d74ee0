// One hop by networks: the decision of Algorithm ROUTE_C at a node, for a job and on a board. `hop_networks` is the question: it takes any numbers and bytes,
// and tests them. `is_board`, `board_refusal`, `list_refusal`, `pick_at` and `after` are lent to the walk by networks. The other functions are theirs.
#![tactic(auto)]

ghost use Rattle.std.specs.Prelude.{◌<◌, ◌≤◌, ◌^◌, get_or, length, ◌≢◌, ◌≡◌};
ghost use Rattle.blocks.specs.Blocks as blocks;
ghost use Rattle.blocks.specs.Phase as phases;
ghost use Rattle.cube.specs.Cube.{flip};
ghost use Rattle.cube.specs.Refused.{answered};
ghost use Rattle.cube.specs.Tables.{label_in};
ghost use Rattle.hop.specs.Helpers.{found};
ghost use Rattle.hop_networks.specs.Helpers.{board_refusal, decided_on, is_forward, list_refusal, on_set, side_set};
ghost use Rattle.hop_networks.specs.Hopping.{hopped_in, is_board};
ghost use Rattle.jobs.specs.Jobs.{label_for};

use cube::refusals::Refusal;
use cube::{distance, is_dimension, nodes};
use hop::{Decision, Here, around, at_node, lowest};
use jobs::{Labels, is_job, label_bytes};

// Whether a board may have so many networks.
#[tactic(auto, unfolding(crate::specs::Hopping::is_board))]
pub fn is_board(networks: usize) -> bool
    ensures { result ≡ is_board networks }
{
    (1..=5).contains(&networks)
}

// The refusals of the dimension and the board: lacking says that the board is none, or has not what is asked of it.
// (lacking, and short of `list_refusal`, stay flags: `board_tests` and `list_tests` have them, and each question hands over a test of its own.)
#[tactic(auto, unfolding(crate::specs::Helpers::board_refusal, cube::specs::Refusal::first))]
pub fn board_refusal(n: usize, lacking: bool) -> Result<(), Refusal>
    ensures { result ≡ answered (board_refusal n lacking) tt }
{
    if !is_dimension(n) {
        return Err(Refusal::Dimension);
    }
    if lacking {
        return Err(Refusal::Board);
    }
    Ok(())
}

// The refusals behind these that need no label: of a job, a label buffer of len bytes, a hop list that may be too short, and two nodes.
// (Beside hop's `place_refusal`: 13 for 2, and the dimension is tested before the board. One function would take two flags more.)
#[tactic(auto, unfolding(crate::specs::Helpers::list_refusal, cube::specs::Refusal::first))]
pub fn list_refusal(
    n: usize,
    job: usize,
    a: usize,
    b: usize,
    len: usize,
    short: bool,
) -> Result<(), Refusal>
    requires { n ≤ 12 }
    ensures { result ≡ answered (list_refusal n job a b len short) tt }
{
    if !is_job(job) {
        return Err(Refusal::Job);
    }
    if len != label_bytes(n) {
        return Err(Refusal::Length);
    }
    if short {
        return Err(Refusal::Room);
    }
    let size = nodes(n);
    if (size <= a) | (size <= b) {
        return Err(Refusal::Node);
    }
    Ok(())
}

// The phase in which the hop from c across dimension i is made: one on, where bit i of c is not that of the phase. A phase is a number, twice the network and
// one more where it goes down: it is counted and compared as one, so a struct would be opened at each use.
pub fn after(phase: usize, c: usize, i: usize) -> usize
    requires { (phase < 64) × (i < 64) }
    ensures { result ≡ phases.after phase c i }
{
    phase + (((c >> i) ^ phase) & 1)
}

// The dimensions that a call of FORWARD looks at: those in which the node and the destination differ, or the others.
#[derive(Clone, Copy)]
enum Side {
    Forward,
    Spare,
}

impl Side {
    // Its dimensions at c, as the bits of a number.
    // (n ≤ 12 stays a clause where n alone is handed: a type would hold the number alone.)
    #[tactic(auto, unfolding(crate::specs::Helpers::side_set))]
    fn set(self, n: usize, c: usize, d: usize) -> usize
        requires { n ≤ 12 }
        ensures { result ≡ side_set n c d (is_forward self) }
    {
        match self {
            Side::Forward => c ^ d,
            Side::Spare => c ^ d ^ (nodes(n) - 1),
        }
    }
}

// Whether a phase goes down.
#[tactic(auto, unfolding(blocks::specs::Phase::down))]
fn goes_down(phase: usize) -> bool
    ensures { result ≡ phases.down phase }
{
    phase % 2 == 1
}

// The dimensions in which a hop from c goes on in the phase's direction: going down the bits of c that are 1, going up those that are 0.
#[tactic(auto, unfolding(crate::specs::Helpers::on_set))]
fn on_set(n: usize, c: usize, phase: usize) -> usize
    requires { n ≤ 12 }
    ensures { result ≡ on_set n c phase }
{
    if goes_down(phase) {
        return c;
    }
    c ^ (nodes(n) - 1)
}

// "c is strongly unsafe or l ≤ 2".
// (hop's `third` has it of a node; here the distance is counted once for three tests.)
#[tactic(auto, unfolding(blocks::specs::Blocks::eager))]
fn eager(own: u8, l: u32) -> bool
    ensures { result ≡ blocks.eager own l }
{
    (own == 2) | (l <= 2)
}

// Whether the fourth block makes the hop that it finds: from down to up in network 0 alone, or where the destination is near.
// (Two functions, since the figure has two sentences: one with a flag for network 0 is no plainer.)
#[tactic(auto, unfolding(blocks::specs::Blocks::may_fourth))]
fn may_fourth(l: u32, phase: usize) -> bool
    ensures { result ≡ blocks.may_fourth l phase }
{
    !goes_down(phase) | ((phase <= 1) | (l <= 2))
}

// Whether the sixth block does: from down to up only where the destination is near.
#[tactic(auto, unfolding(blocks::specs::Blocks::may_sixth))]
fn may_sixth(l: u32, phase: usize) -> bool
    ensures { result ≡ blocks.may_sixth l phase }
{
    !goes_down(phase) | (l <= 2)
}

// What a node knows of a message, and the message's phase.
#[derive(Clone, Copy)]
struct InPhase<'a> {
    here: Here<'a>,
    phase: usize,
}

impl InPhase<'_> {
    // One call of FORWARD, for the dimensions of one side: the dimension of its hop. on are those of the phase's direction, turning the others.
    // (No chain of `or_else`, here and in `pick`, for the reason that hop's `scanned` gives.)
    fn call(&self, side: Side) -> Option<usize>
        ensures { let s = self.now.here in result ≡ found s.n (blocks.call s.n s.c s.d self.now.phase s.own (λ i. get_or s.near.now i 0) (is_forward side)) }
    {
        let here = &self.here;
        let set = side.set(here.n, here.c, here.d);
        let on = set & on_set(here.n, here.c, self.phase);
        let turning = set ^ on;
        if let Some(i) = lowest(here.n, on, here.near, 0) {
            return Some(i);
        }
        if let Some(i) = lowest(here.n, turning, here.near, 0) {
            return Some(i);
        }
        if let Some(i) = lowest(here.n, on, here.near, 1) {
            return Some(i);
        }
        let l = distance(here.c, here.d);
        if let Some(i) = lowest(here.n, turning, here.near, 1) {
            return may_fourth(l, self.phase).then_some(i);
        }
        if !eager(here.own, l) {
            return None;
        }
        if let Some(i) = lowest(here.n, on, here.near, 2) {
            return Some(i);
        }
        if may_sixth(l, self.phase) {
            return lowest(here.n, turning, here.near, 2);
        }
        None
    }

    // The dimension of the hop, away from the destination: to d itself where it drains next door, else by the forward dimensions, else by the spare ones.
    fn pick(&self) -> Option<usize>
        requires { self.now.here.c ≢ self.now.here.d }
        ensures { let s = self.now.here in result ≡ found s.n (blocks.pick s.n s.c s.d self.now.phase s.own (λ i. get_or s.near.now i 0)) }
    {
        if let Some(i) = self.here.last_hop() {
            return Some(i);
        }
        if let Some(i) = self.call(Side::Forward) {
            return Some(i);
        }
        self.call(Side::Spare)
    }

    // The decision on a board, with the number of its hop: network * 16 + dimension. It is refused where the board lacks that network.
    #[tactic(auto, unfolding(hop::specs::Helpers::found))]
    fn decided(&self, networks: usize) -> Result<Decision, Refusal>
        requires { (networks ≤ 5) × (self.now.phase < 64) }
        ensures { let s = self.now.here in result ≡ decided_on s.n networks s.c s.d self.now.phase s.own (λ i. get_or s.near.now i 0) }
    {
        if self.here.c == self.here.d {
            return Ok(Decision::Deliver);
        }
        let Some(i) = self.pick() else {
            return Ok(Decision::Halted);
        };
        let next = after(self.phase, self.here.c, i);
        if 2 * networks <= next {
            return Err(Refusal::Network);
        }
        Ok(Decision::Hop(next / 2 * 16 + i))
    }
}

// The dimension of the hop at c, by a label table that was tested: what a walk asks at each node.
pub fn pick_at(labels: Labels, c: usize, d: usize, phase: usize) -> Option<usize>
    requires { (c < 2 ^ labels.n) × (d < 2 ^ labels.n) × (c ≢ d) }
    ensures { let lab = label_in labels.entry.bytes.now in result ≡ found labels.entry.n (blocks.pick labels.entry.n c d phase (lab c) (λ i. lab (flip i c))) }
{
    let mut near = [0u8; 12];
    let (here, _) = around(labels, c, d, &mut near);
    let message = InPhase { here, phase };
    message.pick()
}

// The decision at c on the way to d, for a job, on a board: the message is in that network, and goes down where down is 1. Both are numbers, since C hands them
// so. Of the job's half it reads c's label and each neighbour's once, and no other byte.
pub fn hop_networks(
    n: usize,
    networks: usize,
    job: usize,
    c: usize,
    d: usize,
    network: usize,
    down: usize,
    labels: &[u8],
) -> Result<Decision, Refusal>
    ensures { result ≡ hopped_in n networks job c d network down (length labels.now) (label_for n job labels.now) }
{
    board_refusal(
        n,
        !is_board(networks) | ((networks <= network) | (1 < down)),
    )?;
    list_refusal(n, job, c, d, labels.len(), false)?;
    let mut near = [0u8; 12];
    let here = at_node(Labels::of(n, job, labels), c, d, &mut near)?;
    let message = InPhase {
        here,
        phase: 2 * network + down,
    };
    message.decided(networks)
}
