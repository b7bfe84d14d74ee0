// The walk by networks, for a job and on a board: hops of Algorithm ROUTE_C until a decision is no hop, or is one that the board has no network for.
// `walk_networks` is the question: it takes any numbers and bytes, and tests them. The other functions are its own, and what reads labels is handed the job's
// half alone.
#![tactic(auto)]

ghost use Rattle.std.specs.Prelude.{◌<◌, ◌≤◌, ◌^◌, ◌++◌, drop, length, take, ◌≡◌};
ghost use Rattle.blocks.specs.Board.{hops_on, last_on, number_at};
ghost use Rattle.cube.proofs.Front.{front};
ghost use Rattle.cube.specs.Tables.{label_in};
ghost use Rattle.jobs.specs.Jobs.{label_for};
ghost use Rattle.walk_networks.specs.Crossing.{crossing, ended_by, hops_after, made};

use cube::neighbour;
use cube::refusals::Refusal;
use hop_networks::{after, board_refusal, is_board, list_refusal, pick_at};
use jobs::Labels;
use walk::table_refusal;

// How a walk ended, with its hop count.
#[derive(Clone, Copy)]
pub enum Crossed {
    Delivered(usize),
    Halted(usize),
}

impl Crossed {
    // The hops of the walk.
    fn hops(self) -> usize
        ensures { result ≡ made self }
    {
        match self {
            Crossed::Delivered(k) => k,
            Crossed::Halted(k) => k,
        }
    }
}

// The walk from s: how it ends, and in the front of list its hops, each network * 16 + dimension. It is refused where a hop needs a network that the board
// lacks. No walk has more than 120 hops, 12 in each of ten phases. list is an array, since the archive has no heap, and its length is the hop count that is
// answered. The loop ends at d and not at a count: after 120 hops the walk may still deliver, halt or be refused, so behind a `for` over the places of list the
// tests would stand again.
#[tactic(auto, unfolding(hop::specs::Helpers::found))]
fn find(
    labels: Labels,
    networks: usize,
    s: usize,
    d: usize,
    list: &mut [u8; 120],
) -> Result<Crossed, Refusal>
    requires { (s < 2 ^ labels.n) × (d < 2 ^ labels.n) × (0 < networks) × (networks ≤ 5) × (length list.old ≡ 120) }
    ensures answer { let l = labels.entry in let lab = label_in l.bytes.now in result ≡ ended_by (hops_on l.n networks lab d s) (last_on l.n networks lab d s) }
    ensures list { let l = labels.entry in let lab = label_in l.bytes.now in list.new ≡ front (number_at l.n lab d s) (hops_on l.n networks lab d s) list.old }
{
    let mut at = s;
    let mut phase = 0;
    let mut hops = 0;
    while at != d {
        let Some(i) = pick_at(labels, at, d, phase) else {
            return Ok(Crossed::Halted(hops));
        };
        let next = after(phase, at, i);
        if 2 * networks <= next {
            return Err(Refusal::Network);
        }
        list[hops] = (next / 2 * 16 + i) as u8;
        at = neighbour(at, i);
        phase = next;
        hops += 1;
    }
    Ok(Crossed::Delivered(hops))
}

// Writes the first count hops of list to the front of out.
fn write(count: usize, list: &[u8; 120], out: &mut [u8])
    requires { (count ≤ 120) × (count ≤ length out.old) }
    ensures { out.new ≡ take count list.now ++ drop count out.old }
{
    out[..count].copy_from_slice(&list[..count]);
}

// The walk from s to d for a job, on a board. The hops are found in whole before the first is written, so a refusal writes nothing.
pub fn walk_networks(
    n: usize,
    networks: usize,
    job: usize,
    s: usize,
    d: usize,
    labels: &[u8],
    hops: &mut [u8],
) -> Result<Crossed, Refusal>
    ensures answer { result ≡ crossing n networks job s d (length labels.now) (length hops.old) (label_for n job labels.now) }
    ensures hops { hops.new ≡ hops_after n networks job s d (length labels.now) (label_for n job labels.now) hops.old }
{
    board_refusal(n, !is_board(networks))?;
    let most = 2 * n * networks;
    list_refusal(n, job, s, d, labels.len(), hops.len() < most)?;
    let table = Labels::of(n, job, labels);
    table_refusal(table, s, d)?;
    let mut list = [0u8; 120];
    let found = find(table, networks, s, d, &mut list)?;
    write(found.hops(), &list, hops);
    Ok(found)
}
