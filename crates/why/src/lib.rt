// The two questions that say why. `why_node` labels the nodes by labelling's own loop, and watches one node: when a round marks it, the marks of the earlier
// rounds are still in the table, and the node's cause is read from them. `why_hop` makes the tests and the scans of a hop, and answers which scan
// took it. Both take any numbers and bytes, and test them; what reads labels is handed the job's half alone.
#![tactic(auto)]

ghost use Rattle.std.specs.Prelude.{◌<◌, ◌≤◌, ◌^◌, ◌&&◌, ◌||◌, eqb, leb, length, ◌≡◌};
ghost use Rattle.cube.specs.Refused.{answered};
ghost use Rattle.causes.specs.Cause.{bad_cause, cause_with, from};
ghost use Rattle.cube.specs.Count.{count};
ghost use Rattle.cube.specs.Cube.{flip};
ghost use Rattle.cube.specs.Tables.{label_in};
ghost use Rattle.jobs.specs.Jobs.{label_for};
ghost use Rattle.passes.specs.Passes.{NodeOf, mark_in, out_in};
ghost use Rattle.rule.specs.Cabinet.{cabinet, labels_of};
ghost use Rattle.why.specs.Helpers.{counted, reason_by, taken, unmarked, watched_on};
ghost use Rattle.why.specs.HopReasons.{hop_reason};
ghost use Rattle.why.specs.NodeReasons.{labels_left, node_reason, node_refusal, reason_of};

use causes::Cause;
use cube::nodes;
use cube::refusals::Refusal;
use hop::{at_node, place_refusal};
use jobs::Labels;
use labels::{Watch, label_nodes, label_refusal};
use passes::{MARKED, NEW, Node, OUT, Rule, Tables};

// Why a node has its label.
#[derive(Drop)]
pub enum NodeReason {
    Safe(usize, usize), // how many neighbours do not work, and how many are not safe
    Unsafe(u8, usize, Cause), // its label, the round that marked it, and its cause
    Out(u8), // its label: it does not work
}

// Why a hop is taken: the scan, and the dimension.
#[derive(Drop)]
pub enum HopReason {
    Deliver,
    Hop(usize, usize),
    Halted,
}

// ---- a node

// Whether a node with this label counts: it does not work or, where marks count too, an earlier round marked it. A mark of this round does not count.
fn counts(label: u8, marks: bool) -> bool
    ensures { result ≡ (eqb label 3 || (marks && eqb label 2)) }
{
    (label == OUT) | (marks & (label == MARKED))
}

// The lowest dimension from i on across which the node has a neighbour that counts; n where there is none. It stays a loop: the closure of a `find` needs a
// `requires` of its own for `near`, and the whole is longer. `marks` stays a flag: it is a part of the one test, and closures in its place need a contract each.
// (No Option for none: a cause names dimensions that are known to be there, and would open each one.)
fn next_from(node: Node, marks: bool, i: usize) -> usize
    ensures { result ≡ from node.entry.n (λ k. counted node.entry.labels.now marks (flip k node.entry.x)) i }
{
    for k in i..node.n {
        if counts(node.near(k), marks) {
            return k;
        }
    }
    node.n
}

// The cause of a node that has not two neighbours that do not work.
fn bad_cause(rule: usize, node: Node) -> Cause
    ensures { result ≡ bad_cause node.entry.n rule (out_in node.entry.labels.now) (mark_in node.entry.labels.now) node.entry.x }
{
    let a = next_from(node, true, 0);
    let b = next_from(node, true, a + 1);
    if rule == 2 {
        return Cause::Two(a, b);
    }
    let c = next_from(node, true, b + 1);
    Cause::Three(a, b, c)
}

// The cause of a node that meets the rule, by the table of the round that marks it.
fn cause(rule: usize, node: Node) -> Cause
    ensures { result ≡ cause_with node.entry.n rule (out_in node.entry.labels.now) (mark_in node.entry.labels.now) node.entry.x }
{
    let a = next_from(node, false, 0);
    let b = next_from(node, false, a + 1);
    if b < node.n {
        return Cause::Faulty(a, b);
    }
    bad_cause(rule, node)
}

// Who watches node x of an n-cube while it is labelled by a rule: what it has seen is the round that marked x, and x's cause.
#[derive(Drop)]
struct Watcher {
    n: usize,
    rule: usize,
    x: usize,
    seen: Option<(usize, Cause)>,
}

impl Watch for Watcher {
    ghost after = { λ w l r. record { n = w.n; rule = w.rule; x = w.x; seen = watched_on w.n w.rule l w.x r w.seen } };

    ghost fits = { λ w m. (w.n ≤ 12) × ((m ≡ 2 ^ w.n) × (w.x < 2 ^ w.n)) };

    // The marks of this round are in the table, and those of the earlier rounds are still told from them.
    fn look(&mut self, labels: &[u8], round: usize) {
        let node = Node {
            n: self.n,
            labels,
            x: self.x,
        };
        if node.label() == NEW {
            self.seen = Some((round, cause(self.rule, node)));
        }
    }

    ghost still_fits = { λ w l r m f. f };
}

// How many of a node's neighbours have a label of at least low. It stays a loop for the reason that `next_from` does.
fn labelled_from(node: Node, low: u8) -> usize
    ensures { result ≡ count node.entry.n (λ i. leb low (label_in node.entry.labels.now (flip i node.entry.x))) }
{
    let mut found = 0;
    for i in 0..node.n {
        if low <= node.near(i) {
            found += 1;
        }
    }
    found
}

// Why a node has its label, where no round marked it: it does not work, or it is safe.
fn unmarked_reason(node: Node) -> NodeReason
    ensures { result ≡ unmarked node.entry.n (label_in node.entry.labels.now) node.entry.x }
{
    let label = node.label();
    if OUT <= label {
        return NodeReason::Out(label);
    }
    let out = labelled_from(node, OUT);
    let not_safe = labelled_from(node, 1);
    NodeReason::Safe(out, not_safe)
}

// Why a node has its label, by the final labels and by what was seen of it.
fn reason(node: Node, watched: Option<(usize, Cause)>) -> NodeReason
    ensures { result ≡ reason_by node.entry.n (label_in node.entry.labels.now) node.entry.x watched }
{
    match watched {
        Some((round, cause)) => NodeReason::Unsafe(node.label(), round, cause),
        None => unmarked_reason(node),
    }
}

// Labels every node of an accepted cabinet in the half of its job, as labelling does, and answers why x has its label.
fn label_watching(rule: Rule, tables: Tables, x: usize, labels: &mut [u8]) -> NodeReason
    requires { NodeOf tables.n labels.old x }
    ensures answer { let t = tables.entry in result ≡ reason_of (cabinet t.n rule.number t.faults.now t.draining.now t.closed.now) x }
    ensures labels { let t = tables.entry in labels.new ≡ labels_of (cabinet t.n rule.number t.faults.now t.draining.now t.closed.now) }
{
    let n = tables.n;
    let mut watcher = Watcher {
        n,
        rule: rule.number,
        x,
        seen: None,
    };
    let _ = label_nodes(rule, tables, &mut watcher, labels);
    let node = Node {
        n,
        labels: &labels[..],
        x,
    };
    reason(node, watcher.seen)
}

// The refusals: those of labelling, then that of the node.
fn node_refusal(
    n: usize,
    rule: usize,
    job: usize,
    x: usize,
    faults: &[u8],
    draining: &[u8],
    closed: &[u8],
    m: usize,
) -> Result<(), Refusal>
    ensures { result ≡ answered (node_refusal (cabinet n rule faults.now draining.now closed.now) job m x) tt }
{
    label_refusal(n, rule, job, faults, draining, closed, m)?;
    if nodes(n) <= x {
        return Err(Refusal::Node);
    }
    Ok(())
}

// Why node x has its label, for a job. The label buffer is left as labelling leaves it, or refused, as it was.
pub fn why_node(
    n: usize,
    rule: usize,
    job: usize,
    x: usize,
    faults: &[u8],
    draining: &[u8],
    closed: &[u8],
    labels: &mut [u8],
) -> Result<NodeReason, Refusal>
    ensures answer { result ≡ node_reason (cabinet n rule faults.now draining.now closed.now) job (length labels.old) x }
    ensures labels { labels.new ≡ labels_left (cabinet n rule faults.now draining.now closed.now) job x labels.old }
{
    node_refusal(n, rule, job, x, faults, draining, closed, labels.len())?;
    let size = nodes(n);
    let from = job * size;
    let to = from + size;
    let rule = Rule { number: rule };
    let tables = Tables {
        n,
        faults,
        draining,
        closed,
    };
    Ok(label_watching(rule, tables, x, &mut labels[from..to]))
}

// ---- a hop

// Why a hop is taken away from the destination, by what the scans picked.
fn taken(picked: Option<(usize, usize)>) -> HopReason
    ensures { result ≡ taken picked }
{
    match picked {
        Some((scan, dimension)) => HopReason::Hop(scan, dimension),
        None => HopReason::Halted,
    }
}

// Why the hop at c on the way to d is taken, for a job. It is asked as the hop is, and reads the same labels: of the job's half c's and each neighbour's once.
// (It is `hop` once more: one generic body would be handed both decisions as closures, with a contract each, and is no plainer.)
pub fn why_hop(
    n: usize,
    job: usize,
    c: usize,
    d: usize,
    labels: &[u8],
) -> Result<HopReason, Refusal>
    ensures { result ≡ hop_reason n job c d (length labels.now) (label_for n job labels.now) }
{
    place_refusal(n, job, c, d, labels.len(), false)?;
    let mut near = [0u8; 12];
    let here = at_node(Labels::of(n, job, labels), c, d, &mut near)?;
    if c != d {
        return Ok(taken(here.chosen()));
    }
    Ok(HopReason::Deliver)
}
