// Labelling: which working nodes are safe, ordinarily unsafe or strongly unsafe. Here are its refusals and its loop over the rounds; the passes that the loop
// makes over the job's half of the lent label buffer are in the crate passes. Only `label` and its refusals know that there are two jobs: the loop is handed
// the half of one. The refusals and the loop are lent to the crate why, which watches a node while the rounds go on.
#![tactic(auto)]

ghost use Rattle.std.specs.Prelude.{List, ℕ, length, ◌≡◌};
ghost use Rattle.cube.specs.Refused.{answered};
ghost use Rattle.labels.specs.Labelling.{label_refusal, labelled, labels_after};
ghost use Rattle.labels.specs.Watched.{looked_all};
ghost use Rattle.passes.specs.Passes.{Sized};
ghost use Rattle.rule.specs.Cabinet.{cabinet, exchanges_of, is_rule, labels_of};

use cube::refusals::Refusal;
use cube::{is_dimension, nodes, table_len, unused_set};
use jobs::{is_job, label_bytes};
use passes::{Faulty, Rule, Tables, settle, sweep};

// Whether k is the number of a rule: so many neighbours that do not work or are marked make a node unsafe. 2 is the rule of Lee and Hayes, 3 that of
// Chiu and Wu.
fn is_rule(k: usize) -> bool
    ensures { result ≡ is_rule k }
{
    (2 <= k) & (k <= 3)
}

// Whether labelling is refused, and why: of a cabinet, a job, and a label buffer of m bytes.
pub fn label_refusal(
    n: usize,
    rule: usize,
    job: usize,
    faults: &[u8],
    draining: &[u8],
    closed: &[u8],
    m: usize,
) -> Result<(), Refusal>
    ensures { result ≡ answered (label_refusal (cabinet n rule faults.now draining.now closed.now) job m) tt }
{
    if !is_dimension(n) {
        return Err(Refusal::Dimension);
    }
    if !is_rule(rule) {
        return Err(Refusal::Rule);
    }
    if !is_job(job) {
        return Err(Refusal::Job);
    }
    let len = table_len(n);
    if faults.len() != len || draining.len() != len || closed.len() != len || m != label_bytes(n) {
        return Err(Refusal::Length);
    }
    if unused_set(n, faults) || unused_set(n, draining) || unused_set(n, closed) {
        return Err(Refusal::Unused);
    }
    Ok(())
}

// Who watches labelling. In each round that marks something new it looks at the label table, once the round's marks are in it and before the round ends.
pub trait Watch {
    // What it is once it has looked at this table, in the round of this number.
    ghost after: { Self → List ℕ → ℕ → Self };

    // That it can look at a table of so many labels.
    ghost fits: { Self → ℕ → Type 0 };

    fn look(&mut self, labels: &[u8], round: usize)
        requires { fits self.old (length labels.now) }
        ensures { self.new ≡ after self.old labels.now round };

    ghost still_fits: { (w : Self) (l : List ℕ) (r m : ℕ) → fits w m → fits (after w l r) m };
}

// Nobody watches.
impl Watch for () {
    ghost after = { λ w l r. w };

    ghost fits = { λ w m. Unit };

    fn look(&mut self, _labels: &[u8], _round: usize) {}

    ghost still_fits = { λ w l r m f. f };
}

// Labels every node of an accepted cabinet in the half of its job, under the eyes of a watcher, and answers the number of exchanges: each sweep is one, and the
// last is the first that marks nothing new.
// (A `while`: no range has the rounds, since the last is the first that marks nothing.)
pub fn label_nodes<W: Watch>(
    rule: Rule,
    tables: Tables,
    watcher: &mut W,
    labels: &mut [u8],
) -> usize
    requires sized { Sized tables.n labels.old }
    requires fits { W.fits watcher.old (length labels.old) }
    ensures exchanges { let t = tables.entry in result ≡ exchanges_of (cabinet t.n rule.number t.faults.now t.draining.now t.closed.now) }
    ensures labels { let t = tables.entry in labels.new ≡ labels_of (cabinet t.n rule.number t.faults.now t.draining.now t.closed.now) }
    ensures watcher { let t = tables.entry in watcher.new ≡ looked_all W.after (cabinet t.n rule.number t.faults.now t.draining.now t.closed.now) watcher.old }
{
    let Tables {
        n,
        faults,
        closed,
        ..
    } = tables;
    tables.start(labels);
    let mut exchanges = 1;
    while sweep(n, rule, labels) != 0 {
        watcher.look(labels, exchanges);
        settle(labels);
        exchanges += 1;
    }
    let faulty = Faulty { n, faults, closed };
    faulty.finish(labels);
    exchanges
}

// Labels every node by the rule, for a job, and answers the number of exchanges, the quiet one included, or refuses and leaves the label buffer as it was.
// The other job's half is left as it was either way.
// (The questions take what they are asked one by one, as C hands it: `InOrder`. The half is taken in the same lines by `why_node`,
// which answers another question.)
pub fn label(
    n: usize,
    rule: usize,
    job: usize,
    faults: &[u8],
    draining: &[u8],
    closed: &[u8],
    labels: &mut [u8],
) -> Result<usize, Refusal>
    ensures answer { result ≡ labelled (cabinet n rule faults.now draining.now closed.now) job (length labels.old) }
    ensures labels { labels.new ≡ labels_after (cabinet n rule faults.now draining.now closed.now) job labels.old }
{
    label_refusal(n, rule, job, faults, draining, closed, labels.len())?;
    let size = nodes(n);
    let from = job * size;
    let to = from + size;
    let rule = Rule { number: rule };
    let tables = Tables {
        n,
        faults,
        draining,
        closed,
    };
    let exchanges = label_nodes(rule, tables, &mut (), &mut labels[from..to]);
    Ok(exchanges)
}
