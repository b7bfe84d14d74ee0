// What the listing program prints: a line for the notice at the front of the input, and a line for each pair behind it. `listing` of specs/Printed.antt is
// all of it; the program writes it line by line. Each line is made in a `Line` that the caller lends, and what it held is gone.
#![tactic(auto)]

ghost use Rattle.std.specs.Prelude.{◌≤◌, length, replicate, ◌≡◌};
ghost use Rattle.cube.specs.Refused.{number};
ghost use Rattle.cube.specs.Tables.{empty_table};
ghost use Rattle.labels.specs.Labelling.{label_refusal, labels_after};
ghost use Rattle.lines.specs.Lines.{input_refused};
ghost use Rattle.notice.specs.Notice.{dimension_of, notice_of, tail_at};
ghost use Rattle.printed.specs.Printed.{Headed, first_line, labels_in, line_at, next_at, pair_at, wanted_len};
ghost use Rattle.rule.specs.Cabinet.{cabinet};

use cube::refusals::Refusal;
use cube::table_len;
use groups::number_at;
use jobs::{half, label_bytes};
use lines::{Line, cube_line, pair_line, refused_line};
use notice::{Notice, dimension};
use walk::walk;

// A cube whose nodes are labelled: its dimension, and the bytes of its label buffer.
#[derive(Drop)]
pub struct Labelled {
    pub n: usize,
    pub bytes: usize,
}

// ---- for the notice

// The bytes of the fault table that the notice asks for.
#[tactic(auto, using(notice::proofs::Opened::opened_dimension), unfolding(crate::specs::Printed::wanted_len))]
fn wanted_len(bytes: &[u8]) -> usize
    ensures { result ≡ wanted_len bytes.now }
{
    let Ok((n, _)) = dimension(bytes) else {
        return 1;
    };
    table_len(n)
}

// Labels the nodes of an accepted notice as job 0 by rule 3, and makes its first line. A notice names no draining node, and no node is closed.
fn first_line(n: usize, faulty: usize, faults: &[u8], labels: &mut [u8], line: &mut Line)
    requires { label_refusal (cabinet n 3 faults.now (empty_table n) (empty_table n)) 0 (length labels.old) ≡ 0 }
    ensures line { line.new ≡ first_line faulty (cabinet n 3 faults.now (empty_table n) (empty_table n)) }
    ensures labels { labels.new ≡ labels_after (cabinet n 3 faults.now (empty_table n) (empty_table n)) 0 labels.old }
{
    let zeros = [0u8; 512];
    let none = &zeros[..faults.len()];
    let Ok(exchanges) = labels::label(n, 3, 0, faults, none, none, labels) else {
        unreachable!() // labelling never refuses such a table
    };
    cube_line(n, faulty, half(n, 0, labels), exchanges, line);
}

// The line of the notice, and its cube where the notice is not refused, with a fault table of the length that it asks for.
fn notice_line(
    bytes: &[u8],
    faults: &mut [u8],
    labels: &mut [u8; 8192],
    line: &mut Line,
) -> Option<Labelled>
    requires faults_len { length faults.old ≡ wanted_len bytes.now }
    requires labels_value { labels.old ≡ replicate 8192 0 }
    ensures { Headed bytes.now line.new result labels.new }
{
    match notice::read(bytes, faults) {
        Err((refusal, at)) => {
            refused_line(b"notice refused ", u32::from(refusal), at, line);
            None
        }
        Ok(Notice { n, count, .. }) => {
            let bytes = label_bytes(n);
            first_line(n, count, faults, &mut labels[..bytes], line);
            Some(Labelled { n, bytes })
        }
    }
}

// The line of the notice at the front of the bytes: the first line, or the refusal. The answer is its cube, where the notice is not refused. The label buffer
// is made at the front of `labels`, which is handed over empty.
#[tactic(auto, using(crate::proofs::Heads::wanted_few, std::proofs::lemmas::Grind::common_steps))]
pub fn head_line(bytes: &[u8], labels: &mut [u8; 8192], line: &mut Line) -> Option<Labelled>
    requires { labels.old ≡ replicate 8192 0 }
    ensures { Headed bytes.now line.new result labels.new }
{
    let len = wanted_len(bytes);
    let mut faults = [0u8; 512];
    notice_line(bytes, &mut faults[..len], labels, line)
}

// ---- for a pair

// The source and the destination at a place, with the place behind them, or the number that is refused.
#[tactic(auto, unfolding(crate::specs::Printed::pair_at))]
fn pair_at(bytes: &[u8], at: usize) -> Result<(usize, usize, usize), (Refusal, usize)>
    ensures { result ≡ pair_at bytes.now at }
{
    let (s, behind) = number_at(bytes, at)?;
    let (d, next) = number_at(bytes, behind)?;
    Ok((s, d, next))
}

// The line of the pair at a place of the input, behind its notice, whose dimension and label buffer these are. The answer is the place where the next pair
// begins: behind a number that is refused no pair is left.
pub fn line_at(n: usize, labels: &[u8], bytes: &[u8], at: usize, line: &mut Line) -> usize
    requires n_value { (n ≡ dimension_of (notice_of bytes.now)) × (labels.now ≡ labels_in bytes.now) }
    requires at_bound { tail_at bytes.now ≤ at }
    ensures line { line.new ≡ line_at n labels.now bytes.now at }
    ensures next { result ≡ next_at bytes.now at }
{
    match pair_at(bytes, at) {
        Ok((s, d, next)) => {
            pair_line(s, d, walk(n, 0, s, d, labels), line);
            next
        }
        Err((refusal, place)) => {
            refused_line(b"input refused ", u32::from(refusal), place, line);
            bytes.len()
        }
    }
}
