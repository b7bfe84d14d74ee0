// List text, written: the text of a fault table, such as `0-3,8`, goes to the front of a lent buffer. One pass over the runs counts its bytes, so that its
// length is known before the first byte is written; a second pass, by the same functions, writes them.
#![tactic(auto)]

ghost use Rattle.std.specs.Prelude.{◌-◌, ◌^◌, ◌≤◌, ◌<◌, length, ◌≡◌};
ghost use Rattle.cube.specs.Tables.{node_bit};
ghost use Rattle.list_writer.specs.Lists.{digit_at, gap, list_after, run_end, wrote_list};
ghost use Rattle.ranges.specs.Written.{decimal, entry_text, list_text};

use cube::refusals::Refusal;
use cube::{NodeTable, nodes};
use writer::sink::{Count, Front, Sink};
use writer::table_refusal;

// The place behind the run of faulty nodes that begins at node k.
fn run_end(faults: NodeTable, k: usize) -> usize
    requires { k ≤ 2 ^ faults.n }
    ensures { result ≡ run_end (2 ^ faults.entry.n - k) k (node_bit faults.entry.bytes.now) }
{
    let size = faults.size;
    for end in k..size {
        if !faults.has(end) {
            return end;
        }
    }
    size
}

// Puts the digit of a number that stands for so many, if it has one.
fn put_digit<S: Sink>(v: usize, unit: usize, sink: &mut S)
    requires { (1 ≤ unit) × (length (digit_at unit v) ≤ S.room sink.old) }
    ensures { S.puts sink.old (digit_at unit v) sink.new }
{
    if unit <= v {
        sink.put(b'0' + (v / unit % 10) as u8);
    }
}

// Puts a number.
fn put_number<S: Sink>(v: usize, sink: &mut S)
    requires { (v < 4096) × (length (decimal v) ≤ S.room sink.old) }
    ensures { S.puts sink.old (decimal v) sink.new }
{
    put_digit(v, 1000, sink);
    put_digit(v, 100, sink);
    put_digit(v, 10, sink);
    sink.put(b'0' + (v % 10) as u8);
}

// Puts the comma in front of an entry, but none in front of the first.
fn put_gap<S: Sink>(first: bool, sink: &mut S)
    requires { length (gap first) ≤ S.room sink.old }
    ensures { S.puts sink.old (gap first) sink.new }
{
    if !first {
        sink.put(b',');
    }
}

// Puts the entry of a run.
fn put_entry<S: Sink>(low: usize, high: usize, sink: &mut S)
    requires { (low < 4096) × (high < 4096) × (length (entry_text low high) ≤ S.room sink.old) }
    ensures { S.puts sink.old (entry_text low high) sink.new }
{
    put_number(low, sink);
    if low != high {
        sink.put(b'-');
        put_number(high, sink);
    }
}

// Puts the text of the faulty nodes, run by run.
fn put_list<S: Sink>(faults: NodeTable, sink: &mut S)
    requires { length (list_text faults.n faults.bytes.now) ≤ S.room sink.old }
    ensures { S.puts sink.old (list_text faults.entry.n faults.entry.bytes.now) sink.new }
{
    let size = faults.size;
    let mut first = true;
    let mut k: usize = 0;
    // no `for` and no chain is plainer: k goes on by a whole run, whose end is known only there
    while k < size {
        if !faults.has(k) {
            k += 1;
            continue;
        }
        let end = run_end(faults, k);
        put_gap(first, sink);
        put_entry(k, end - 1, sink);
        first = false;
        k = end;
    }
}

// Writes the text of a fault table of an n-cube to the front of the buffer and answers its length, or refuses and leaves the buffer as it was.
// It stands beside `writer::write`, and one function for both is no plainer: a notice's first pass gives the count that its second one begins with.
pub fn write(n: usize, faults: &[u8], out: &mut [u8]) -> Result<usize, Refusal>
    ensures answer { result ≡ wrote_list n faults.now (length out.old) }
    ensures buffer { out.new ≡ list_after n faults.now out.old }
{
    table_refusal(n, faults)?;
    let faulty = NodeTable {
        n,
        size: nodes(n),
        bytes: faults,
    };
    let mut measured = Count { bytes: 0 };
    put_list(faulty, &mut measured);
    let length = measured.bytes;
    if out.len() < length {
        return Err(Refusal::Room);
    }
    let mut front = Front { out, at: 0 };
    put_list(faulty, &mut front);
    Ok(length)
}
