// Notices, written: the notice of a fault table goes to the front of a lent buffer. One pass over the nodes counts its bytes, so that its length is known
// before the first byte is written; a second pass, by the same functions, writes them.
#![tactic(auto)]

ghost use Rattle.std.specs.Prelude.{◌<◌, ◌≤◌, length, ◌≡◌};
ghost use Rattle.cube.specs.Refusal.{first};
ghost use Rattle.cube.specs.Refused.{answered};
ghost use Rattle.cube.specs.Tables.{table_len};
ghost use Rattle.groups.specs.Number.{groups_of};
ghost use Rattle.spelling.specs.Spelled.{address_bytes, faulty_nodes, notice_bytes};
ghost use Rattle.writer.specs.Writing.{buffer_after, fault_tests, wrote};

pub mod sink;

use cube::refusals::Refusal;
use cube::{NodeTable, is_dimension, nodes, table_len, unused_set};
use sink::{Count, Front, Sink};

// Whether a fault table is one of an n-cube, or the refusal.
pub fn table_refusal(n: usize, faults: &[u8]) -> Result<(), Refusal>
    ensures { result ≡ answered (first (fault_tests n faults.now)) tt }
{
    if !is_dimension(n) {
        return Err(Refusal::Dimension);
    }
    if faults.len() != table_len(n) {
        return Err(Refusal::Length);
    }
    if unused_set(n, faults) {
        return Err(Refusal::Unused);
    }
    Ok(())
}

// Puts a number.
fn put_number<S: Sink>(v: usize, sink: &mut S)
    requires { (v < 16384) × (length (groups_of v) ≤ S.room sink.old) }
    ensures { S.puts sink.old (groups_of v) sink.new }
{
    if v < 128 {
        sink.put(v as u8);
    } else {
        sink.put((128 + v % 128) as u8);
        sink.put((v / 128) as u8);
    }
}

// Puts the addresses of the faulty nodes, and answers how many these are.
fn put_addresses<S: Sink>(faults: NodeTable, sink: &mut S) -> usize
    requires { length (address_bytes 0 (faulty_nodes faults.n faults.bytes.now)) ≤ S.room sink.old }
    ensures count { result ≡ length (faulty_nodes faults.entry.n faults.entry.bytes.now) }
    ensures bytes { S.puts sink.old (address_bytes 0 (faulty_nodes faults.entry.n faults.entry.bytes.now)) sink.new }
{
    let mut count: usize = 0;
    let mut base: usize = 0;
    for node in 0..faults.size {
        if faults.has(node) {
            put_number(node - base, sink);
            count += 1;
            base = node + 1;
        }
    }
    count
}

// Writes the notice of a fault table of an n-cube to the front of the buffer and answers its length, or refuses and leaves the buffer as it was.
pub fn write(n: usize, faults: &[u8], out: &mut [u8]) -> Result<usize, Refusal>
    ensures answer { result ≡ wrote n faults.now (length out.old) }
    ensures buffer { out.new ≡ buffer_after n faults.now out.old }
{
    table_refusal(n, faults)?;
    let faulty = NodeTable {
        n,
        size: nodes(n),
        bytes: faults,
    };
    let mut measured = Count { bytes: 0 };
    let count = put_addresses(faulty, &mut measured);
    put_number(n, &mut measured);
    put_number(count, &mut measured);
    let length = measured.bytes;
    if out.len() < length {
        return Err(Refusal::Room);
    }
    let mut front = Front { out, at: 0 };
    put_number(n, &mut front);
    put_number(count, &mut front);
    put_addresses(faulty, &mut front);
    Ok(length)
}
