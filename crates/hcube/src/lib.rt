// What C calls, by the archive that hcube_c is: plain numbers and byte slices in, one number out. include/hcube.h is the C side of it. C's
// numbers are widened and never narrowed, so none is mistaken for a smaller one.
#![tactic(auto)]

ghost use Rattle.std.specs.Prelude.{◌<◌, ◌≤◌, length, ◌≡◌, Ok};
ghost use Rattle.cube.specs.Tables.{tab};
ghost use Rattle.cube.specs.Refused.{number, refused};
ghost use Rattle.hcube.specs.Answers.{crossed_number, decision_number, dimension_number, done_number, has_row, hop_number, hop_reason_number, label_number, node_reason_number, notice_number, packed, packed_notice, packed_reason, row_after, row_byte, value_in, walk_number, walked_by, written_number};
ghost use Rattle.hcube.specs.Fits.{CauseFits, CrossedFits, HopFits, ReasonFits, RowFits, ScanFits, WalkFits};
ghost use Rattle.hop_networks.specs.Hopping.{hopped_in};
ghost use Rattle.jobs.specs.Jobs.{label_for};
ghost use Rattle.list_reader.specs.Reading.{list_refusal, list_table};
ghost use Rattle.list_writer.specs.Lists.{list_after, wrote_list};
ghost use Rattle.labels.specs.Labelling.{labelled, labels_after};
ghost use Rattle.notice.specs.Notice.{dimension_at, noticed, table_after};
ghost use Rattle.hop.specs.Hop.{decision_value, hopped};
ghost use Rattle.repair.specs.Repairing.{namers_after, repair_refusal, result_after};
ghost use Rattle.walk.specs.Walk.{row_bytes};
ghost use Rattle.walk_networks.specs.Crossing.{crossing, hops_after};
ghost use Rattle.why.specs.HopReasons.{hop_reason};
ghost use Rattle.why.specs.NodeReasons.{labels_left, node_reason};
ghost use Rattle.why.specs.declared.NodeReason.TheVariants.{Unsafe};
ghost use Rattle.writer.specs.Writing.{buffer_after, wrote};
ghost use Rattle.rule.specs.Cabinet.{cabinet};

use causes::Cause;
use cube::refusals::Refusal;
use hop::Decision;
use notice::Notice;
use walk::{Ending, Walked};
use walk_networks::Crossed;
use why::{HopReason, NodeReason};

// One number for the refusal, the kind and the value.
// (Functions, and no `From`: most ask that a part fits its bits, and `from` may ask nothing.)
fn pack(refusal: u32, kind: u32, value: usize) -> u32
    requires { (refusal < 256) × ((kind < 256) × (value < 65536)) }
    ensures { result ≡ packed refusal kind value }
{
    refusal * 16777216 + kind * 65536 + value as u32
}

// That of a refusal, of kind 0 and with a value: the place in a notice.
fn refuse_at(refusal: Refusal, at: usize) -> u32
    requires { at < 65536 }
    ensures { result ≡ packed (number refusal) 0 at }
{
    pack(u32::from(refusal), 0, at)
}

// That of a refusal without a place.
fn refuse(refusal: Refusal) -> u32
    ensures { result ≡ packed (number refusal) 0 0 }
{
    refuse_at(refusal, 0)
}

// What is answered by one number alone: exchanges, or the length of what was written.
fn pack_value(value: usize) -> u32
    requires { value < 65536 }
    ensures { result ≡ packed 0 0 value }
{
    pack(0, 0, value)
}

// What is answered with nothing else.
fn pack_done(answer: Result<(), Refusal>) -> u32
    ensures { result ≡ done_number (refused answer) }
{
    answer.map_or_else(refuse, |()| 0)
}

// Labels every node by the rule, for a job: the number of exchanges, or the refusal, which leaves the labels as they were.
#[unsafe(no_mangle)]
pub extern "C" fn hcube_label(
    n: u32,
    rule: u32,
    job: u32,
    faults: &[u8],
    draining: &[u8],
    closed: &[u8],
    labels: &mut [u8],
) -> u32
    ensures answer { result ≡ label_number (labelled (cabinet n rule faults.now draining.now closed.now) job (length labels.old)) }
    ensures labels { labels.new ≡ labels_after (cabinet n rule faults.now draining.now closed.now) job labels.old }
{
    let answer = labels::label(
        n as usize,
        rule as usize,
        job as usize,
        faults,
        draining,
        closed,
        labels,
    );
    answer.map_or_else(refuse, pack_value)
}

// A decision by its kind and value.
fn pack_decision(x: Decision) -> u32
    requires { decision_value x < 65536 }
    ensures { result ≡ decision_number x }
{
    match x {
        Decision::Deliver => pack(0, 0, 0),
        Decision::Hop(i) => pack(0, 1, i),
        Decision::Halted => pack(0, 2, 0),
    }
}

// Decides one hop at c for d, by the labels of a job.
#[unsafe(no_mangle)]
pub extern "C" fn hcube_hop(n: u32, job: u32, c: u32, d: u32, labels: &[u8]) -> u32
    ensures { result ≡ hop_number (hopped n job c d (length labels.now) (label_for n job labels.now)) }
{
    let answer = hop::hop(n as usize, job as usize, c as usize, d as usize, labels);
    answer.map_or_else(refuse, pack_decision)
}

// Byte k of a row, two bytes a node, low byte first.
fn row_byte(row: &[u16; 17], k: usize) -> u8
    requires { k < 34 }
    ensures { result ≡ row_byte row.now k }
{
    row[k / 2].to_le_bytes()[k % 2]
}

// All 34 bytes of a row. (With `out: &mut [u8; 34]` it is no plainer: `write_row` would test a length that its `requires` gives.)
// (A loop by k: of `as_chunks_mut` the library does not say what the slice holds in the end.)
fn put_row(row: &[u16; 17], out: &mut [u8])
    requires { length out.old ≡ row_bytes }
    ensures { out.new ≡ tab row_bytes (row_byte row.now) }
{
    for k in 0..34 {
        out[k] = row_byte(row, k);
    }
}

// A walk by how it ended and its hop count, which is 0 where it is refused.
fn pack_walk(walked: Walked) -> u32
    requires { WalkFits walked }
    ensures { result ≡ walk_number walked }
{
    let hops = walked.hops;
    let ending = walked.ending;
    match ending {
        Ending::Delivered => pack(0, 0, hops),
        Ending::Halted => pack(0, 1, hops),
        Ending::Refused(refusal) => refuse_at(refusal, hops),
    }
}

// Whether a walk that ended so has a row to write.
fn has_row(ending: Ending) -> bool
    ensures { result ≡ has_row ending }
{
    !matches!(ending, Ending::Refused(_))
}

// Writes the row of a walk that is not refused.
fn write_row(walked: Walked, row: &mut [u8])
    requires { RowFits walked (length row.old) }
    ensures { row.new ≡ row_after walked row.old }
{
    let nodes = walked.row;
    let ending = walked.ending;
    if has_row(ending) {
        put_row(&nodes, row);
    }
}

// Walks from s to d, by the labels of a job: the row of nodes goes to the lent buffer, and none of it where the walk is refused.
#[unsafe(no_mangle)]
pub extern "C" fn hcube_walk(n: u32, job: u32, s: u32, d: u32, labels: &[u8], row: &mut [u8]) -> u32
    ensures answer { result ≡ walk_number (walked_by n job s d labels.now row.old) }
    ensures row { row.new ≡ row_after (walked_by n job s d labels.now row.old) row.old }
{
    let walked = walk::walk_for(
        n as usize,
        job as usize,
        s as usize,
        d as usize,
        labels,
        row.len(),
    );
    write_row(walked, row);
    pack_walk(walked)
}

// Decides one hop at c for d on a board with so many networks, by the labels of a job, for a message that is in that network.
#[unsafe(no_mangle)]
pub extern "C" fn hcube_hop_networks(
    n: u32,
    networks: u32,
    job: u32,
    c: u32,
    d: u32,
    network: u32,
    down: u32,
    labels: &[u8],
) -> u32
    ensures { result ≡ hop_number (hopped_in n networks job c d network down (length labels.now) (label_for n job labels.now)) }
{
    let answer = hop_networks::hop_networks(
        n as usize,
        networks as usize,
        job as usize,
        c as usize,
        d as usize,
        network as usize,
        down as usize,
        labels,
    );
    answer.map_or_else(refuse, pack_decision)
}

// A walk by networks by how it ended and its hop count.
fn pack_crossed(crossed: Crossed) -> u32
    requires { CrossedFits (Ok crossed) }
    ensures { result ≡ crossed_number (Ok crossed) }
{
    match crossed {
        Crossed::Delivered(hops) => pack(0, 0, hops),
        Crossed::Halted(hops) => pack(0, 1, hops),
    }
}

// Walks from s to d on a board with so many networks, by the labels of a job: the hops go to the front of the lent list, and none where the walk is refused.
#[unsafe(no_mangle)]
pub extern "C" fn hcube_walk_networks(
    n: u32,
    networks: u32,
    job: u32,
    s: u32,
    d: u32,
    labels: &[u8],
    hops: &mut [u8],
) -> u32
    ensures answer { result ≡ crossed_number (crossing n networks job s d (length labels.now) (length hops.old) (label_for n job labels.now)) }
    ensures hops { hops.new ≡ hops_after n networks job s d (length labels.now) (label_for n job labels.now) hops.old }
{
    let answer = walk_networks::walk_networks(
        n as usize,
        networks as usize,
        job as usize,
        s as usize,
        d as usize,
        labels,
        hops,
    );
    answer.map_or_else(refuse, pack_crossed)
}

// The number of a node's reason: the label is the kind and the round the value, and above stand the cause and what goes with it.
// (A struct of the six is no plainer: each is used here alone, and at five calls its literal would take six lines for one.)
fn pack_reason(
    label: u8,
    round: usize,
    cause: u64,
    first: usize,
    second: usize,
    third: usize,
) -> u64
    requires { (round < 65536) × ((cause ≤ 2) × ((first ≤ 12) × ((second ≤ 12) × (third ≤ 12)))) }
    ensures { result ≡ packed_reason cause third second first (packed 0 label round) }
{
    cause * 72057594037927936
        + third as u64 * 281474976710656
        + second as u64 * 1099511627776
        + first as u64 * 4294967296
        + pack(0, label as u32, round) as u64
}

// That of an unsafe node, by its cause.
fn pack_cause(label: u8, round: usize, cause: Cause) -> u64
    requires { (round < 65536) × CauseFits cause }
    ensures { result ≡ node_reason_number (Ok (Unsafe label round cause)) }
{
    match cause {
        Cause::Faulty(a, b) => pack_reason(label, round, 1, a, b, 0),
        Cause::Two(a, b) => pack_reason(label, round, 2, a, b, 0),
        Cause::Three(a, b, c) => pack_reason(label, round, 2, a, b, c),
    }
}

// That of a node's reason, by its case.
fn pack_node(reason: NodeReason) -> u64
    requires { ReasonFits reason }
    ensures { result ≡ node_reason_number (Ok reason) }
{
    match reason {
        NodeReason::Safe(out, not_safe) => pack_reason(0, 0, 0, out, not_safe, 0),
        NodeReason::Unsafe(label, round, cause) => pack_cause(label, round, cause),
        NodeReason::Out(label) => pack_reason(label, 0, 0, 0, 0, 0),
    }
}

// Why node x has its label, by the rule and for a job. The labels are left as labelling leaves them, or refused, as they were.
#[unsafe(no_mangle)]
pub extern "C" fn hcube_why_node(
    n: u32,
    rule: u32,
    job: u32,
    x: u32,
    faults: &[u8],
    draining: &[u8],
    closed: &[u8],
    labels: &mut [u8],
) -> u64
    ensures answer { result ≡ node_reason_number (node_reason (cabinet n rule faults.now draining.now closed.now) job (length labels.old) x) }
    ensures labels { labels.new ≡ labels_left (cabinet n rule faults.now draining.now closed.now) job x labels.old }
{
    let answer = why::why_node(
        n as usize,
        rule as usize,
        job as usize,
        x as usize,
        faults,
        draining,
        closed,
        labels,
    );
    answer.map_or_else(|refusal| refuse(refusal) as u64, pack_node)
}

// The number of a hop's reason: its scan and its dimension are the value.
fn pack_scan(reason: HopReason) -> u32
    requires { ScanFits reason }
    ensures { result ≡ hop_reason_number (Ok reason) }
{
    match reason {
        HopReason::Deliver => pack(0, 0, 0),
        HopReason::Hop(scan, i) => pack(0, 1, scan * 256 + i),
        HopReason::Halted => pack(0, 2, 0),
    }
}

// Why the hop at c for d is taken, by the labels of a job.
#[unsafe(no_mangle)]
pub extern "C" fn hcube_why_hop(n: u32, job: u32, c: u32, d: u32, labels: &[u8]) -> u32
    ensures { result ≡ hop_reason_number (hop_reason n job c d (length labels.now) (label_for n job labels.now)) }
{
    let answer = why::why_hop(n as usize, job as usize, c as usize, d as usize, labels);
    answer.map_or_else(refuse, pack_scan)
}

// The dimension of the notice at the front of the bytes, or the refusal with its place.
#[unsafe(no_mangle)]
pub extern "C" fn hcube_notice_dimension(bytes: &[u8]) -> u32
    ensures { result ≡ dimension_number (dimension_at bytes.now) }
{
    let answer = notice::dimension(bytes);
    match answer {
        Ok((n, _)) => pack(0, 0, n),
        Err((refusal, at)) => refuse_at(refusal, at),
    }
}

// The number of an accepted notice: the bytes that it took are the value, and above stand its dimension and its count.
fn pack_notice(notice: Notice) -> u64
    requires { (notice.n ≤ 12) × ((notice.count ≤ 4096) × (notice.taken ≤ 4099)) }
    ensures { result ≡ packed_notice notice.n notice.count (packed 0 0 notice.taken) }
{
    notice.n as u64 * 281474976710656
        + notice.count as u64 * 4294967296
        + pack(0, 0, notice.taken) as u64
}

// Reads the notice at the front of the bytes into the fault table, or refuses, says where, and leaves the table as it was.
#[unsafe(no_mangle)]
pub extern "C" fn hcube_read_notice(bytes: &[u8], faults: &mut [u8]) -> u64
    ensures answer { result ≡ notice_number (noticed bytes.now faults.old) }
    ensures faults { faults.new ≡ table_after bytes.now faults.old }
{
    let answer = notice::read(bytes, faults);
    match answer {
        Ok(notice) => pack_notice(notice),
        Err((refusal, at)) => refuse_at(refusal, at) as u64,
    }
}

// Writes the notice of a fault table to the front of the buffer: its length, or the refusal, which leaves the buffer as it was.
#[unsafe(no_mangle)]
pub extern "C" fn hcube_write_notice(n: u32, faults: &[u8], out: &mut [u8]) -> u32
    ensures answer { result ≡ written_number (wrote n faults.now (length out.old)) }
    ensures out { out.new ≡ buffer_after n faults.now out.old }
{
    let answer = writer::write(n as usize, faults, out);
    answer.map_or_else(refuse, pack_value)
}

// Reads a list text into the fault table: 0, or the refusal, which leaves the table as it was.
#[unsafe(no_mangle)]
pub extern "C" fn hcube_read_list(n: u32, text: &[u8], faults: &mut [u8]) -> u32
    ensures answer { result ≡ done_number (list_refusal n text.now faults.old) }
    ensures faults { faults.new ≡ list_table n text.now faults.old }
{
    let answer = list_reader::read(n as usize, text, faults);
    pack_done(answer)
}

// Writes the list text of a fault table to the front of the buffer: its length, or the refusal, which leaves the buffer as it was.
#[unsafe(no_mangle)]
pub extern "C" fn hcube_write_list(n: u32, faults: &[u8], out: &mut [u8]) -> u32
    ensures answer { result ≡ written_number (wrote_list n faults.now (length out.old)) }
    ensures out { out.new ≡ list_after n faults.now out.old }
{
    let answer = list_writer::write(n as usize, faults, out);
    answer.map_or_else(refuse, pack_value)
}

// Repairs a fault table by what its working nodes find dead: 0, or the refusal, which leaves the result and the row as they were.
#[unsafe(no_mangle)]
pub extern "C" fn hcube_repair(
    n: u32,
    faults: &[u8],
    masks: &[u16],
    res: &mut [u8],
    row: &mut [u16],
) -> u32
    ensures answer { result ≡ done_number (repair_refusal n faults.now masks.now (length res.old) (length row.old)) }
    ensures res { res.new ≡ result_after n faults.now masks.now res.old row.old }
    ensures row { row.new ≡ namers_after n faults.now masks.now res.old row.old }
{
    let answer = repair::repair(n as usize, faults, masks, res, row);
    pack_done(answer)
}
