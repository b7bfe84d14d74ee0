// The archive for C: the functions of include/hcube.h. Each calls the function of `hcube` of the same name, which takes the same and whose contract it repeats
// word for word; tests/promises compares the two. A crate is built for Rattle or for C: `hcube` is what the promises are proved of, and this is what C links.
#![tactic(auto)]

ghost use Rattle.std.specs.Prelude.{length, ◌≡◌};
ghost use Rattle.hcube.specs.Answers.{crossed_number, dimension_number, done_number, hop_number, hop_reason_number, label_number, node_reason_number, notice_number, row_after, walk_number, walked_by, written_number};
ghost use Rattle.hop_networks.specs.Hopping.{hopped_in};
ghost use Rattle.jobs.specs.Jobs.{label_for};
ghost use Rattle.list_reader.specs.Reading.{list_refusal, list_table};
ghost use Rattle.list_writer.specs.Lists.{list_after, wrote_list};
ghost use Rattle.labels.specs.Labelling.{labelled, labels_after};
ghost use Rattle.notice.specs.Notice.{dimension_at, noticed, table_after};
ghost use Rattle.hop.specs.Hop.{hopped};
ghost use Rattle.repair.specs.Repairing.{namers_after, repair_refusal, result_after};
ghost use Rattle.walk_networks.specs.Crossing.{crossing, hops_after};
ghost use Rattle.why.specs.HopReasons.{hop_reason};
ghost use Rattle.why.specs.NodeReasons.{labels_left, node_reason};
ghost use Rattle.writer.specs.Writing.{buffer_after, wrote};
ghost use Rattle.rule.specs.Cabinet.{cabinet};

// Labels every node by the rule, for a job: the number of exchanges, or the refusal, which leaves the labels as they were.
#[unsafe(no_mangle)]
pub extern "C" fn hcube_label(
    n: u32,
    rule: u32,
    job: u32,
    faults: &[u8],
    draining: &[u8],
    closed: &[u8],
    labels: &mut [u8],
) -> u32
    ensures answer { result ≡ label_number (labelled (cabinet n rule faults.now draining.now closed.now) job (length labels.old)) }
    ensures labels { labels.new ≡ labels_after (cabinet n rule faults.now draining.now closed.now) job labels.old }
{
    hcube::hcube_label(n, rule, job, faults, draining, closed, labels)
}

// Decides one hop at c for d, by the labels of a job.
#[unsafe(no_mangle)]
pub extern "C" fn hcube_hop(n: u32, job: u32, c: u32, d: u32, labels: &[u8]) -> u32
    ensures { result ≡ hop_number (hopped n job c d (length labels.now) (label_for n job labels.now)) }
{
    hcube::hcube_hop(n, job, c, d, labels)
}

// Walks from s to d, by the labels of a job: the row of nodes goes to the lent buffer, and none of it where the walk is refused.
#[unsafe(no_mangle)]
pub extern "C" fn hcube_walk(n: u32, job: u32, s: u32, d: u32, labels: &[u8], row: &mut [u8]) -> u32
    ensures answer { result ≡ walk_number (walked_by n job s d labels.now row.old) }
    ensures row { row.new ≡ row_after (walked_by n job s d labels.now row.old) row.old }
{
    hcube::hcube_walk(n, job, s, d, labels, row)
}

// Decides one hop at c for d on a board with so many networks, by the labels of a job, for a message that is in that network.
#[unsafe(no_mangle)]
pub extern "C" fn hcube_hop_networks(
    n: u32,
    networks: u32,
    job: u32,
    c: u32,
    d: u32,
    network: u32,
    down: u32,
    labels: &[u8],
) -> u32
    ensures { result ≡ hop_number (hopped_in n networks job c d network down (length labels.now) (label_for n job labels.now)) }
{
    hcube::hcube_hop_networks(n, networks, job, c, d, network, down, labels)
}

// Walks from s to d on a board with so many networks, by the labels of a job: the hops go to the front of the lent list, and none where the walk is refused.
#[unsafe(no_mangle)]
pub extern "C" fn hcube_walk_networks(
    n: u32,
    networks: u32,
    job: u32,
    s: u32,
    d: u32,
    labels: &[u8],
    hops: &mut [u8],
) -> u32
    ensures answer { result ≡ crossed_number (crossing n networks job s d (length labels.now) (length hops.old) (label_for n job labels.now)) }
    ensures hops { hops.new ≡ hops_after n networks job s d (length labels.now) (label_for n job labels.now) hops.old }
{
    hcube::hcube_walk_networks(n, networks, job, s, d, labels, hops)
}

// Why node x has its label, by the rule and for a job. The labels are left as labelling leaves them, or refused, as they were.
#[unsafe(no_mangle)]
pub extern "C" fn hcube_why_node(
    n: u32,
    rule: u32,
    job: u32,
    x: u32,
    faults: &[u8],
    draining: &[u8],
    closed: &[u8],
    labels: &mut [u8],
) -> u64
    ensures answer { result ≡ node_reason_number (node_reason (cabinet n rule faults.now draining.now closed.now) job (length labels.old) x) }
    ensures labels { labels.new ≡ labels_left (cabinet n rule faults.now draining.now closed.now) job x labels.old }
{
    hcube::hcube_why_node(n, rule, job, x, faults, draining, closed, labels)
}

// Why the hop at c for d is taken, by the labels of a job.
#[unsafe(no_mangle)]
pub extern "C" fn hcube_why_hop(n: u32, job: u32, c: u32, d: u32, labels: &[u8]) -> u32
    ensures { result ≡ hop_reason_number (hop_reason n job c d (length labels.now) (label_for n job labels.now)) }
{
    hcube::hcube_why_hop(n, job, c, d, labels)
}

// The dimension of the notice at the front of the bytes, or the refusal with its place.
#[unsafe(no_mangle)]
pub extern "C" fn hcube_notice_dimension(bytes: &[u8]) -> u32
    ensures { result ≡ dimension_number (dimension_at bytes.now) }
{
    hcube::hcube_notice_dimension(bytes)
}

// Reads the notice at the front of the bytes into the fault table, or refuses, says where, and leaves the table as it was.
#[unsafe(no_mangle)]
pub extern "C" fn hcube_read_notice(bytes: &[u8], faults: &mut [u8]) -> u64
    ensures answer { result ≡ notice_number (noticed bytes.now faults.old) }
    ensures faults { faults.new ≡ table_after bytes.now faults.old }
{
    hcube::hcube_read_notice(bytes, faults)
}

// Writes the notice of a fault table to the front of the buffer: its length, or the refusal, which leaves the buffer as it was.
#[unsafe(no_mangle)]
pub extern "C" fn hcube_write_notice(n: u32, faults: &[u8], out: &mut [u8]) -> u32
    ensures answer { result ≡ written_number (wrote n faults.now (length out.old)) }
    ensures out { out.new ≡ buffer_after n faults.now out.old }
{
    hcube::hcube_write_notice(n, faults, out)
}

// Reads a list text into the fault table: 0, or the refusal, which leaves the table as it was.
#[unsafe(no_mangle)]
pub extern "C" fn hcube_read_list(n: u32, text: &[u8], faults: &mut [u8]) -> u32
    ensures answer { result ≡ done_number (list_refusal n text.now faults.old) }
    ensures faults { faults.new ≡ list_table n text.now faults.old }
{
    hcube::hcube_read_list(n, text, faults)
}

// Writes the list text of a fault table to the front of the buffer: its length, or the refusal, which leaves the buffer as it was.
#[unsafe(no_mangle)]
pub extern "C" fn hcube_write_list(n: u32, faults: &[u8], out: &mut [u8]) -> u32
    ensures answer { result ≡ written_number (wrote_list n faults.now (length out.old)) }
    ensures out { out.new ≡ list_after n faults.now out.old }
{
    hcube::hcube_write_list(n, faults, out)
}

// Repairs a fault table by what its working nodes find dead: 0, or the refusal, which leaves the result and the row as they were.
#[unsafe(no_mangle)]
pub extern "C" fn hcube_repair(
    n: u32,
    faults: &[u8],
    masks: &[u16],
    res: &mut [u8],
    row: &mut [u16],
) -> u32
    ensures answer { result ≡ done_number (repair_refusal n faults.now masks.now (length res.old) (length row.old)) }
    ensures res { res.new ≡ result_after n faults.now masks.now res.old row.old }
    ensures row { row.new ≡ namers_after n faults.now masks.now res.old row.old }
{
    hcube::hcube_repair(n, faults, masks, res, row)
}
