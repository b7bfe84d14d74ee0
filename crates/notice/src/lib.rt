// Notices: the dimension of one, by which a caller sizes his fault table; the reader, which makes a fault table of one; and the tail question, for notices
// that stand back to back.
#![tactic(auto)]

ghost use Rattle.std.specs.Prelude.{◌+◌, ◌*◌, ◌/◌, ◌<◌, ◌≤◌, drop, length, replicate, true, ◌≡◌};
ghost use Rattle.notice.specs.Addresses.{addresses_at, addresses_end, rising, with_bit, with_bits};
ghost use Rattle.notice.specs.Notice.{dimension_at, noticed, rest_at, table_after, tail_at};

use cube::refusals::Refusal;
use cube::{is_dimension, nodes, table_len};
use groups::{Number, number_at};

// A notice: its dimension, its count of faulty nodes and the bytes it took.
#[derive(Clone, Copy, Drop)]
pub struct Notice {
    pub n: usize,
    pub count: usize,
    pub taken: usize,
}

// What is read of one: the notice, or the refusal, with the place where the number begins that it is about.
pub type Noticed = Result<Notice, (Refusal, usize)>;

// What follows a dimension: the count, where the addresses begin and where they end.
#[derive(Clone, Copy, Drop)]
struct Found {
    count: usize,
    start: usize,
    end: usize,
}

type Rest = Result<Found, (Refusal, usize)>;

// The dimension of the notice at the front of the bytes, with the next place, or the refusal.
pub fn dimension(bytes: &[u8]) -> Number
    ensures { result ≡ dimension_at bytes.now }
{
    let number = number_at(bytes, 0);
    let Ok((n, next)) = number else {
        return number;
    };
    if is_dimension(n) {
        return Ok((n, next));
    }
    Err((Refusal::Dimension, 0))
}

// The checking pass of the address reader: it is handed the bytes behind the count, and writes nothing. It answers where a next address would be
// counted from, with the next place, or the refusal; places are those of its own bytes.
fn check_addresses(bytes: &[u8], m: usize, size: usize) -> Number
    requires { size ≤ 4096 }
    ensures { result ≡ addresses_end m bytes.now 0 0 size }
{
    let mut at: usize = 0;
    let mut base: usize = 0;
    for _i in 0..m {
        let number = number_at(bytes, at);
        let Ok((v, next)) = number else {
            return number;
        };
        let address = base + v;
        if size <= address {
            return Err((Refusal::Address, at));
        }
        base = address + 1;
        at = next;
    }
    Ok((base, at))
}

// The count and the addresses behind it, checked. The address reader's places begin where its bytes do.
fn check_rest(bytes: &[u8], n: usize, at: usize) -> Rest
    requires { n ≤ 12 }
    ensures { result ≡ rest_at n bytes.now at }
{
    let size = nodes(n);
    let (m, start) = number_at(bytes, at)?;
    if size < m {
        return Err((Refusal::Count, at));
    }
    match check_addresses(&bytes[start..], m, size) {
        Ok((_, taken)) => Ok(Found {
            count: m,
            start,
            end: start + taken,
        }),
        Err((refusal, place)) => Err((refusal, start + place)),
    }
}

// Sets every bit of a fault table to 0.
pub fn clear(faults: &mut [u8])
    ensures { faults.new ≡ replicate (length faults.old) 0 }
{
    faults.fill(0);
}

// Sets node k's bit.
pub fn set_bit(faults: &mut [u8], k: usize)
    requires { k / 8 < length faults.old }
    ensures { faults.new ≡ with_bit faults.old k }
{
    faults[k / 8] |= 1 << (k % 8);
}

// The writing pass of the address reader, over addresses that were checked: no number is refused here any more.
// It is no plainer in one function with `check_addresses`: what a closure did to the table would stand in the contract of both.
fn write_addresses(bytes: &[u8], m: usize, faults: &mut [u8])
    requires faults_len_bound { length faults.old ≤ 512 }
    requires bytes_value { rising 0 (8 * length faults.old) (addresses_at m bytes.now 0 0) ≡ true }
    ensures { faults.new ≡ with_bits faults.old (addresses_at m bytes.now 0 0) }
{
    let mut at: usize = 0;
    let mut base: usize = 0;
    for _ in 0..m {
        let number = number_at(bytes, at);
        let Ok((v, next)) = number else {
            return;
        };
        let node = base + v;
        set_bit(faults, node);
        base = node + 1;
        at = next;
    }
}

// Reads the notice at the front of the bytes into a lent fault table. Nothing is written before the last address is known to be good.
pub fn read(bytes: &[u8], faults: &mut [u8]) -> Noticed
    ensures answer { result ≡ noticed bytes.now faults.old }
    ensures table { faults.new ≡ table_after bytes.now faults.old }
{
    let (n, at) = dimension(bytes)?;
    if faults.len() != table_len(n) {
        return Err((Refusal::Length, 0));
    }
    let found = check_rest(bytes, n, at)?;
    clear(faults);
    write_addresses(&bytes[found.start..], found.count, faults);
    Ok(Notice {
        n,
        count: found.count,
        taken: found.end,
    })
}

// The bytes after the first notice, as a part of the caller's own memory: of a refused notice the empty part at their end.
pub fn tail(bytes: &[u8]) -> &[u8]
    ensures bytes { result.now ≡ drop (tail_at bytes.now) bytes.now }
    ensures place { result.ref_ptr ≡ (bytes.entry.ref_ptr.0, bytes.entry.ref_ptr.1 + tail_at bytes.now) }
{
    let end = bytes.len();
    let Ok((n, at)) = dimension(bytes) else {
        return &bytes[end..end];
    };
    let Ok(found) = check_rest(bytes, n, at) else {
        return &bytes[end..end];
    };
    &bytes[found.end..]
}
