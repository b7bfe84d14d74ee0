// List text, read: a text such as `0-3,8` becomes a fault table. One pass over the entries judges the whole text and writes nothing; a second one sets bits.
#![tactic(auto)]

ghost use Rattle.std.specs.Prelude.{◌+◌, ◌*◌, ◌-◌, ◌≤◌, ◌<◌, drop, get_or, length, take, false, true, ◌≡◌};
ghost use Rattle.cube.specs.Refusal.{first};
ghost use Rattle.cube.specs.Refused.{answered};
ghost use Rattle.list_reader.specs.Front.{above, between, bytes_at, capped, closing, entry_at, front, high_at, lead, range_on, with_parts};
ghost use Rattle.list_reader.specs.Reading.{list_refusal, list_table, text_tests};
ghost use Rattle.notice.specs.Addresses.{with_bits};
ghost use Rattle.ranges.specs.Grammar.{is_digit, is_list, no_zero, parts_of, reaches, value, value_from};
ghost use Rattle.spelling.specs.Laws.{Bytes};

use cube::refusals::Refusal;
use cube::{is_dimension, nodes, table_len};
use notice::{clear, set_bit};

// The digits at the front of a text: how many, and their value, 4096 for all from there on.
#[derive(Drop)]
struct Digits {
    count: usize,
    value: usize,
}

// A run of nodes at the front of a text: its first and its last node, 4096 for all from there on, and the bytes that it takes.
#[derive(Drop)]
struct Run {
    low: usize,
    high: usize,
    bytes: usize,
}

// Whether a digit stands at a place.
fn digit_at(s: &[u8], i: usize) -> bool
    ensures { result ≡ is_digit (get_or s.now i 0) }
{
    i < s.len() && s[i].is_ascii_digit()
}

// The value of digits with one more digit behind them.
fn and_digit(v: usize, x: u8) -> usize
    requires { (v ≤ 4096) × (is_digit x ≡ true) }
    ensures { result ≡ 10 * v + (x - 48) }
{
    10 * v + (x - b'0') as usize
}

// A value, 4096 for all from there on.
fn cap(v: usize) -> usize
    ensures { result ≡ capped v }
{
    v.min(4096)
}

// The digits from a place on, behind others of a known value.
fn more_digits(s: &[u8], from: usize, known: usize) -> Digits
    ensures count { result.count ≡ from + lead (drop from s.now) }
    ensures value { result.value ≡ capped (value_from known (front (drop from s.now))) }
{
    let mut value: usize = cap(known);
    let mut count: usize = from;
    // a `for` is no plainer: it needs the place both where it stops and at the end
    while digit_at(s, count) {
        value = cap(and_digit(value, s[count]));
        count += 1;
    }
    Digits { count, value }
}

// The digits at the front. The first four need no cap on the way, since three digits stay below 4096.
fn leading(s: &[u8]) -> Digits
    ensures count { result.count ≡ lead s.now }
    ensures value { result.value ≡ capped (value (front s.now)) }
{
    let mut value: usize = 0;
    for count in 0..4 {
        if !digit_at(s, count) {
            return Digits { count, value };
        }
        value = and_digit(value, s[count]);
    }
    more_digits(s, 4, value)
}

// Whether so many digits at the front are a number: there is one, and the first of several is not 0.
fn is_number(s: &[u8], count: usize) -> bool
    requires { count ≤ length s.now }
    ensures { result ≡ no_zero (take count s.now) }
{
    if count == 0 {
        return false;
    }
    (s[0] != b'0') | (count == 1)
}

// Whether the first number is above the second, by their digits: the count of them, and then their order as bytes. Numbers are never cut short for this.
fn is_above(a: &[u8], b: &[u8]) -> bool
    ensures { result ≡ above a.now b.now }
{
    if a.len() != b.len() {
        return b.len() < a.len();
    }
    b < a
}

// What was read up to a place is an entry where the text ends there, or where a comma stands there and something behind it.
fn close(s: &[u8], end: usize, low: usize, high: usize) -> Option<Run>
    requires { end ≤ length s.now }
    ensures { result ≡ closing end low high (drop end s.now) }
{
    if end == s.len() {
        return Some(Run {
            low,
            high,
            bytes: end,
        });
    }
    let next = end + 1;
    if (s[end] == b',') & (next != s.len()) {
        return Some(Run {
            low,
            high,
            bytes: next,
        });
    }
    None
}

// The second number of a range, behind the dash at a place, where the first one ends.
fn range(s: &[u8], at: usize, low: usize) -> Option<Run>
    requires { (at < length s.now) × (low ≡ capped (value (take at s.now))) }
    ensures { result ≡ range_on (take at s.now) (drop (at + 1) s.now) }
{
    let start = at + 1;
    let rest = &s[start..];
    let second = leading(rest);
    if !is_number(rest, second.count) {
        return None;
    }
    if is_above(&s[..at], &rest[..second.count]) {
        return None;
    }
    close(s, start + second.count, low, second.value)
}

// The entry at the front of a text.
fn first_entry(s: &[u8]) -> Option<Run>
    ensures { result ≡ entry_at s.now }
{
    let first = leading(s);
    let at = first.count;
    if !is_number(s, at) {
        return None;
    }
    if at < s.len() && s[at] == b'-' {
        return range(s, at, first.value);
    }
    close(s, at, first.value, first.value)
}

// Judges the whole text, and writes nothing: it is refused where a rule is broken anywhere, and otherwise where an entry goes beyond the cube.
// (A `while` over what is left: each entry says where the next one begins. The same in `put_entries`.)
fn check(text: &[u8], size: usize) -> Result<(), Refusal>
    requires { size ≤ 4096 }
    ensures { result ≡ answered (first (text_tests size text.now)) tt }
{
    let mut far: bool = false;
    let mut rest = text;
    while !rest.is_empty() {
        let Some(found) = first_entry(rest) else {
            return Err(Refusal::Text);
        };
        far |= size <= found.high;
        rest = &rest[found.bytes..];
    }
    if far {
        return Err(Refusal::Address);
    }
    Ok(())
}

// Sets the bits of a run of nodes, whole bytes at once where they are in it.
fn set_run(faults: &mut [u8], low: usize, high: usize)
    requires { (high < 4096) × (high < 8 * length faults.old) × Bytes faults.old }
    ensures { faults.new ≡ with_bits faults.old (between low high) }
{
    let mut k: usize = low;
    // `for` and `fill` are no plainer: they take four parts, for runs without a whole byte, and before, in and behind the whole bytes of others
    while k <= high {
        if (k % 8 == 0) & (7 <= high - k) {
            faults[k / 8] = 255;
            k += 8;
        } else {
            set_bit(faults, k);
            k += 1;
        }
    }
}

// The run at the front of a text that was judged: its nodes, and the bytes that it takes. Nothing is tested here any more.
fn run_at(s: &[u8]) -> Run
    ensures low { result.low ≡ capped (value (front s.now)) }
    ensures high { result.high ≡ high_at s.now }
    ensures bytes { result.bytes ≡ bytes_at s.now }
{
    let first = leading(s);
    let at = first.count;
    if at < s.len() && s[at] == b'-' {
        let start = at + 1;
        let second = leading(&s[start..]);
        return Run {
            low: first.value,
            high: second.value,
            bytes: start + second.count,
        };
    }
    Run {
        low: first.value,
        high: first.value,
        bytes: at,
    }
}

// Sets the bits of every entry of a text that was judged.
fn put_entries(text: &[u8], faults: &mut [u8])
    requires faults_len_bound { (length faults.old ≤ 512) × Bytes faults.old }
    requires text_judged { (is_list text.now ≡ true) × (reaches (8 * length faults.old) text.now ≡ false) }
    ensures { faults.new ≡ with_parts faults.old (parts_of text.now) }
{
    let mut rest = text;
    while !rest.is_empty() {
        let found = run_at(rest);
        set_run(faults, found.low, found.high);
        let behind = (found.bytes + 1).min(rest.len()); // with the comma, if one stands there
        rest = &rest[behind..];
    }
}

// Reads a list text into a lent fault table of an n-cube, or refuses and leaves the table as it was.
pub fn read(n: usize, text: &[u8], faults: &mut [u8]) -> Result<(), Refusal>
    ensures answer { result ≡ answered (list_refusal n text.now faults.old) tt }
    ensures table { faults.new ≡ list_table n text.now faults.old }
{
    if !is_dimension(n) {
        return Err(Refusal::Dimension);
    }
    if faults.len() != table_len(n) {
        return Err(Refusal::Length);
    }
    check(text, nodes(n))?;
    clear(faults);
    put_entries(text, faults);
    Ok(())
}
