// The lines of the listing program and of the tally. A `Line` has room for 1,024 bytes, which is enough for any of them: what is put behind its text and does
// not fit would be left off, and each function that makes a line shows that all of it is there. The caller lends the `Line`, and what it held is gone.
#![tactic(auto, using(crate::proofs::Putting::putting))]

ghost use Rattle.std.specs.Prelude.{[], length, ◌++◌, ◌≡◌, ◌≤◌, ◌+◌, ℕ, map, take};
ghost use Rattle.cube.specs.Refused.{number};
ghost use Rattle.cube.specs.Tables.{label_count};
ghost use Rattle.lines.specs.Lines.{cube_line, end_text, figures_line, pair_line, progress_line, put, room, row_text, size_line, too_long};
ghost use Rattle.lines.specs.Text.{decimal, field, text};

use cube::count_of;
use cube::refusals::Refusal;
use std::marker::Model;
use walk::{Ending, Walked};

// A number that a line holds in decimal digits.
// (No `Into<u64>`: a usize has none, and it gives a clause a relation, no value.)
trait Numeral: Copy {
    ghost value: { Self → ℕ };

    fn value(self) -> u64
        ensures { result ≡ value self };
}

impl Numeral for u16 {
    ghost value = { λ n. n };

    fn value(self) -> u64 {
        u64::from(self)
    }
}

impl Numeral for u32 {
    ghost value = { λ n. n };

    fn value(self) -> u64 {
        u64::from(self)
    }
}

impl Numeral for usize {
    ghost value = { λ n. n };

    fn value(self) -> u64 {
        self as u64
    }
}

impl Numeral for Refusal {
    ghost value = { number };

    fn value(self) -> u64 {
        u64::from(u32::from(self))
    }
}

// A text of at most 1,024 bytes.
#[derive(Drop)]
pub struct Line {
    bytes: [u8; 1024],
    len: usize,
}

impl Model for Line {
    ghost use Rattle.std.specs.Prelude.{List, take, ℕ, ◌≤◌};
    ghost use Rattle.lines.specs.Lines.{room};

    ghost Value = { List ℕ };

    ghost view = { λ l. take l.len l.bytes };

    ghost invariant = { λ l. l.len ≤ room };
}

impl Line {
    pub fn new() -> Line
        ensures { result ≡ [] }
    {
        Line {
            bytes: [0; 1024],
            len: 0,
        }
    }

    // Only the length is set: to clear the bytes would take as long as to make most lines.
    fn clear(&mut self)
        ensures { self.new ≡ [] }
    {
        self.len = 0;
    }

    pub fn as_bytes(&self) -> &[u8]
        ensures bytes { result.now ≡ self.now }
        ensures near { length result.now ≤ room }
    {
        &self.bytes[..self.len]
    }

    // A word that there is room for.
    fn append(&mut self, word: &[u8])
        requires { length self.old + length word.now ≤ room }
        ensures { self.new ≡ self.old ++ word.now }
    {
        let end = self.len + word.len();
        self.bytes[self.len..end].copy_from_slice(word);
        self.len = end;
    }

    // As much of the word as there is room for.
    // (Two calls, and no `min`: so a word of known length is copied by a move or two, and not by a call.)
    fn text(&mut self, word: &[u8])
        ensures { self.new ≡ put self.old word.now }
    {
        let left = self.bytes.len() - self.len;
        if word.len() <= left {
            self.append(word);
        } else {
            self.append(&word[..left]);
        }
    }

    // By `io::decimal`: `write!` is no plainer, since its answer may be an `Err`, of which no clause promises a text.
    // (Where there is room for all 20 bytes, they are copied at once, and the length goes back to the digits: two moves; a copy of the digits alone is a call.)
    fn number<N: Numeral>(&mut self, n: N)
        ensures { self.new ≡ put self.old (decimal (N.value n)) }
    {
        let mut digits = [0u8; 20];
        let k = io::decimal(n.value(), &mut digits);
        let left = self.bytes.len() - self.len;
        if digits.len() <= left {
            self.append(&digits);
            self.len -= digits.len() - k;
        } else {
            self.text(&digits[..k]);
        }
    }

    // A word and a number.
    fn field<N: Numeral>(&mut self, word: &[u8], n: N)
        ensures { self.new ≡ put self.old (word.now ++ decimal (N.value n)) }
    {
        self.text(word);
        self.number(n);
    }

    // Numbers, each behind a space.
    fn row<N: Numeral>(&mut self, numbers: &[N])
        ensures { self.new ≡ put self.old (row_text (map N.value numbers.now) (length numbers.now)) }
    {
        let _ = &self.len; // no line is longer than its room
        for n in numbers {
            self.field(b" ", *n);
        }
    }

    // A walk that came to an end: its hops, and the nodes visited.
    // (That a walk has 16 hops at most stays a clause: `Walked` is handed in by callers, and a fact in its type would ask more of them.)
    fn nodes(&mut self, word: &[u8], walked: &Walked)
        requires { walked.now.hops ≤ 16 }
        ensures { self.new ≡ put self.old (word.now ++ decimal walked.now.hops ++ row_text walked.now.row (walked.now.hops + 1)) }
    {
        self.field(word, walked.hops);
        self.row(&walked.row[..=walked.hops]);
    }

    fn ending(&mut self, walked: &Walked)
        requires { walked.now.hops ≤ 16 }
        ensures { self.new ≡ put self.old (end_text walked.now.ending walked.now.hops walked.now.row) }
    {
        match walked.ending {
            Ending::Delivered => self.nodes(b" delivered ", walked),
            Ending::Halted => self.nodes(b" halted ", walked),
            Ending::Refused(refusal) => self.field(b" refused ", refusal),
        }
    }
}

// ---- the listing

pub fn cube_line(n: usize, faulty: usize, labels: &[u8], exchanges: usize, line: &mut Line)
    ensures { line.new ≡ cube_line n faulty labels.now exchanges }
{
    line.clear();
    line.field(b"cube ", n);
    line.field(b" faulty ", faulty);
    line.field(b" safe ", count_of(labels, 0));
    line.field(b" ordinary ", count_of(labels, 1));
    line.field(b" strong ", count_of(labels, 2));
    line.field(b" rounds ", exchanges);
    line.text(b"\n");
}

pub fn pair_line(s: usize, d: usize, walked: Walked, line: &mut Line)
    requires { walked.hops ≤ 16 }
    ensures { line.new ≡ pair_line s d walked }
{
    line.clear();
    line.number(s);
    line.field(b" ", d);
    line.ending(&walked);
    line.text(b"\n");
}

// A word, the number of a refusal, its place and the end of the line.
pub fn refused_line(word: &[u8], k: u32, at: usize, line: &mut Line)
    requires { length word.now ≤ 20 }
    ensures { line.new ≡ (word.now ++ decimal k) ++ field " " at ++ text "\n" }
{
    line.clear();
    line.field(word, k);
    line.field(b" ", at);
    line.text(b"\n");
}

// The only line of an input that is too long.
pub fn long_line(line: &mut Line)
    ensures { line.new ≡ too_long }
{
    line.clear();
    line.text(b"input too long\n");
}

// ---- the tally

// A word, a number and the end of the line.
fn field_line(word: &[u8], n: usize, line: &mut Line)
    requires { length word.now ≤ 20 }
    ensures { line.new ≡ (word.now ++ decimal n) ++ text "\n" }
{
    line.clear();
    line.field(word, n);
    line.text(b"\n");
}

pub fn size_line(n: usize, line: &mut Line)
    ensures { line.new ≡ size_line n }
{
    field_line(b"cube ", n, line);
}

pub fn progress_line(n: usize, line: &mut Line)
    ensures { line.new ≡ progress_line n }
{
    field_line(b"tally: cube ", n, line);
}

pub fn figures_line(faults: usize, figures: &[u32; 6], line: &mut Line)
    ensures { line.new ≡ figures_line faults figures.now }
{
    line.clear();
    line.number(faults);
    line.row(figures);
    line.text(b"\n");
}
