// The listing program (RULES, The listing program): one notice from standard input, then pairs of source and destination. The lines are made by `lines`
// and `printed`, whose contracts give their bytes; this program reads, goes from pair to pair, and writes each line as it was made. One `Line` holds each in
// turn.
#![tactic(auto)]

ghost use Rattle.std.specs.Prelude.{◌≤◌, IfOk, length, ◌≡◌};
ghost use Rattle.notice.specs.Notice.{dimension_of, notice_of};
ghost use Rattle.printed.specs.Printed.{labels_in};

use lines::Line;
use std::io;
use std::io::Read;

// (The hint: the function is called for each line, and without it LLVM leaves it out of line.)
#[inline]
fn say(rt: &impl Print, line: &Line) -> io::Result<()> {
    rt.write_all(line.as_bytes())
}

// A line for each pair behind the notice; places are those of the whole input. A `while`: no range has the places, since each pair says where the next begins,
// and an iterator of the program's own would be no plainer.
fn list_pairs(
    rt: &impl Print,
    n: usize,
    labels: &[u8],
    bytes: &[u8],
    line: &mut Line,
) -> io::Result<()>
    requires { (n ≡ dimension_of (notice_of bytes.now)) × (labels.now ≡ labels_in bytes.now) }
{
    let pairs = notice::tail(bytes);
    let mut at = bytes.len() - pairs.len();
    while at < bytes.len() {
        let next = printed::line_at(n, labels, bytes, at, line);
        say(rt, line)?;
        at = next;
    }
    Ok(())
}

// Behind a refused notice no bytes are left, so its line is the only one.
fn list(rt: &impl Print, bytes: &[u8], line: &mut Line) -> io::Result<()> {
    let mut labels = [0u8; 8192];
    let labelled = printed::head_line(bytes, &mut labels, line);
    say(rt, line)?;
    let Some(cube) = labelled else {
        return Ok(());
    };
    list_pairs(rt, cube.n, &labels[..cube.bytes], bytes, line)
}

// Reads until the buffer is full or the input ends: how many bytes that are. By hand, since `read_to_end` takes a `Vec`, and the programs have no heap.
fn read_full<R: Read>(reader: &mut R, bytes: &mut [u8]) -> io::Result<usize>
    ensures { IfOk result (λ n. n ≤ length bytes.new) }
{
    let mut done = 0;
    while done < bytes.len() {
        let n = reader.read(&mut bytes[done..])?;
        if n == 0 {
            break;
        }
        done += n;
    }
    Ok(done)
}

// The buffer has room for one byte more than an input may have: so one that is too long shows.
fn main(rt: HostRuntime) -> io::Result<()> {
    let mut input = [0u8; 16385];
    let length = read_full(&mut rt.stdin(), &mut input)?;
    let mut line = Line::new();
    if 16384 < length {
        lines::long_line(&mut line);
        return say(&rt, &line);
    }
    list(&rt, &input[..length], &mut line)
}
