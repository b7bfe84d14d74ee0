// The tally program (RULES, The tally): for each cube of dimensions 1 to 4 its line, and then a line for each number of faults with the six figures over all
// tables of so many. The figures are counted by `counters` and the lines made by `lines`, whose contracts give them; this program goes from cube to cube and
// writes each line as it was made. One `Line` holds each in turn.
#![tactic(auto)]

ghost use Rattle.std.specs.Prelude.{◌≤◌, length, ◌≡◌};
ghost use Rattle.figures.specs.Figures.{counters_of, tally_of};

use counters::tally;
use cube::nodes;
use lines::Line;
use std::io;
use std::io::{IsTerminal, Write};

fn say<W: Write>(file: &mut W, line: &Line) -> io::Result<()> {
    file.write_all(line.as_bytes())
}

// The cube that is next, for whoever waits at a terminal: its lines come only when all its tables are counted.
fn say_progress(rt: &HostRuntime, n: usize, line: &mut Line) -> io::Result<()> {
    if !rt.stderr().is_terminal() {
        return Ok(());
    }
    lines::progress_line(n, line);
    say(&mut rt.stderr(), line)
}

// A line for each number of faults: none, one, .., all nodes.
fn say_all(rt: &HostRuntime, n: usize, counters: &[u32], line: &mut Line) -> io::Result<()>
    requires { (n ≤ 4) × (counters.now ≡ tally_of n) }
{
    let (rows, _) = counters.as_chunks::<6>();
    for (faults, figures) in rows.iter().enumerate() {
        lines::figures_line(faults, figures, line);
        say(&mut rt.stdout(), line)?;
    }
    Ok(())
}

// The dimension and the counters are such as are not refused, so what is written is the tally.
fn say_cube(rt: &HostRuntime, n: usize, counters: &mut [u32], line: &mut Line) -> io::Result<()>
    requires { ((1 ≤ n) × (n ≤ 4)) × (length counters.old ≡ counters_of n) }
{
    let _ = tally(n, counters);
    lines::size_line(n, line);
    say(&mut rt.stdout(), line)?;
    say_all(rt, n, counters, line)
}

// Six counters for each number of faults, 0 to 16 in the largest of these cubes. Those that a cube needs are the first of them.
fn main(rt: HostRuntime) -> io::Result<()> {
    let mut counters = [0u32; 102];
    let mut line = Line::new();
    for n in 1..=4 {
        let kept = 6 * (nodes(n) + 1);
        say_progress(&rt, n, &mut line)?;
        say_cube(&rt, n, &mut counters[..kept], &mut line)?;
    }
    Ok(())
}
