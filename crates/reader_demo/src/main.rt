// Two notices back to back, and then a number that is ill written, read number by number through the reader.
// Each line has the place that the reader had, and the value there, or the refusal and the place that it answers. The last refusal is asked for twice:
// its place stays.
#![tactic(auto)]

use groups::Number;
use reader::next_at;
use std::io;

// A number as its line shows it: its value, or its refusal and the place that it answers.
fn put_number(rt: &impl Print, number: Number) -> io::Result<()> {
    match number {
        Ok((v, _)) => print!(rt; " value {v}"),
        Err((refusal, at)) => {
            let k = u32::from(refusal);
            print!(rt; " refused {k} {at}")
        }
    }
}

// Prints the number at a place, and gives the place after it.
fn put_next(rt: &impl Print, bytes: &[u8], at: usize) -> io::Result<usize> {
    let step = next_at(bytes, at);
    print!(rt; "place {at}")?;
    put_number(rt, step.number)?;
    println!(rt)?;
    Ok(step.at)
}

// n = 4 with faulty 2, 4, 8, 15; n = 8 with faulty 200, 206; then 81 00.
fn main(rt: HostRuntime) -> io::Result<()> {
    let bytes = b"\x04\x04\x02\x01\x03\x06\x08\x02\xC8\x01\x05\x81\x00";
    let mut at = 0;
    for _ in 0..12 {
        at = put_next(&rt, bytes, at)?;
    }
    Ok(())
}
