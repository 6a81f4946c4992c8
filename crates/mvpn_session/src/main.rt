// Runs calls on one table, given line by line on standard input as words and hexadecimal octets, and prints what each
// answers. It only reads and prints; every answer is the table crate's.
#![tactic(auto)]

mod answer;
mod line;
mod script;

use std::io;

// Octets of the script, of the memory for the table (five places), and of a match's output.
const SCRIPT: usize = 8192;

const MEMORY: usize = 648;

const OUTPUT: usize = places::output::LEAST_OUTPUT;

// The table's memory holds no table at first, so that calls before the first `make` are refused.
fn main(rt: HostRuntime) -> io::Result<()> {
    let mut text = [0u8; SCRIPT];
    let mut table = [255u8; MEMORY];
    let mut output = [0u8; OUTPUT];
    let size = script::read(&mut rt.stdin(), &mut text)?;
    line::run_all(&rt, &text[..size], &mut table, &mut output)
}
