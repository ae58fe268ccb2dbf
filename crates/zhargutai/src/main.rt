// The program of document 01: reads a job from standard input and prints its one line to standard output. The line is that of crate jobline for
// the bytes that were read. The status is 0 whatever the line says, refusals included; if the line cannot be written, standard error says so. A
// read that fails ends the program with that error, and no line is printed.
#![tactic(auto)]

use inputs::read_full;
use jobline::job_line;
use std::io::Write;
use std::{io, str};

// The system's reason in an error's text, without its number.
fn reason(said: &str) -> &str {
    match said.split_once(" (os error ") {
        Some((front, _)) => front,
        None => said,
    }
}

// Says on standard error why the line is not written.
fn tell(rt: &impl Eprint, error: io::Error) -> io::Result<()> {
    let mut text = [0u8; 300];
    let mut rest: &mut [u8] = &mut text;
    write!(rest, "{error}")?;
    let count = 300usize.saturating_sub(rest.len());
    let why = reason(str::from_utf8(&text[..count]).unwrap_or(""));
    eprintln!(rt; "output: {why}")
}

// Writes the line; standard error says so if that fails. Where that cannot be written either, nothing is left to say it on.
fn put(rt: &(impl Print + Eprint), line: &[u8]) {
    if let Err(error) = rt.write_all(line) {
        let _ = tell(rt, error);
    }
}

// Reads at most a byte more than the longest job, 18 + 3 * 65,536 bytes, so that a longer input is seen to be longer.
fn main(rt: HostRuntime) -> io::Result<()> {
    let mut input = [0u8; 196627];
    let mut line = [0u8; 160];
    let count = read_full(&mut rt.stdin(), &mut input)?;
    let length = job_line(&input[..count], &mut line);
    put(&rt, &line[..length]);
    Ok(())
}
