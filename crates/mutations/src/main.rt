// Reads each set file that its arguments name, cut at every byte, and then with each single bit of it flipped, and prints for each the refusal's
// number and place as number@place, 0@0 for a set that is taken. One line for the cuts, then one for each of a byte's eight bits. A read or a
// write that fails ends the program with that error.
#![tactic(auto)]

use inputs::read_full;
use setfile::Bounds;
use std::rt::Files;
use std::{env, fs, io};

// What is said of a set file: the refusal's number and place.
fn show(rt: &impl Print, file: &[u8]) -> io::Result<()> {
    let bounds = Bounds {
        states: 1024,
        inner: 2048,
        leaves: 1024,
    };
    match setfile::read_set(file, bounds) {
        Ok(_) => print!(rt; "0@0"),
        Err(fault) => print!(rt; "{}@{}", fault.reason.number(), fault.place),
    }
}

// The same, after a space if it is not the first of its line.
fn show_next(rt: &impl Print, i: usize, file: &[u8]) -> io::Result<()> {
    if i != 0 {
        print!(rt; " ")?;
    }
    show(rt, file)
}

// Every cut of the file.
fn cuts(rt: &impl Print, file: &[u8]) -> io::Result<()> {
    for i in 0..file.len() {
        show_next(rt, i, &file[..i])?;
    }
    show_next(rt, file.len(), file)?;
    println!(rt)
}

// The file with this bit of a byte flipped, byte by byte; it is as it was afterwards.
fn flips(rt: &impl Print, file: &mut [u8], bit: u8) -> io::Result<()> {
    for i in 0..file.len() {
        file[i] ^= bit;
        show_next(rt, i, file)?;
        file[i] ^= bit;
    }
    println!(rt)
}

fn all_flips(rt: &impl Print, file: &mut [u8]) -> io::Result<()> {
    for bit in [1, 2, 4, 8, 16, 32, 64, 128] {
        flips(rt, file, bit)?;
    }
    Ok(())
}

// The file of this name. One that cannot be opened is named on standard error, and passed over.
fn run(rt: &(impl Files + Print + Eprint), name: &str) -> io::Result<()> {
    let mut file = match fs::open(rt, name) {
        Ok(file) => file,
        Err(error) => return eprintln!(rt; "{name}: {error}"),
    };
    let mut bytes = [0u8; 4096];
    let count = read_full(&mut file, &mut bytes)?;
    println!(rt; "{name}")?;
    let file = &mut bytes[..count];
    cuts(rt, file)?;
    all_flips(rt, file)
}

fn main(rt: HostRuntime) -> io::Result<()> {
    for name in env::args(&rt)?.skip(1) {
        run(&rt, name.as_str())?;
    }
    Ok(())
}
