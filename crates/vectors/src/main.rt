// Reads each file that its arguments name and prints what reading answers: a set's header, a circuit's number of gates, or the refusal.
// A name says how a file is read: set-.. as a start set, end-.. as an end set, gates-N-.. as a circuit and one-N-.. as the one-gate job's
// circuit, both held to N qubits. A read or a write that fails ends the program with that error.
#![tactic(auto)]

use inputs::read_full;
use refusals::{Refusal, Source};
use setfile::{Bounds, Form};
use std::rt::Files;
use std::{env, fs, io};

fn print_refusal(rt: &impl Print, r: Refusal) -> io::Result<()> {
    let number = r.reason.number();
    let source = r.source.number();
    let place = r.place;
    print!(rt; "refused {number} {source} {place}")
}

fn print_form(rt: &impl Print, f: Form) -> io::Result<()> {
    print!(rt; "set {} {} {} {} {}", f.n, f.k, f.states, f.inner, f.leaves)
}

// A set file, held to the bound of states given.
fn print_set(rt: &impl Print, file: &[u8], states: u16, source: Source) -> io::Result<()> {
    let bounds = Bounds {
        states,
        inner: 2048,
        leaves: 1024,
    };
    match setfile::read_set(file, bounds) {
        Ok(form) => print_form(rt, form),
        Err(fault) => print_refusal(rt, fault.of(source)),
    }
}

fn print_circuit(rt: &impl Print, answer: Result<u16, Refusal>) -> io::Result<()> {
    match answer {
        Ok(count) => print!(rt; "gates {count}"),
        Err(r) => print_refusal(rt, r),
    }
}

// The digit at a place of a name, as a number of qubits; 0 where there is none.
fn qubits(name: &[u8], at: usize) -> u8 {
    name.get(at).map_or(0, |digit| digit.saturating_sub(b'0'))
}

// A file by the first letter of its name: s, e, g or o.
fn answer(rt: &impl Print, name: &[u8], file: &[u8]) -> io::Result<()> {
    match name.first() {
        Some(b's') => print_set(rt, file, 1024, Source::Start),
        Some(b'e') => print_set(rt, file, 128, Source::End),
        Some(b'g') => print_circuit(rt, circuitfile::read_circuit(file, qubits(name, 6))),
        Some(b'o') => print_circuit(rt, circuitfile::read_one(file, qubits(name, 4))),
        _ => Ok(()),
    }
}

// The file of this name. One that cannot be opened is named on standard error, and passed over.
fn run(rt: &(impl Files + Print + Eprint), name: &str) -> io::Result<()> {
    let mut file = match fs::open(rt, name) {
        Ok(file) => file,
        Err(error) => return eprintln!(rt; "{name}: {error}"),
    };
    let mut bytes = [0u8; 65536];
    let count = read_full(&mut file, &mut bytes)?;
    print!(rt; "{name}: ")?;
    answer(rt, name.as_bytes(), &bytes[..count])?;
    println!(rt)
}

fn main(rt: HostRuntime) -> io::Result<()> {
    for name in env::args(&rt)?.skip(1) {
        run(&rt, name.as_str())?;
    }
    Ok(())
}
