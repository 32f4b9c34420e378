// What is printed.
use book::Lookup;
use effects::Run;
use rule::{Operation, Refusal};
use std::io;
use why::Ground;

pub(crate) fn unclear(rt: &impl Print, line: usize) -> io::Result<()> {
    println!(rt; "line {line}: not a command")
}

// By hand, here and below: the types are of crates that print nothing.
pub(crate) fn operation(rt: &impl Print, operation: Operation) -> io::Result<()> {
    match operation {
        Operation::Halt => print!(rt; " halt"),
        Operation::Store => print!(rt; " store"),
        Operation::Dump => print!(rt; " dump"),
    }
}

// Some bytes. Those that are 171 at the end are counted.
pub(crate) fn bytes(rt: &impl Print, list: &[u8]) -> io::Result<()> {
    if list.is_empty() {
        return print!(rt; " none");
    }
    let last = list.iter().rposition(|byte| *byte != 171);
    let (written, untouched) = list.split_at(last.map_or(0, |i| i + 1));
    for byte in written {
        print!(rt; " {byte}")?;
    }
    if !untouched.is_empty() {
        print!(rt; " 171x{}", untouched.len())?;
    }
    Ok(())
}

// A refusal, by its number and places.
pub(crate) fn refused(rt: &impl Print, refusal: Refusal) -> io::Result<()> {
    let told = refusal.told();
    print!(rt; " refused {} {} {}", told.number, told.a, told.b)
}

// Where a rule was found.
pub(crate) fn lookup(rt: &impl Print, found: Result<Lookup, Refusal>) -> io::Result<()> {
    match found {
        Ok(Lookup::Job(start, size)) => print!(rt; " job {start} {size}"),
        Ok(Lookup::Office(start, size)) => print!(rt; " office {start} {size}"),
        Err(refusal) => refused(rt, refusal),
    }
}

// An operation and the ground for it.
pub(crate) fn ground(rt: &impl Print, ground: Result<Ground, Refusal>) -> io::Result<()> {
    match ground {
        Ok(Ground::Halted(pair)) => print!(rt; " halt {pair}"),
        Ok(Ground::Held(pair, length)) => print!(rt; " store {pair} {length}"),
        Ok(Ground::Released) => print!(rt; " dump"),
        Err(refusal) => refused(rt, refusal),
    }
}

// What came of writing.
pub(crate) fn written(rt: &impl Print, answer: Result<usize, Refusal>) -> io::Result<()> {
    match answer {
        Ok(size) => print!(rt; " written {size}"),
        Err(refusal) => refused(rt, refusal),
    }
}

// What checking came to.
pub(crate) fn verdict(rt: &impl Print, verdict: Result<(), Refusal>) -> io::Result<()> {
    match verdict {
        Ok(()) => print!(rt; " sound"),
        Err(refusal) => refused(rt, refusal),
    }
}

pub(crate) fn run(rt: &impl Print, run: Run) -> io::Result<()> {
    let state = run.state;
    print!(rt; " state {} held {}", state.0, run.held)
}

// A buffer by its name.
pub(crate) fn buffer(rt: &impl Print, name: &str, list: &[u8]) -> io::Result<()> {
    print!(rt; " {name}")?;
    bytes(rt, list)
}
