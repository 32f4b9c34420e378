// The calls: on a rule file, on a rule by value, on a book, on a sheet.
ghost use Rattle.std.specs.Prelude.{◌≤◌, length};

use crate::{runs, said};
use rule::{EventNo, Pair, Refusal, Rule, Shape, StateNo};
use std::io;

// Reads a rule file, and where it is sound writes its rule again. A file that is the same is not printed.
fn read(rt: &impl Print, file: &[u8]) -> io::Result<()> {
    let rule = match rulefile::read(file) {
        Ok(rule) => rule,
        Err(refusal) => return said::refused(rt, refusal),
    };
    let mut out = [171u8; 3300];
    said::written(rt, rulefile::write(rule, &mut out))?;
    match out.strip_prefix(file) {
        Some(rest) => {
            print!(rt; " same")?;
            said::bytes(rt, rest)
        }
        None => said::bytes(rt, &out),
    }
}

// R and P, eight bytes each.
fn pair_of(bytes: &[u8]) -> Pair
    requires { 16 ≤ length bytes.now }
{
    Pair {
        r: octets::number(bytes),
        p: octets::number(&bytes[8..]),
    }
}

// A rule by value: class, N, K, m, initial state; the note's length in two bytes; R and P of pair 0 and of pair 1; sixteen bytes of
// the table; the note.
fn rule_of(bytes: [u8; 128]) -> Rule {
    let mut pairs = [Pair { r: 0, p: 0 }; 8];
    pairs[0] = pair_of(&bytes[7..]);
    pairs[1] = pair_of(&bytes[23..]);
    let mut table = [0u8; 2048];
    table[..16].copy_from_slice(&bytes[39..55]);
    let mut note = [0u8; 1024];
    note[..73].copy_from_slice(&bytes[55..]);
    let [class, states, events, count, initial, low, high, ..] = bytes;
    Rule {
        shape: Shape {
            class,
            states,
            events,
            pairs: count,
            initial: StateNo(initial),
            mode: 0,
        },
        length: u16::from_le_bytes([low, high]) as usize,
        note,
        table,
        pairs,
    }
}

// Writes a rule by value.
fn write(bytes: &[u8], out: &mut [u8]) -> Result<usize, Refusal> {
    let mut whole = [0u8; 128];
    octets::copy(bytes, &mut whole);
    rulefile::write(rule_of(whole), out)
}

// A call that writes to an output of so many bytes, and the output.
fn put<F>(rt: &impl Print, room: u8, call: F) -> io::Result<()>
where
    F: FnOnce(&mut [u8]) -> Result<usize, Refusal>,
    requires { F.IsAlwaysCallable call }
{
    let mut whole = [171u8; 255];
    let out = &mut whole[..room as usize];
    said::written(rt, call(out))?;
    said::bytes(rt, out)
}

// Looks a rule up in the job's book and the office's.
fn find(rt: &impl Print, job: &[u8], office: &[u8], number: u8, age: u8) -> io::Result<()> {
    said::lookup(rt, book::look(job, office, number, age as u16))?;
    said::bytes(rt, book::find(job, office, number, age as u16))
}

// Asks why an event is answered as it is in a state. As `put`, with another answer: a function for both would take how to say it, and is no plainer.
fn ask(rt: &impl Print, file: &[u8], state: u8, event: u8, room: u8) -> io::Result<()> {
    let mut whole = [171u8; 255];
    let out = &mut whole[..room as usize];
    said::ground(rt, why::why(file, StateNo(state), EventNo(event), out))?;
    said::bytes(rt, out)
}

// A command by its letter. Answers whether there is one with so many numbers. The letters of events are told apart in `runs::event`, where their buffers are
// made once.
pub(crate) fn call(rt: &impl Print, command: u8, numbers: &[u8], bytes: &[u8]) -> io::Result<bool> {
    match (command, numbers) {
        (b'r', []) => read(rt, bytes)?,
        (b's', []) => runs::start(rt, bytes)?,
        (b'w', [room]) => put(rt, *room, |out| write(bytes, out))?,
        (b'm', [room]) => put(rt, *room, |out| making::make(bytes, out))?,
        (b'y', [room, state, event]) => ask(rt, bytes, *state, *event, *room)?,
        (b'f', [number, age, place]) => {
            let Some((job, office)) = bytes.split_at_checked(*place as usize) else {
                return Ok(false);
            };
            find(rt, job, office, *number, *age)?;
        }
        (b'a', [room, number, place]) => {
            let Some((book, rule)) = bytes.split_at_checked(*place as usize) else {
                return Ok(false);
            };
            put(rt, *room, |out| book::add(book, *number, rule, out))?;
        }
        (b'e' | b'v' | b'l', _) => return runs::event(rt, command, bytes, numbers),
        _ => return Ok(false),
    }
    Ok(true)
}
