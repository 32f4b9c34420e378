// Tries the real calls on the cases of a script, which comes on standard input: the head of the file `stdin` tells how it is
// written. The file `stdout` has what document 01 says of each case.
#![tactic(auto)]

ghost use Rattle.std.specs.Io.{ReadsAtMost};

mod calls;
mod runs;
mod said;
mod script;

use arrayvec::ArrayVec;
use script::{Bytes, changed, cut, listed};
use std::io::{self, Read};

// A case: its name, the letter of its command, the numbers and the changes.
#[derive(Clone, Copy)]
struct Case<'a> {
    name: &'a [u8],
    command: u8,
    numbers: &'a [u8],
    changes: &'a [u8],
}

// A line with a case: a name, a colon, a space, a letter, numbers, changes.
fn case_of(line: &[u8]) -> Option<Case<'_>> {
    let (name, rest) = cut(line, |byte| byte == b':');
    let [b':', b' ', command, rest @ ..] = rest else {
        return None;
    };
    let (numbers, changes) = cut(rest, |byte| byte == b'@');
    Some(Case {
        name,
        command: *command,
        numbers,
        changes,
    })
}

// The command of a case, on the bytes at hand with those changed that the changes name. Answers whether all of it is clear.
fn obey(rt: &impl Print, case: Case<'_>, at_hand: &Bytes) -> io::Result<bool> {
    let mut numbers = ArrayVec::<u8, 64>::new();
    let mut whole = [0u8; 3300];
    octets::copy(at_hand, &mut whole);
    let bytes = &mut whole[..at_hand.len()];
    if listed(case.numbers, &mut numbers).is_none() || changed(case.changes, bytes).is_none() {
        return Ok(false);
    }
    calls::call(rt, case.command, &numbers, bytes)
}

// A line with a case, and the bytes at hand where these are clear. Answers whether all of it is clear.
fn attempt(rt: &impl Print, line: &[u8], at_hand: Option<&Bytes>) -> io::Result<bool> {
    let Some(case) = case_of(line) else {
        return Ok(false);
    };
    rt.write_all(case.name)?;
    print!(rt; ":")?;
    let clear = match at_hand {
        Some(bytes) => obey(rt, case, bytes)?,
        None => false,
    };
    println!(rt)?;
    Ok(clear)
}

// Reads list lines: their numbers are the bytes at hand.
fn read(lines: &[u8], at_hand: &mut Bytes) -> Option<()> {
    at_hand.clear();
    for line in lines.split(|byte| *byte == b'\n') {
        listed(line, at_hand)?;
    }
    Some(())
}

// The lines of a script. List lines that stand together have the bytes at hand for the cases below them, and are read when the first of these comes. The bytes
// are put where they stay, so that no line costs what the buffer is long: a flag beside them, and no Option, says whether they are clear.
fn follow(rt: &impl Print, script: &[u8]) -> io::Result<()> {
    let mut at_hand = Bytes::new();
    let mut clear = true;
    let mut unread = None;
    let (mut start, mut at) = (0usize, 0usize);
    let mut listing = false;
    for (i, line) in script.split(|byte| *byte == b'\n').enumerate() {
        let end = at.saturating_add(line.len());
        match line {
            [] | [b'#', ..] => {}
            [b' ', ..] => {
                if !listing {
                    start = at;
                }
                unread = script.get(start..end);
            }
            _ => {
                if let Some(lines) = unread {
                    clear = read(lines, &mut at_hand).is_some();
                    unread = None;
                }
                if !attempt(rt, line, clear.then_some(&at_hand))? {
                    said::unclear(rt, i + 1)?;
                }
            }
        }
        listing = line.starts_with(b" ");
        at = end.saturating_add(1);
    }
    Ok(())
}

// Reads until the buffer is full or the input ends, and answers how many bytes came. By hand: a read has the room of the whole buffer, so that no
// part of a message is lost (`io::copy` reads 8,192 bytes at a time), and one that a signal interrupts ends the program (`io::copy` would try it again).
fn read_full(input: &mut impl Read, buffer: &mut [u8]) -> io::Result<usize>
    ensures { ReadsAtMost result buffer.new }
{
    let mut done = 0;
    while done < buffer.len() {
        let some = input.read(&mut buffer[done..])?;
        if some == 0 {
            break;
        }
        done += some;
    }
    Ok(done)
}

// A script that fills the whole buffer may have been cut.
fn main(rt: HostRuntime) -> io::Result<()> {
    let mut script = [0u8; 32768];
    let length = read_full(&mut rt.stdin(), &mut script)?;
    if length < 32768 {
        follow(&rt, &script[..length])
    } else {
        said::unclear(&rt, 0)
    }
}
