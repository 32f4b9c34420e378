// Prints the monitor of the rule file on standard input (document 01, "The printed monitor").
#![tactic(auto)]

ghost use Rattle.std.specs.Io.{ReadsAtMost};

use std::io::{self, Read};

// A file of so many bytes is too long whatever follows.
const TOO_LONG: usize = 3213;

// Reads until the buffer is full or the input ends, and answers how many bytes came. By hand: a read that a signal interrupts ends the program, and `io::copy`
// would try it again.
fn read_full(input: &mut impl Read, buffer: &mut [u8]) -> io::Result<usize>
    ensures { ReadsAtMost result buffer.new }
{
    let mut done = 0;
    while done < buffer.len() {
        let some = input.read(&mut buffer[done..])?;
        if some == 0 {
            break;
        }
        done += some;
    }
    Ok(done)
}

// Reads once, and answers whether anything came.
fn pass_some(input: &mut impl Read) -> io::Result<bool> {
    let mut rest = [0u8; 65536];
    Ok(input.read(&mut rest)? > 0)
}

// Reads on to the end of the input, so that nobody who writes it is stopped half way. A proved loop has to end,
// and nothing says that an input does: the turns are counted up to a number that no run reaches.
fn pass_rest(input: &mut impl Read) -> io::Result<()> {
    for _ in 0..u64::MAX {
        if !pass_some(input)? {
            break;
        }
    }
    Ok(())
}

fn main(rt: HostRuntime) -> io::Result<()> {
    let mut input = rt.stdin();
    let mut file = [0u8; TOO_LONG];
    let length = read_full(&mut input, &mut file)?;
    if length == TOO_LONG {
        pass_rest(&mut input)?;
    }
    let mut out = [0u8; printed::TEXT_MAX];
    if let Ok(size) = printed::print(&file[..length], &mut out) {
        rt.write_all(&out[..size])?;
    }
    Ok(())
}
