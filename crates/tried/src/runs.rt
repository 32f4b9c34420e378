// The calls on a sheet: a fresh start, events, and an evening of them in one call.
use crate::said;
use effects::Run;
use rule::{EventNo, StateNo};
use std::io;

// A fresh start. Refused, the run is at state 0 with nothing held.
pub(crate) fn start(rt: &impl Print, sheet: &[u8]) -> io::Result<()> {
    let fresh = monitor::fresh(sheet);
    said::verdict(rt, fresh.map(|_| ()))?;
    said::run(rt, fresh.unwrap_or(Run::new(StateNo(0))))
}

// A run on a sheet, with its memory and its output.
#[derive(Drop)]
struct Trial<'a> {
    sheet: &'a [u8],
    run: Run,
    memory: &'a mut [u8],
    output: &'a mut [u8],
}

impl Trial<'_> {
    // One event.
    fn offer(&mut self, rt: &impl Print, code: u8) -> io::Result<()> {
        match monitor::event(
            self.sheet,
            self.run,
            EventNo(code),
            self.memory,
            self.output,
        ) {
            Ok(Some(taken)) => {
                self.run = taken.run;
                said::operation(rt, taken.operation)?;
                said::run(rt, taken.run)?;
                print!(rt; " released {}", taken.released)
            }
            Ok(None) => print!(rt; " ignored"),
            Err(refusal) => said::refused(rt, refusal),
        }
    }

    // Events one after another, each with the output after it, and then the memory.
    fn follow(&mut self, rt: &impl Print, codes: &[u8]) -> io::Result<()> {
        for code in codes {
            self.offer(rt, *code)?;
            said::buffer(rt, "output", self.output)?;
        }
        said::buffer(rt, "memory", self.memory)
    }

    // Events in one call.
    fn evening(&mut self, rt: &impl Print, codes: &[u8]) -> io::Result<()> {
        let evening = monitor::events(self.sheet, self.run, codes, self.memory, self.output);
        said::verdict(rt, evening.verdict)?;
        said::run(rt, evening.run)?;
        print!(rt;
            " taken {} released {} ignored {}",
            evening.taken, evening.released, evening.ignored
        )?;
        said::buffer(rt, "output", self.output)?;
        said::buffer(rt, "memory", self.memory)
    }
}

// Events with buffers of 171s: the lengths of the memory and of the output, the state, how many are held, the codes. Of a long evening
// the codes are how many more than 4,000 events there are, and the code of each.
pub(crate) fn event(
    rt: &impl Print,
    command: u8,
    sheet: &[u8],
    numbers: &[u8],
) -> io::Result<bool> {
    let [most, room, state, held, codes @ ..] = numbers else {
        return Ok(false);
    };
    let mut memory = [171u8; 255];
    let mut output = [171u8; 255];
    let mut trial = Trial {
        sheet,
        run: Run {
            state: StateNo(*state),
            held: *held as usize,
        },
        memory: &mut memory[..*most as usize],
        output: &mut output[..*room as usize],
    };
    match (command, codes) {
        (b'e', codes) => trial.follow(rt, codes)?,
        (b'v', codes) => trial.evening(rt, codes)?,
        (_, [more, code, ..]) => trial.evening(rt, &[*code; 4255][..4000 + *more as usize])?,
        (_, _) => {}
    }
    Ok(true)
}
