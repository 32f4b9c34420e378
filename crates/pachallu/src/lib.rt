// What C calls: numbers and byte slices. Each call is one of the house's, and its answer is told in numbers; the crate pachallu_c exports them to C, and
// include/pachallu.h declares them.
#![tactic(auto)]

ghost use Rattle.std.specs.Prelude.{◌≡◌};
ghost use Rattle.effects.specs.Effects.{answer_told};
ghost use Rattle.pachallu.specs.Told.{made_of, MakeForC, PrintForC, FindForC, AddForC, FreshForC, EventForC, EveningForC, WhyForC};

use book::Lookup;
use effects::Run;
use rule::{EventNo, Operation, Refusal, StateNo, Told};
use why::Ground;

// What stands for an operation where the event was ignored. A cell of a sheet with this operation is refused 14.
pub const IGNORED: u8 = 3;

// What stands for the books.
const JOB: u8 = 0;

const OFFICE: u8 = 1;

// What making a sheet, printing a monitor or adding to a book came to. A refusal of 0 is "done". The layout of this struct and the next ones is that of
// include/pachallu.h, so each has the three numbers of a refusal itself.
#[repr(C)]
#[derive(Clone, Copy)]
pub struct Made {
    pub refusal: u8,
    pub a: u8,
    pub b: u8,
    pub written: usize,
}

// What a fresh start came to.
#[repr(C)]
#[derive(Clone, Copy)]
pub struct Started {
    pub refusal: u8,
    pub a: u8,
    pub b: u8,
    pub state: u8,
    pub held: usize,
}

// What one event came to. A refused or an ignored one tells the run state that it was given; the operation of an ignored one is 3.
#[repr(C)]
#[derive(Clone, Copy)]
pub struct Answered {
    pub refusal: u8,
    pub a: u8,
    pub b: u8,
    pub operation: u8,
    pub state: u8,
    pub held: usize,
    pub released: usize,
}

// Where a rule was found: in the job's book (0) or the office's (1), its first byte and its length there.
#[repr(C)]
#[derive(Clone, Copy)]
pub struct Found {
    pub refusal: u8,
    pub a: u8,
    pub b: u8,
    pub book: u8,
    pub start: usize,
    pub length: usize,
}

// What an evening of events came to: the run state after those taken, how many were taken, released and ignored, and the refusal that ended it, or 0.
#[repr(C)]
#[derive(Clone, Copy)]
pub struct Evening {
    pub refusal: u8,
    pub a: u8,
    pub b: u8,
    pub state: u8,
    pub held: usize,
    pub taken: usize,
    pub released: usize,
    pub ignored: usize,
}

// Why an event is answered as it is: the operation, the pair that is the ground for it, and the length of the way that meets the pair.
// A dump has no ground, and a halt has no way.
#[repr(C)]
#[derive(Clone, Copy)]
pub struct Reason {
    pub refusal: u8,
    pub a: u8,
    pub b: u8,
    pub operation: u8,
    pub pair: u8,
    pub length: usize,
}

// The three numbers that every answer begins with: 0 where it is not refused.
fn told<T: Copy>(answer: Result<T, Refusal>) -> Told
    ensures { result ≡ answer_told answer }
{
    match answer {
        Ok(_) => Told {
            number: 0,
            a: 0,
            b: 0,
        },
        Err(refusal) => refusal.told(),
    }
}

// What came of putting bytes.
impl From<Result<usize, Refusal>> for Made {
    ghost from_gives = { λ written made. made ≡ made_of written };

    fn from(written: Result<usize, Refusal>) -> Self {
        let told = told(written);
        Made {
            refusal: told.number,
            a: told.a,
            b: told.b,
            written: written.unwrap_or(0),
        }
    }
}

// Makes the sheet of a rule file at the front of `sheet`: the refusals 1 to 9, then 16.
pub fn pachallu_make(rule: &[u8], sheet: &mut [u8]) -> Made
    ensures { MakeForC rule.now sheet.old result sheet.new }
{
    Made::from(making::make(rule, sheet))
}

// Prints the monitor of a rule file, or its refusal, at the front of `text`: refusal 16 where it does not fit.
pub fn pachallu_print(rule: &[u8], text: &mut [u8]) -> Made
    ensures { PrintForC rule.now text.old result text.new }
{
    Made::from(printed::print(rule, text))
}

// Starts a run: refusal 11, and then state 0 with nothing held.
pub fn pachallu_fresh(sheet: &[u8]) -> Started
    ensures { FreshForC sheet.now result }
{
    let start = monitor::fresh(sheet);
    let told = told(start);
    let run = start.unwrap_or(Run::new(StateNo(0)));
    let state = run.state;
    Started {
        refusal: told.number,
        a: told.a,
        b: told.b,
        state: state.0,
        held: run.held,
    }
}

// Offers an event to a run: the refusals 11, 12 and 14 to 16. What was released stands at the front of `output`.
pub fn pachallu_event(
    sheet: &[u8],
    state: u8,
    held: usize,
    event: u8,
    memory: &mut [u8],
    output: &mut [u8],
) -> Answered
    ensures { EventForC sheet.now state held event memory.old output.old result memory.new output.new }
{
    let run = Run {
        state: StateNo(state),
        held,
    };
    let answer = monitor::event(sheet, run, EventNo(event), memory, output);
    let told = told(answer);
    let (operation, after, released) = match answer {
        Ok(Some(taken)) => (taken.operation.mark(), taken.run, taken.released),
        Ok(None) => (IGNORED, run, 0),
        Err(_) => (0, run, 0),
    };
    let next = after.state;
    Answered {
        refusal: told.number,
        a: told.a,
        b: told.b,
        operation,
        state: next.0,
        held: after.held,
        released,
    }
}

// Looks a rule up in the job's book and the office's: the refusals 17 and 18.
pub fn pachallu_find(job: &[u8], office: &[u8], number: u8, age: u16) -> Found
    ensures { FindForC job.now office.now number age result }
{
    let found = book::look(job, office, number, age);
    let told = told(found);
    let (book, start, length) = match found {
        Ok(Lookup::Job(start, length)) => (JOB, start, length),
        Ok(Lookup::Office(start, length)) => (OFFICE, start, length),
        Err(_) => (JOB, 0, 0),
    };
    Found {
        refusal: told.number,
        a: told.a,
        b: told.b,
        book,
        start,
        length,
    }
}

// Writes a book with one rule more to the front of `out`: the refusals 17, 1 to 9, 26, then 16.
pub fn pachallu_add(book: &[u8], number: u8, rule: &[u8], out: &mut [u8]) -> Made
    ensures { AddForC book.now number rule.now out.old result out.new }
{
    Made::from(book::add(book, number, rule, out))
}

// Offers up to 4,096 events to a run: the refusals 19, 11, 12, then 14 to 16. What was released stands at the front of `output`.
pub fn pachallu_events(
    sheet: &[u8],
    state: u8,
    held: usize,
    log: &[u8],
    memory: &mut [u8],
    output: &mut [u8],
) -> Evening
    ensures { EveningForC sheet.now state held log.now memory.old output.old
        result memory.new output.new }
{
    let run = Run {
        state: StateNo(state),
        held,
    };
    let evening = monitor::events(sheet, run, log, memory, output);
    let told = told(evening.verdict);
    let last = evening.run;
    let at = last.state;
    Evening {
        refusal: told.number,
        a: told.a,
        b: told.b,
        state: at.0,
        held: last.held,
        taken: evening.taken,
        released: evening.released,
        ignored: evening.ignored,
    }
}

// Tells why an event is answered as it is in a state: the refusals 1 to 9, then 12, 13 and 16. The way stands at the front of `way`.
pub fn pachallu_why(rule: &[u8], state: u8, event: u8, way: &mut [u8]) -> Reason
    ensures { WhyForC rule.now state event way.old result way.new }
{
    let ground = why::why(rule, StateNo(state), EventNo(event), way);
    let told = told(ground);
    let (operation, pair, length) = match ground {
        Ok(Ground::Halted(pair)) => (Operation::Halt.mark(), pair, 0),
        Ok(Ground::Held(pair, length)) => (Operation::Store.mark(), pair, length),
        Ok(Ground::Released) => (Operation::Dump.mark(), 0, 0),
        Err(_) => (0, 0, 0),
    };
    Reason {
        refusal: told.number,
        a: told.a,
        b: told.b,
        operation,
        pair,
        length,
    }
}
