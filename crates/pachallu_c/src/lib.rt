// What C calls: each call of the crate pachallu, exported under its name with the same clauses. include/pachallu.h declares them.
// A crate is a library or a static library, and this one is built as a static library.
#![tactic(auto)]

ghost use Rattle.pachallu.specs.Told.{MakeForC, PrintForC, FindForC, AddForC, FreshForC, EventForC, EveningForC, WhyForC};

use pachallu::{Answered, Evening, Found, Made, Reason, Started};

// Makes the sheet of a rule file at the front of `sheet`: the refusals 1 to 9, then 16.
#[unsafe(no_mangle)]
pub extern "C" fn pachallu_make(rule: &[u8], sheet: &mut [u8]) -> Made
    ensures { MakeForC rule.now sheet.old result sheet.new }
{
    pachallu::pachallu_make(rule, sheet)
}

// Prints the monitor of a rule file, or its refusal, at the front of `text`: refusal 16 where it does not fit.
#[unsafe(no_mangle)]
pub extern "C" fn pachallu_print(rule: &[u8], text: &mut [u8]) -> Made
    ensures { PrintForC rule.now text.old result text.new }
{
    pachallu::pachallu_print(rule, text)
}

// Starts a run: refusal 11, and then state 0 with nothing held.
#[unsafe(no_mangle)]
pub extern "C" fn pachallu_fresh(sheet: &[u8]) -> Started
    ensures { FreshForC sheet.now result }
{
    pachallu::pachallu_fresh(sheet)
}

// Offers an event to a run: the refusals 11, 12 and 14 to 16. What was released stands at the front of `output`.
#[unsafe(no_mangle)]
pub extern "C" fn pachallu_event(
    sheet: &[u8],
    state: u8,
    held: usize,
    event: u8,
    memory: &mut [u8],
    output: &mut [u8],
) -> Answered
    ensures { EventForC sheet.now state held event memory.old output.old result memory.new output.new }
{
    pachallu::pachallu_event(sheet, state, held, event, memory, output)
}

// Looks a rule up in the job's book and the office's: the refusals 17 and 18.
#[unsafe(no_mangle)]
pub extern "C" fn pachallu_find(job: &[u8], office: &[u8], number: u8, age: u16) -> Found
    ensures { FindForC job.now office.now number age result }
{
    pachallu::pachallu_find(job, office, number, age)
}

// Writes a book with one rule more to the front of `out`: the refusals 17, 1 to 9, 26, then 16.
#[unsafe(no_mangle)]
pub extern "C" fn pachallu_add(book: &[u8], number: u8, rule: &[u8], out: &mut [u8]) -> Made
    ensures { AddForC book.now number rule.now out.old result out.new }
{
    pachallu::pachallu_add(book, number, rule, out)
}

// Offers up to 4,096 events to a run: the refusals 19, 11, 12, then 14 to 16. What was released stands at the front of `output`.
#[unsafe(no_mangle)]
pub extern "C" fn pachallu_events(
    sheet: &[u8],
    state: u8,
    held: usize,
    log: &[u8],
    memory: &mut [u8],
    output: &mut [u8],
) -> Evening
    ensures { EveningForC sheet.now state held log.now memory.old output.old
        result memory.new output.new }
{
    pachallu::pachallu_events(sheet, state, held, log, memory, output)
}

// Tells why an event is answered as it is in a state: the refusals 1 to 9, then 12, 13 and 16. The way stands at the front of `way`.
#[unsafe(no_mangle)]
pub extern "C" fn pachallu_why(rule: &[u8], state: u8, event: u8, way: &mut [u8]) -> Reason
    ensures { WhyForC rule.now state event way.old result way.new }
{
    pachallu::pachallu_why(rule, state, event, way)
}
