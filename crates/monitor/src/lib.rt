// The monitor: a fresh start, one event (document 01, "What an operation does"; document 02, M-104), and an evening of events in one call (M-101).
#![tactic(auto)]

ghost use Rattle.std.specs.Prelude.{◌≡◌, Ok, Err, IfOk, MatchResult};
ghost use Rattle.monitor.specs.Evening.{EveningPromise, ready_of};
ghost use Rattle.monitor.specs.Event.{EventPromise};
ghost use Rattle.monitor.specs.Fresh.{start_of};

mod steps;

use crate::steps::Opened;
use effects::{Run, Taken};
use rule::{EventNo, Refusal};

// A fresh run starts at the sheet's initial state with nothing held: refusal 11.
#[tactic(auto, using(crate::proofs::FreshLaws::start_shut))]
pub fn fresh(sheet: &[u8]) -> Result<Run, Refusal>
    ensures { result ≡ start_of sheet.now }
{
    let Ok(head) = sheet::open(sheet) else {
        return Err(Refusal::Sheet);
    };
    Ok(Run::new(head.initial))
}

// One event: the refusals 11, 12 and 14 to 16 in order; after 12 an event of K or more is ignored. A refused sheet ends the call before the event
// is looked at. The buffers are lent one by one, as C hands them over: a struct of them would be made and taken apart in each call.
pub fn event(
    sheet: &[u8],
    run: Run,
    event: EventNo,
    memory: &mut [u8],
    output: &mut [u8],
) -> Result<Option<Taken>, Refusal>
    ensures { EventPromise sheet.now run event memory.old output.old result memory.new output.new }
{
    Opened::new(sheet)?.step(run, event, memory, output)
}

// What an evening comes to: the run after the events taken, how many were taken, released and ignored, and the refusal that ended it, if one did.
#[derive(Clone, Copy)]
pub struct Evening {
    pub run: Run,
    pub taken: usize,
    pub released: usize,
    pub ignored: usize,
    pub verdict: Result<(), Refusal>,
}

impl Evening {
    // Nothing taken, released or ignored so far.
    pub(crate) fn new(run: Run, verdict: Result<(), Refusal>) -> Self
        ensures { result ≡ record { run = run; taken = 0; released = 0; ignored = 0; verdict = verdict } }
    {
        Self {
            run,
            taken: 0,
            released: 0,
            ignored: 0,
            verdict,
        }
    }
}

// The sheet, opened, where an evening may begin: the refusals 19, 11 and 12 in order.
fn ready<'a>(sheet: &'a [u8], run: Run, log: &[u8], room: usize) -> Result<Opened<'a>, Refusal>
    ensures sheet { IfOk result (λ o. o.sheet.now ≡ sheet.now) }
    ensures verdict { MatchResult result (λ o. ready_of sheet.now run log.now room ≡ Ok tt) (λ x. ready_of sheet.now run log.now room ≡ Err x) }
{
    if 4096 < log.len() {
        return Err(Refusal::Log);
    }
    let opened = Opened::new(sheet)?;
    if opened.unfit(run, room) {
        return Err(Refusal::Run);
    }
    Ok(opened)
}

// An evening: up to 4,096 events, each release put into the output right after the one before. It ends at the first refusal and keeps what
// came before it; a halt or an ignored event does not end it. 19 comes first, and counts all events of the log; then 11 and 12, which an empty log gives
// too; then those of each event.
pub fn events(sheet: &[u8], run: Run, log: &[u8], memory: &mut [u8], output: &mut [u8]) -> Evening
    ensures { EveningPromise sheet.now run log.now memory.old output.old
        result memory.new output.new }
{
    match ready(sheet, run, log, memory.len()) {
        Ok(opened) => opened.each(run, log, memory, output),
        Err(refusal) => Evening::new(run, Err(refusal)),
    }
}
