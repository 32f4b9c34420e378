// Events on an opened sheet: what a cell says, its operation carried out, and many of them one after another.
ghost use Rattle.std.specs.Prelude.{◌≡◌, Ok};
ghost use Rattle.sheet.specs.Opening.{opened_of};
ghost use Rattle.monitor.specs.Event.{cell_turn};

use crate::Evening;
use effects::{Move, Run, Taken, dump, halt, store};
use rule::{EventNo, Operation, Refusal, StateNo, place};
use sheet::Head;

// A sheet that opened, with what it says of itself.
#[derive(Clone, Copy)]
pub(crate) struct Opened<'a> {
    sheet: &'a [u8],
    head: Head,
    ghost opened: { Ok head ≡ opened_of sheet.now },
}

// What a cell says: refusal 14, or a move.
#[tactic(auto, unfolding(crate::specs::Event::cell_turn))]
fn read(cell: u8, states: u8, run: Run, event: EventNo) -> Result<Option<Move>, Refusal>
    ensures { result ≡ cell_turn cell states run event }
{
    let next = StateNo(cell % 64);
    match Operation::try_from(cell / 64) {
        Ok(operation) if next.0 < states => Ok(Some(Move { operation, next })),
        _ => Err(Refusal::Cell(run.state, event)),
    }
}

impl<'a> Opened<'a> {
    ghost use Rattle.std.specs.Prelude.{◌≤◌, Err, IfOk, OnSome, IfSome, MatchResult, length};
    ghost use Rattle.monitor.specs.Event.{look_of, StepPromise, unfit};
    ghost use Rattle.monitor.specs.Evening.{calls_of, Reports};

    // The sheet, opened: refusal 11.
    #[tactic(auto, using(crate::proofs::FreshLaws::sheet_shut))]
    pub(crate) fn new(sheet: &'a [u8]) -> Result<Self, Refusal>
        ensures { MatchResult result (λ o. o.sheet.now ≡ sheet.now) (λ x. Err x ≡ opened_of sheet.now) }
    {
        let Ok(head) = sheet::open(sheet) else {
            return Err(Refusal::Sheet);
        };
        Ok(Self { sheet, head })
    }

    // Whether 12 refuses the run. Its two tests are joined by `|`: one branch for both.
    pub(crate) fn unfit(self, run: Run, room: usize) -> bool
        ensures { result ≡ unfit self.entry.head run room }
    {
        (self.head.states <= run.state.0) | (room < run.held)
    }

    // What the sheet says at the run's state and the event: refusal 12; ignored, from K on; then what the cell says. `room` is the memory's length.
    #[tactic(auto, using(sheet::proofs::OpeningLaws::place_inside), unfolding(crate::specs::Event::look_of))]
    fn look(self, run: Run, event: EventNo, room: usize) -> Result<Option<Move>, Refusal>
        ensures turn { result ≡ look_of self.entry.head self.entry.sheet.now run event room }
        ensures held { IfOk result (λ o. OnSome o (run.held ≤ room)) }
    {
        if self.unfit(run, room) {
            return Err(Refusal::Run);
        }
        if self.head.events <= event.0 {
            return Ok(None);
        }
        let at = place(self.head.events, run.state, event);
        read(self.sheet[at], self.head.states, run, event)
    }

    // One event on an opened sheet.
    pub(crate) fn step(
        self,
        run: Run,
        event: EventNo,
        memory: &mut [u8],
        output: &mut [u8],
    ) -> Result<Option<Taken>, Refusal>
        ensures turn { StepPromise self.entry.head self.entry.sheet.now run event memory.old output.old result memory.new output.new }
        ensures fits { IfOk result (λ o. IfSome o (λ t. t.released ≤ length output.new)) }
    {
        let Some(Move { operation, next }) = self.look(run, event, memory.len())? else {
            return Ok(None);
        };
        let taken = match operation {
            Operation::Halt => halt(next, run),
            Operation::Store => store(next, run, event, memory)?,
            Operation::Dump => dump(next, &memory[..run.held], event, output)?,
        };
        Ok(Some(taken))
    }

    // The events of a log, one after another, each given the unwritten rest of the output, up to the first refusal. Of the events passed those that were
    // not ignored were taken: a taken one costs no count of its own.
    pub(crate) fn each(self, run: Run, log: &[u8], memory: &mut [u8], output: &mut [u8]) -> Evening
        ensures { Reports (calls_of self.entry.sheet.now run log.now memory.old output.old)
            result memory.new output.new }
    {
        let mut evening = Evening::new(run, Ok(()));
        for (passed, &code) in log.iter().enumerate() {
            match self.step(
                evening.run,
                EventNo(code),
                memory,
                &mut output[evening.released..],
            ) {
                Ok(Some(taken)) => {
                    evening.run = taken.run;
                    evening.released += taken.released;
                }
                Ok(None) => evening.ignored += 1,
                Err(refusal) => {
                    return Evening {
                        taken: passed - evening.ignored,
                        verdict: Err(refusal),
                        ..evening
                    };
                }
            }
        }
        Evening {
            taken: log.len() - evening.ignored,
            ..evening
        }
    }
}
