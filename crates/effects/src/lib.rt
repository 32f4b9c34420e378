// What an operation does: to the run state, to the memory and to the output (document 01, "What an operation does").
#![tactic(auto)]

ghost use Rattle.std.specs.Prelude.{◌≡◌};
ghost use Rattle.rule.specs.declared.Operation.TheVariants.{Halt};
ghost use Rattle.effects.specs.Effects.{fresh_run, taken_by, StorePromise, DumpPromise};

use rule::{EventNo, Operation, Refusal, StateNo};

// Where a run stands: its state, and how many events the memory holds from its front.
#[derive(Clone, Copy)]
pub struct Run {
    pub state: StateNo,
    pub held: usize,
}

// A move: its operation, and the state that it leads to. An event comes to `Ok(Some(move))` before the buffers are touched, or to `Ok(None)` where it is
// not the rule's business.
#[derive(Clone, Copy)]
pub struct Move {
    pub operation: Operation,
    pub next: StateNo,
}

// An event that was taken: its operation, the run after it, and how many bytes it released. An event is answered `Ok(Some(taken))`; `Ok(None)` where it
// was ignored, and there as where it was refused nothing changed.
#[derive(Clone, Copy)]
pub struct Taken {
    pub operation: Operation,
    pub run: Run,
    pub released: usize,
}

impl Run {
    // A run at a state, with nothing held.
    pub fn new(initial: StateNo) -> Self
        ensures { result ≡ fresh_run initial }
    {
        Self {
            state: initial,
            held: 0,
        }
    }
}

// Halt: nothing is released and the event is not held; the events already held stay held.
pub fn halt(next: StateNo, run: Run) -> Taken
    ensures { result ≡ taken_by Halt next run.held }
{
    Taken {
        operation: Operation::Halt,
        run: Run {
            state: next,
            held: run.held,
        },
        released: 0,
    }
}

// Store: the event joins the held ones, if the memory has a place for it.
pub fn store(next: StateNo, run: Run, event: EventNo, memory: &mut [u8]) -> Result<Taken, Refusal>
    ensures { StorePromise next run event memory.old result memory.new }
{
    let held = run.held;
    if memory.len() <= held {
        return Err(Refusal::Memory);
    }
    memory[held] = event.0;
    Ok(Taken {
        operation: Operation::Store,
        run: Run {
            state: next,
            held: held + 1,
        },
        released: 0,
    })
}

// Dump: the held events and then this one are released, if the output has a place for all of them.
pub fn dump(next: StateNo, held: &[u8], event: EventNo, output: &mut [u8]) -> Result<Taken, Refusal>
    ensures { DumpPromise next held.now event output.old result output.new }
{
    let count = held.len();
    if output.len() <= count {
        return Err(Refusal::Room);
    }
    octets::copy(held, output);
    output[count] = event.0;
    Ok(Taken {
        operation: Operation::Dump,
        run: Run::new(next),
        released: count + 1,
    })
}
