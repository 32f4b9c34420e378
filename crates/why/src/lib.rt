// Why an event is answered as it is: the operation and the ground for it, judged at the state after the event (request M-102).
#![tactic(auto)]

ghost use Rattle.why.specs.Why.{WhyPromise};

mod grounds;
mod ways;

use crate::grounds::Judged;
use reach::Moves;
use rule::{Body, EventNo, Refusal, StateNo};

// The operation with its ground. Halted: the lowest pair that no further events can meet. Held: the lowest pair not yet met, and the
// number of events of the shortest way that meets it, which stands at the front of the output. Released: no ground is needed.
#[derive(Clone, Copy)]
pub enum Ground {
    Halted(u8),
    Held(u8, usize),
    Released,
}

// Why the event is answered as it is in the state: the refusals 1 to 9 of the rule, then 12, 13 and 16.
pub fn why(file: &[u8], state: StateNo, event: EventNo, out: &mut [u8]) -> Result<Ground, Refusal>
    ensures { WhyPromise file.now state.0 event.0 out.old result out.new }
{
    let parts = rulefile::parts(file)?;
    let shape = parts.shape;
    if shape.states <= state.0 {
        return Err(Refusal::Run);
    }
    if shape.events <= event.0 {
        return Err(Refusal::Code);
    }
    let body = Body {
        shape,
        table: &file[parts.start..parts.end],
        pairs: &parts.pairs[..shape.pairs as usize],
    };
    let t = Moves::of(body).next(state, event);
    Judged { body, t }.ground(out)
}
