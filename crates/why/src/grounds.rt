// The ground of the operation of a move into a state.
ghost use Rattle.std.specs.Prelude.{◌≡◌, ℕ, ◌≤◌, ◌<◌, length, get_or, Ok};
ghost use Rattle.rule.specs.Acceptance.{meets_pair};
ghost use Rattle.rule.specs.Drawing.{drawing_of};
ghost use Rattle.rule.specs.Operations.{operation_at};
ghost use Rattle.rule.specs.WellDrawn.{WellDrawn};
ghost use Rattle.rule.specs.declared.Operation.TheVariants.{Store};
ghost use Rattle.why.specs.Grounds.{lost_among, unmet_among, wanted_pair, goal_set};
ghost use Rattle.why.specs.Steps.{operation_by};
ghost use Rattle.why.specs.Why.{GroundPromise};

use crate::{Ground, ways};
use operations::{good_states, operation, stops, value};
use reach::Moves;
use reach::sets::contains;
use rule::{Body, Operation, Pair, Refusal, Rule, StateNo};

// Whether a pair is met.
fn met(pair: Pair, t: StateNo) -> bool
    ensures { result ≡ meets_pair pair t.0 }
{
    contains(pair.r, t) | contains(pair.p, t)
}

// A state t of an accepted rule whose pairs are all used: what an answer is judged at. No public type: what is asked for here no caller from outside can show.
#[derive(Clone, Copy)]
pub(crate) struct Judged<'a> {
    pub(crate) body: Body<'a>,
    pub(crate) t: StateNo,
    ghost well: { WellDrawn (drawing_of body) },
    ghost within: { t.0 < body.shape.states },
    ghost closed: { (i : ℕ) → get_or body.table.now i 0 < body.shape.states },
    ghost used: { length body.pairs.now ≡ body.shape.pairs },
    ghost few: { body.shape.pairs ≤ 8 },
}

impl<'a> Judged<'a> {
    // The lowest pair by which t, which reaches the set `reached`, is stopping, or m: in joint mode m is an answer, and no Option.
    fn lost(self, reached: u64) -> u8
        ensures { result ≡ lost_among self.entry.body.pairs.now self.entry.body.shape.pairs reached self.entry.t.0 }
    {
        let body = self.body;
        let t = self.t;
        match body.pairs.iter().position(|pair| stops(*pair, reached, t)) {
            Some(i) => i as u8,
            None => body.shape.pairs,
        }
    }

    // The lowest pair that is not met, or m.
    fn unmet(self) -> u8
        ensures { result ≡ unmet_among self.entry.body.pairs.now self.entry.body.shape.pairs self.entry.t.0 }
    {
        let body = self.body;
        let t = self.t;
        match body.pairs.iter().position(|pair| !met(*pair, t)) {
            Some(at) => at as u8,
            None => body.shape.pairs,
        }
    }

    // What a store waits for: the lowest pair not yet met, and in joint mode all pairs, which are named `m`.
    fn wanted(self) -> u8
        ensures { result ≡ wanted_pair (drawing_of self.entry.body) self.entry.t.0 }
    {
        let shape = self.body.shape;
        if shape.mode == Rule::JOINT {
            return shape.pairs;
        }
        self.unmet()
    }

    // The states where it is met.
    fn goal_set(self, i: u8) -> u64
        requires { (self.body.shape.mode ≡ 1 → ⊥) → i < self.body.shape.pairs }
        ensures { result ≡ goal_set (drawing_of self.entry.body) i }
    {
        let body = self.body;
        if body.shape.mode == Rule::JOINT {
            return good_states(body.pairs);
        }
        let pair = body.pairs[i as usize];
        pair.r | pair.p
    }

    // Held: what is waited for, and the way that meets it, put to the front of the output.
    fn held(self, out: &mut [u8]) -> Result<Ground, Refusal>
        requires { operation_at (drawing_of self.body) self.t.0 ≡ Store }
        ensures { GroundPromise (Ok tt) (drawing_of self.entry.body) self.entry.t.0 out.old result out.new }
    {
        let i = self.wanted();
        let goal = self.goal_set(i);
        let n = ways::put(out, Moves::of(self.body), goal, self.t)?;
        Ok(Ground::Held(i, n))
    }

    // The operation of a move into t, which reaches the set `reached`. In joint mode all pairs together are one.
    fn operation(self, reached: u64) -> Operation
        ensures { result ≡ operation_by self.entry.body.shape self.entry.body.pairs.now reached self.entry.t.0 }
    {
        let body = self.body;
        if body.shape.mode == Rule::JOINT {
            let all = Pair {
                r: good_states(body.pairs),
                p: 0,
            };
            return value(all, reached, self.t);
        }
        operation(body.pairs, reached, self.t)
    }

    // The operation of a move into t, and its ground.
    pub(crate) fn ground(self, out: &mut [u8]) -> Result<Ground, Refusal>
        ensures { GroundPromise (Ok tt) (drawing_of self.entry.body) self.entry.t.0 out.old result out.new }
    {
        let reach = Moves::of(self.body).reached(self.t);
        match self.operation(reach) {
            Operation::Halt => Ok(Ground::Halted(self.lost(reach))),
            Operation::Store => self.held(out),
            Operation::Dump => Ok(Ground::Released),
        }
    }
}
