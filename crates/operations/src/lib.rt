// The operation of a move, by its target, and the stopping states.
#![tactic(auto)]

ghost use Rattle.std.specs.Prelude.{◌≡◌};
ghost use Rattle.rule.specs.Backward.{lost_by, lost_by_some};
ghost use Rattle.rule.specs.Drawing.{drawing_of};
ghost use Rattle.rule.specs.Operations.{value_of, smallest_of};
ghost use Rattle.rule.specs.Reach.{target};
ghost use Rattle.rule.specs.Acceptance.{meets_all};
ghost use Rattle.rule.specs.Sets.{those};
ghost use Rattle.rule.specs.Stopping.{stops_by};
ghost use Rattle.operations.specs.Marks.{operation_in, marks_of};

use reach::Moves;
use reach::sets::contains;
use rule::{Body, Operation, Pair, Rule, StateNo};

// A pair's value at a target that reaches the set `reached`.
#[tactic(auto, using(rule::proofs::SetLaws::and_none, rule::proofs::SetLaws::and_some), unfolding(rule::specs::Operations::value_of))]
pub fn value(pair: Pair, reached: u64, target: StateNo) -> Operation
    ensures { result ≡ value_of pair reached target.0 }
{
    if contains(pair.p, target) {
        return Operation::Dump;
    }
    if contains(pair.r, target) {
        return Operation::Dump;
    }
    if reached & pair.r == 0 {
        return Operation::Halt;
    }
    Operation::Store
}

// The smallest value of the pairs at a target that reaches the set `reached`.
pub fn operation(pairs: &[Pair], reached: u64, target: StateNo) -> Operation
    ensures { result ≡ smallest_of pairs.now reached target.0 }
{
    pairs.iter().fold(
        Operation::Dump,
        |least, pair| least.min(value(*pair, reached, target)),
    )
}

// The states that every pair accepts, and those where a move halts.
#[derive(Clone, Copy)]
pub struct Marks {
    pub good: u64,
    pub halt: u64,
}

impl Marks {
    // The operation of a move into t.
    #[tactic(auto, unfolding(crate::specs::Marks::operation_in))]
    pub fn at(self, t: StateNo) -> Operation
        ensures { result ≡ operation_in self t.0 }
    {
        if contains(self.good, t) {
            return Operation::Dump;
        }
        if contains(self.halt, t) {
            return Operation::Halt;
        }
        Operation::Store
    }
}

// The states outside P from which no events lead into R.
#[tactic(auto, using(crate::proofs::MarkLaws::outside))]
fn lost_by(moves: Moves, pair: Pair) -> u64
    ensures { result ≡ those (lost_by (target moves.entry.table.now moves.entry.events) moves.entry.states moves.entry.events pair) 64 }
{
    !(pair.p | moves.backward(pair.r))
}

// The states that the pairs accept, all of them.
#[tactic(auto, using(crate::proofs::MarkLaws::good_all))]
pub fn good_states(pairs: &[Pair]) -> u64
    ensures { result ≡ those (meets_all pairs.now) 64 }
{
    pairs
        .iter()
        .fold(u64::MAX, |good, pair| good & (pair.r | pair.p))
}

// The states that are lost by one of the pairs: from each R one backward reach at a time.
#[tactic(auto, using(crate::proofs::MarkLaws::halt_all))]
fn lost_states(moves: Moves, pairs: &[Pair]) -> u64
    ensures { result ≡ those (lost_by_some (target moves.entry.table.now moves.entry.events) moves.entry.states moves.entry.events pairs.now) 64 }
{
    pairs
        .iter()
        .fold(0, |halt, pair| halt | lost_by(moves, *pair))
}

// What a move into each state of a rule does. In joint mode there is one backward reach, from the states that every pair accepts.
pub fn mark_states(body: Body) -> Marks
    ensures { result ≡ marks_of (drawing_of body.entry) }
{
    let used = (body.shape.pairs as usize).min(body.pairs.len());
    let pairs = &body.pairs[..used];
    let moves = Moves::of(body);
    let good = good_states(pairs);
    if body.shape.mode == Rule::JOINT {
        let back = moves.backward(good);
        return Marks { good, halt: !back };
    }
    let halt = lost_states(moves, pairs);
    Marks { good, halt }
}

// Whether a state that reaches the set `reached` is stopping by a pair.
#[tactic(auto, using(rule::proofs::SetLaws::and_none, rule::proofs::SetLaws::and_some), unfolding(rule::specs::Stopping::stops_by))]
pub fn stops(pair: Pair, reached: u64, q: StateNo) -> bool
    ensures { result ≡ stops_by pair reached q.0 }
{
    if contains(pair.p, q) {
        return false;
    }
    reached & pair.r == 0
}
