// The states to which a rule's class forbids a move.
ghost use Rattle.rule.specs.Classes.{forbids, forbids_some, moves_into, moves_out};
ghost use Rattle.rule.specs.Sets.{Members};

use reach::sets::contains;
use rule::{Pair, StateNo};

// The states to which a move from s is one from outside P into P: all of P, where s is outside.
#[tactic(auto, using(crate::proofs::CheckLaws::sets), unfolding(rule::specs::Classes::moves_into))]
fn entering(pair: Pair, s: StateNo) -> u64
    ensures { Members result (moves_into pair s.0) }
{
    if contains(pair.p, s) { 0 } else { pair.p }
}

// The states to which a move from s is one from R out of R: all outside R, where s is in it.
#[tactic(auto, using(crate::proofs::CheckLaws::sets), unfolding(rule::specs::Classes::moves_out))]
fn leaving(pair: Pair, s: StateNo) -> u64
    ensures { Members result (moves_out pair s.0) }
{
    if contains(pair.r, s) { !pair.r } else { 0 }
}

// The states to which the class forbids a move from s for a pair. Any other class than these forbids none.
#[tactic(auto, using(crate::proofs::CheckLaws::sets, crate::proofs::CheckLaws::tests), unfolding(rule::specs::Classes::forbids))]
fn banned_by(class: u8, pair: Pair, s: StateNo) -> u64
    ensures { Members result (forbids class pair s.0) }
{
    match class {
        1 => entering(pair, s),
        2 => leaving(pair, s),
        3 => entering(pair, s) | leaving(pair, s),
        _ => 0,
    }
}

// The states to which it does for one of some pairs.
#[tactic(auto, using(crate::proofs::CheckLaws::some_more, crate::proofs::CheckLaws::sets), unfolding(rule::specs::Classes::forbids_some))]
pub(crate) fn banned(class: u8, pairs: &[Pair], s: StateNo) -> u64
    ensures { Members result (forbids_some class pairs.now s.0) }
{
    let mut set = 0;
    for pair in pairs {
        set |= banned_by(class, *pair, s);
    }
    set
}
