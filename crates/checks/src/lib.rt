// The checks 5 to 9, once for reading, for writing and for making a sheet: of a rule that is lent without its note.
// Each answers the first refusal that it finds.
#![tactic(auto)]

ghost use Rattle.std.specs.Prelude.{◌≡◌, ℕ, not, ◌&&◌, ◌≤◌, ◌<◌, nat_lt, take, drop};
ghost use Rattle.std.specs.List.{list_all};
ghost use Rattle.rule.specs.Classes.{forbids_some};
ghost use Rattle.rule.specs.Drawing.{drawing_of, joint, pair_at, initial, states, events};
ghost use Rattle.rule.specs.Reach.{Closed};
ghost use Rattle.rule.specs.Refusals.{refuse_if, first_of, conditions};
ghost use Rattle.rule.specs.Refusals as paper;
ghost use Rattle.rule.specs.Sets.{Members, names_past};
ghost use Rattle.rule.specs.Stopping.{stopping_joint};
ghost use Rattle.rule.specs.declared.StateNo.{StateNo};
ghost use Rattle.rule.specs.declared.Refusal.TheVariants.{Range};
ghost use Rattle.checks.specs.Checked.{holds, first_forbidden, checked_of};

mod classes;

use crate::classes::banned;
use operations::{good_states, stops};
use reach::Moves;
use reach::sets::contains;
use rule::{Body, EventNo, Pair, Refusal, Rule, Shape, StateNo};

// 3: more states or pairs than can be held here, or no pair. No test costs a branch.
fn check_range(shape: Shape) -> Result<(), Refusal>
    ensures { result ≡ refuse_if (not (holds shape)) Range }
{
    let pairs_held = (1 <= shape.pairs) & (shape.pairs <= Rule::PAIRS);
    if (shape.states <= Rule::STATES) & pairs_held {
        return Ok(());
    }
    Err(Refusal::Range)
}

// Whether every entry of the table is below n. It goes on past one that is not, so that no entry costs a branch.
#[tactic(auto, using(std::proofs::lemmas::List::Folds::list_all_more))]
fn all_below(table: &[u8], n: u8) -> bool
    ensures { result ≡ list_all (λ x. nat_lt x n) table.now }
{
    let mut all = true;
    for entry in table {
        all &= *entry < n;
    }
    all
}

// The checks 5, 6, 8 and 9 have frames of their own: what one has on the stack is gone before the next.
// 5: the first entry in row order that names no state. Where there is none, one look at the whole table says so.
#[inline(never)]
#[tactic(auto, using(crate::proofs::CheckLaws::cells), unfolding(rule::specs::Refusals::entries))]
pub fn check_entries(body: Body) -> Result<(), Refusal>
    ensures { result ≡ paper.entries (drawing_of body.entry) }
{
    let states = body.shape.states;
    let events = body.shape.events;
    if all_below(body.table, states) {
        return Ok(());
    }
    let moves = Moves::of(body);
    let mut verdict = Ok(());
    'cells: for s in 0..states {
        let state = StateNo(s);
        for e in 0..events {
            let event = EventNo(e);
            if states <= moves.next(state, event).0 {
                verdict = Err(Refusal::Entry(state, event));
                break 'cells;
            }
        }
    }
    verdict
}

// The used pairs, or as many of them as there are.
fn used(body: Body<'_>) -> &[Pair]
    ensures { result.now ≡ (drawing_of body.entry).pairs }
{
    &body.pairs[..body.pairs.len().min(body.shape.pairs as usize)]
}

// Pair i of the used ones, and past them the empty pair.
fn pair_at(body: Body, i: u8) -> Pair
    ensures { result ≡ pair_at (drawing_of body.entry) i }
{
    used(body)
        .get(i as usize)
        .copied()
        .unwrap_or(Pair { r: 0, p: 0 })
}

// Whether a set names a state that is `states` or more.
#[tactic(auto, using(crate::proofs::CheckLaws::names_far), unfolding(rule::specs::Sets::names_past, rule::specs::Sets::is_empty))]
fn names_past(states: u8, set: u64) -> bool
    ensures { result ≡ names_past states set }
{
    states < Rule::STATES && set >> states != 0
}

// 6: the lowest used pair that names no state, and which of its two sets does. The loop goes over numbers, since a number is told.
#[inline(never)]
#[tactic(auto, using(crate::proofs::CheckLaws::steps), unfolding(rule::specs::Refusals::members))]
pub fn check_members(body: Body) -> Result<(), Refusal>
    ensures { result ≡ paper.members (drawing_of body.entry) }
{
    for i in 0..body.shape.pairs {
        let pair = pair_at(body, i);
        if names_past(body.shape.states, pair.r) {
            return Err(Refusal::Member(i, 0));
        }
        if names_past(body.shape.states, pair.p) {
            return Err(Refusal::Member(i, 1));
        }
    }
    Ok(())
}

// 7: R in class 1, P in class 2 and in class 4.
#[tactic(auto, using(crate::proofs::CheckLaws::tests), unfolding(rule::specs::Refusals::excess, rule::specs::Refusals::exceeds, rule::specs::Sets::is_empty))]
pub fn check_excess(body: Body) -> Result<(), Refusal>
    ensures { result ≡ paper.excess (drawing_of body.entry) }
{
    let pair = pair_at(body, 0);
    let excess = match body.shape.class {
        1 => pair.r,
        2 | 4 => pair.p,
        _ => 0,
    };
    if excess != 0 {
        return Err(Refusal::Excess);
    }
    Ok(())
}

// Whether the class forbids the move from s to t for a pair. The class is a number, as in `Shape`: any other than these forbids nothing.
#[tactic(auto, using(crate::proofs::CheckLaws::tests, crate::proofs::CheckLaws::forbids_is))]
fn forbids(class: u8, pair: Pair, s: StateNo, t: StateNo) -> bool
    ensures { result ≡ Rattle.rule.specs.Classes.forbids class pair s.0 t.0 }
{
    let into = !contains(pair.p, s) & contains(pair.p, t);
    let out = contains(pair.r, s) & !contains(pair.r, t);
    match class {
        1 => into,
        2 => out,
        3 => into | out,
        _ => false,
    }
}

// Whether it does for one of the used pairs.
fn forbids_some(body: Body, s: StateNo, t: StateNo) -> bool
    ensures { result ≡ forbids_some body.entry.shape.class (drawing_of body.entry).pairs s.0 t.0 }
{
    used(body)
        .iter()
        .any(|pair| forbids(body.shape.class, *pair, s, t))
}

// The same, where the set of what is forbidden from s is made: only a target that no set can hold is asked for by itself.
fn is_forbidden(body: Body, set: u64, s: StateNo, t: StateNo) -> bool
    requires { Members set (forbids_some body.shape.class (drawing_of body).pairs s.0) }
    ensures { result ≡ forbids_some body.entry.shape.class (drawing_of body.entry).pairs s.0 t.0 }
{
    if t.0 < Rule::STATES {
        contains(set, t)
    } else {
        forbids_some(body, s, t)
    }
}

// 8: the first move in row order that the class forbids. Class 4 forbids none. What is forbidden from a state is a set, made once for its row.
#[tactic(auto, using(crate::proofs::CheckLaws::cells, crate::proofs::CheckLaws::move_hit), unfolding(rule::specs::Refusals::moves))]
pub fn check_moves(body: Body) -> Result<(), Refusal>
    ensures { result ≡ paper.moves (drawing_of body.entry) }
{
    if body.shape.class == 4 {
        return Ok(());
    }
    let moves = Moves::of(body);
    let mut verdict = Ok(());
    'rows: for s in 0..body.shape.states {
        let from = StateNo(s);
        let set = banned(body.shape.class, used(body), from);
        for e in 0..body.shape.events {
            let code = EventNo(e);
            if is_forbidden(body, set, from, moves.next(from, code)) {
                verdict = Err(Refusal::Move(from, code));
                break 'rows;
            }
        }
    }
    verdict
}

// The lowest event of a row whose move the class forbids, or K, as `event_into` has it, where sets can hold the row's targets.
fn first_forbidden_closed(body: Body, s: StateNo) -> u8
    requires held { body.shape.states ≤ 64 }
    requires closed { Closed body.table.now body.shape.states body.shape.events }
    requires known { s.0 < body.shape.states }
    ensures { result ≡ first_forbidden (drawing_of body.entry) s.0 }
{
    Moves::of(body).event_into(s, banned(body.shape.class, used(body), s))
}

// 8 of a table whose entries are states that sets can hold.
#[inline(never)]
#[tactic(auto, using(rule::proofs::RefusalLaws::cells_none), unfolding(rule::specs::Refusals::moves))]
fn check_closed_moves(body: Body) -> Result<(), Refusal>
    requires held { body.shape.states ≤ 64 }
    requires closed { Closed body.table.now body.shape.states body.shape.events }
    ensures { result ≡ paper.moves (drawing_of body.entry) }
{
    if body.shape.class == 4 {
        return Ok(());
    }
    for s in 0..body.shape.states {
        let from = StateNo(s);
        let e = first_forbidden_closed(body, from);
        if e < body.shape.events {
            return Err(Refusal::Move(from, EventNo(e)));
        }
    }
    Ok(())
}

// The lowest used pair by which the initial state is stopping on its own. A pair past those that are lent is empty, and counts too.
#[tactic(auto, using(crate::proofs::CheckLaws::steps), unfolding(rule::specs::Refusals::stopped_pairs, rule::specs::Operations::reach_of))]
fn check_alone(body: Body) -> Result<(), Refusal>
    ensures { result ≡ paper.stopped_pairs (drawing_of body.entry) }
{
    let reach = Moves::of(body).reached(body.shape.initial);
    for i in 0..body.shape.pairs {
        if stops(pair_at(body, i), reach, body.shape.initial) {
            return Err(Refusal::Stopping(i));
        }
    }
    Ok(())
}

// Whether the mode is joint and the initial state reaches a state that every pair accepts.
#[tactic(auto, using(crate::proofs::CheckLaws::hope))]
fn has_hope(body: Body) -> bool
    ensures { let d = drawing_of body.entry in result ≡ (joint d && not (stopping_joint d (initial d))) }
{
    body.shape.mode == Rule::JOINT
        && Moves::of(body).reached(body.shape.initial) & good_states(used(body)) != 0
}

// 9: the initial state is stopping, by the mode. The pair that is at fault on its own, or m where none is and the mode is joint.
#[inline(never)]
#[tactic(auto, using(crate::proofs::CheckLaws::tests), unfolding(rule::specs::Refusals::stopped, rule::specs::Refusals::stopped_joint))]
pub fn check_stopped(body: Body) -> Result<(), Refusal>
    ensures { result ≡ paper.stopped (drawing_of body.entry) }
{
    if has_hope(body) {
        return Ok(());
    }
    check_alone(body)?;
    if body.shape.mode == Rule::JOINT {
        return Err(Refusal::Stopping(body.shape.pairs));
    }
    Ok(())
}

// 3 of a shape that cannot be held here, and then the checks 5 to 9 in order.
#[tactic(auto, using(crate::proofs::CheckLaws::chain), unfolding(crate::specs::Checked::checked_of, rule::specs::Refusals::first_of))]
pub fn check_body(body: Body) -> Result<(), Refusal>
    ensures { result ≡ checked_of (drawing_of body.entry) }
{
    check_range(body.shape)?;
    check_entries(body)?;
    check_members(body)?;
    check_excess(body)?;
    check_closed_moves(body)?;
    check_stopped(body)
}
