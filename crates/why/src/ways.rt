// The shortest way into a set of states, the lowest in event order among equals: backwards from the set, one event nearer a round.
ghost use Rattle.std.specs.Prelude.{◌≡◌, ℕ, ◌≤◌, ◌<◌, length, get_or, replicate, Ok};
ghost use Rattle.rule.specs.Putting.{PutPromise};
ghost use Rattle.rule.specs.Reach.{target};
ghost use Rattle.rule.specs.Ways.{nearer_below, distance, way_into};
ghost use Rattle.why.specs.Steps.{rows_of, steps_below, followed};

use reach::Moves;
use reach::sets::{contains, insert};
use rule::{EventNo, Refusal, StateNo};

// Puts at each state the set of the states to which its moves lead: each row of the table is looked at once for it. Over the states: the number is asked for.
fn fill_rows(moves: Moves, rows: &mut [u64])
    requires { moves.states ≤ length rows.old }
    ensures { rows.new ≡ rows_of moves.entry.table.now moves.entry.events rows.old moves.entry.states }
{
    for s in 0..moves.states {
        rows[s as usize] = moves.with_moves(StateNo(s), 0);
    }
}

// The set with the states from which one event leads into it; the lowest such event of each new one goes into `steps`.
fn nearer(moves: Moves, rows: &[u64], set: u64, steps: &mut [u8]) -> u64
    requires { (moves.states ≤ length steps.old) × (moves.states ≤ 64)
        × (rows.now ≡ rows_of moves.table.now moves.events (replicate 64 0) moves.states) }
    ensures { (result ≡ nearer_below (target moves.entry.table.now moves.entry.events) moves.entry.events set moves.entry.states)
        × (steps.new ≡ steps_below (target moves.entry.table.now moves.entry.events) moves.entry.events set steps.old moves.entry.states) }
{
    let mut out = set;
    for s in 0..moves.states {
        let row = rows[s as usize];
        if !contains(set, StateNo(s)) && set & row != 0 {
            out = insert(out, StateNo(s));
            steps[s as usize] = moves.event_into(StateNo(s), set);
        }
    }
    out
}

// Follows the steps from t until the output is full.
fn follow(moves: Moves, t: StateNo, steps: &[u8], out: &mut [u8])
    requires { ((i : ℕ) → get_or moves.table.now i 0 < length steps.now) × (t.0 < length steps.now) }
    ensures { out.new ≡ followed (target moves.entry.table.now moves.entry.events) steps.now (length out.old) t.0 }
{
    let mut s = t;
    for step in out {
        let e = steps[s.0 as usize];
        *step = e;
        s = moves.next(s, EventNo(e));
    }
}

// Puts the way from t into the goal to the front of the output: refusal 16. Rows and steps are two arrays: one of pairs would take nearly twice the stack.
pub(crate) fn put(out: &mut [u8], moves: Moves, goal: u64, t: StateNo) -> Result<usize, Refusal>
    requires { (moves.states ≤ 64) × (t.0 < moves.states) × ((i : ℕ) → get_or moves.table.now i 0 < moves.states)
        × (distance (target moves.table.now moves.events) moves.states moves.events goal t.0 < moves.states) }
    ensures { PutPromise (Ok tt) (way_into (target moves.entry.table.now moves.entry.events) moves.entry.states moves.entry.events goal t.0)
        out.old result out.new }
{
    let mut rows = [0u64; 64];
    fill_rows(moves, &mut rows);
    let mut steps = [0u8; 64];
    let mut near = goal;
    let mut rounds = 0u8;
    // the rounds are counted: they end by what a round finds
    while !contains(near, t) {
        near = nearer(moves, &rows, near, &mut steps);
        rounds += 1;
    }
    let size = rounds as usize;
    if out.len() < size {
        return Err(Refusal::Room);
    }
    follow(moves, t, &steps, &mut out[..size]);
    Ok(size)
}
