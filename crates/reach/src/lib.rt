// The moves of a lent table, and the states that they reach.
#![tactic(auto)]

ghost use Rattle.std.specs.Prelude.{◌≡◌, ◌-◌, ◌<◌, ◌≤◌, length, slice_range};
ghost use Rattle.std.specs.Option.{SomeIff, option_copied};
ghost use Rattle.rule.specs.Backward.{reaching, with_source, swept_up, swept_down};
ghost use Rattle.rule.specs.Reach.{place_of, target, with_moves, moved_below, moved_set, spread, reached_within};
ghost use Rattle.rule.specs.Ways.{event_into};

pub mod sets;

use crate::sets::{contains, insert};
use rule::{Body, EventNo, Rule, StateNo, place};

// The moves of a rule: its table, row by state, of so many states and events. Past the table every move leads to state 0.
#[derive(Clone, Copy)]
pub struct Moves<'a> {
    pub table: &'a [u8],
    pub states: u8,
    pub events: u8,
}

impl<'a> Moves<'a> {
    // The moves of a rule that is lent. No From: what it promises is one clause, and every caller has a rule.
    pub fn of(body: Body<'a>) -> Self
        ensures { result ≡ record { table = body.entry.table; states = body.entry.shape.states; events = body.entry.shape.events } }
    {
        Self {
            table: body.table,
            states: body.shape.states,
            events: body.shape.events,
        }
    }

    // The state to which event e leads from state s; state 0 past the table.
    #[tactic(auto, unfolding(rule::specs::Reach::target))]
    pub fn next(self, s: StateNo, e: EventNo) -> StateNo
        ensures { result.0 ≡ target self.entry.table.now self.entry.events s.0 e.0 }
    {
        let cell = self.table.get(place(self.events, s, e));
        StateNo(cell.copied().unwrap_or(0))
    }

    // The row of s, where the table has all of it.
    fn row(self, s: StateNo) -> Option<&'a [u8]>
        ensures { SomeIff (option_copied result)
            (place_of self.entry.events s.0 self.entry.events ≤ length self.entry.table.now)
            (slice_range self.entry.table.now (place_of self.entry.events s.0 0) (place_of self.entry.events s.0 self.entry.events)) }
    {
        let start = place(self.events, s, EventNo(0));
        let end = place(self.events, s, EventNo(self.events));
        self.table.get(start..end)
    }

    // The set with every state to which one move from s leads. Only where the row is not whole is each cell asked for by `next`.
    pub fn with_moves(self, s: StateNo, set: u64) -> u64
        ensures { result ≡ with_moves self.entry.table.now self.entry.events s.0 set self.entry.events }
    {
        match self.row(s) {
            Some(row) => row.iter().fold(set, |out, t| insert(out, StateNo(*t))),
            None => (0..self.events).fold(set, |out, e| insert(out, self.next(s, EventNo(e)))),
        }
    }

    // The set `onto` with every state to which one move from a member of `from` leads. There is a turn for each member, not for each state:
    // `rest` has the members that are left.
    #[tactic(auto, using(crate::proofs::StepLaws::walk))]
    fn moved(self, from: u64, onto: u64) -> u64
        ensures { result ≡ moved_below self.entry.table.now self.entry.events from onto self.entry.states }
    {
        let mut out = onto;
        let mut rest = from;
        while rest != 0 {
            let s = rest.trailing_zeros() as u8;
            if self.states <= s {
                break;
            }
            out = self.with_moves(StateNo(s), out);
            rest &= !(1u64 << s);
        }
        out
    }

    // The states reached from a member of `seen` in at most so many moves, where only the moves from the members `fresh` can lead
    // out of `seen`. Where a move adds nothing, no further one does.
    #[tactic(auto, using(crate::proofs::StepLaws::spreads))]
    fn spread_within(self, seen: u64, fresh: u64, moves: u8) -> u64
        requires { moved_below self.table.now self.events fresh seen self.states ≡ moved_set self.table.now self.states self.events seen }
        ensures { result ≡ spread self.entry.table.now self.entry.states self.entry.events seen moves }
    {
        if moves == 0 {
            return seen;
        }
        let more = self.moved(fresh, seen);
        if more == seen {
            return seen;
        }
        self.spread_within(more, more ^ seen, moves - 1)
    }

    // The states reached from q in at most so many moves; zero moves count.
    #[tactic(auto, using(crate::proofs::StepLaws::starts))]
    pub fn reached_within(self, q: StateNo, moves: u8) -> u64
        ensures { result ≡ reached_within self.entry.table.now self.entry.states self.entry.events q.0 moves }
    {
        let start = insert(0, q);
        self.spread_within(start, start, moves)
    }

    // The states reached from q in any number of moves: N - 1 are always enough. Document 01 asks for the recursion above; this loop is for who has little
    // stack.
    #[tactic(auto, using(crate::proofs::StepLaws::rounds))]
    pub fn reached(self, q: StateNo) -> u64
        ensures { result ≡ reached_within self.entry.table.now self.entry.states self.entry.events q.0 (self.entry.states - 1) }
    {
        let mut seen = insert(0, q);
        let mut fresh = seen;
        for _moves in 1..self.states {
            let wider = self.moved(fresh, seen);
            if wider == seen {
                return seen;
            }
            fresh = wider ^ seen;
            seen = wider;
        }
        seen
    }

    // The lowest event that leads from s into the set, or K where none does, cell by cell. K stands for none: so the paper and specs/ have it.
    fn event_by_cells(self, s: StateNo, set: u64) -> u8
        ensures { result ≡ event_into (target self.entry.table.now self.entry.events) self.entry.events set s.0 }
    {
        (0..self.events)
            .find(|e| contains(set, self.next(s, EventNo(*e))))
            .unwrap_or(self.events)
    }

    // The same: the row is read up to the first such event, and not at all for the empty set. The bit is looked at before the bound, which
    // a table of states keeps. Only where it does not, and where the row is not whole, is each cell asked for by `next`.
    pub fn event_into(self, s: StateNo, set: u64) -> u8
        ensures { result ≡ event_into (target self.entry.table.now self.entry.events) self.entry.events set s.0 }
    {
        if set == 0 {
            return self.events;
        }
        let Some(row) = self.row(s) else {
            return self.event_by_cells(s, set);
        };
        match row.iter().position(|t| (set >> (*t % 64)) % 2 == 1) {
            None => self.events,
            Some(e) if row[e] < Rule::STATES => e as u8,
            Some(_) => self.event_by_cells(s, set),
        }
    }

    // The set with s, where one move leads from s into it. A member is not tried.
    #[tactic(auto, using(rule::proofs::SetLaws::including_old), unfolding(rule::specs::Backward::with_source))]
    fn with_source(self, s: StateNo, set: u64) -> u64
        ensures { result ≡ with_source (target self.entry.table.now self.entry.events) self.entry.events set s.0 }
    {
        if contains(set, s) {
            return set;
        }
        if self.event_into(s, set) < self.events {
            return insert(set, s);
        }
        set
    }

    // Each state in turn, going up. The sweep down is a loop of its own: one function for both would state its answer by the list that its iterator gives,
    // which is no plainer.
    #[tactic(auto, unfolding(rule::specs::Backward::swept_up))]
    fn swept_up(self, set: u64) -> u64
        ensures { result ≡ swept_up (target self.entry.table.now self.entry.events) self.entry.events set self.entry.states }
    {
        let mut out = set;
        for s in 0..self.states {
            out = self.with_source(StateNo(s), out);
        }
        out
    }

    // Each state in turn, going down.
    #[tactic(auto, unfolding(rule::specs::Backward::swept_down))]
    fn swept_down(self, set: u64) -> u64
        ensures { result ≡ swept_down (target self.entry.table.now self.entry.events) self.entry.events set self.entry.states }
    {
        let mut out = set;
        for s in (0..self.states).rev() {
            out = self.with_source(StateNo(s), out);
        }
        out
    }

    // The states from which some events lead into the set; zero events count. One set is swept, down and up, until a sweep adds nothing.
    pub fn backward(self, set: u64) -> u64
        ensures { result ≡ reaching (target self.entry.table.now self.entry.events) self.entry.states self.entry.events set }
    {
        let mut back = set;
        loop {
            let down = self.swept_down(back);
            if down == back {
                return back;
            }
            back = self.swept_up(down);
            if back == down {
                return down;
            }
        }
    }
}
