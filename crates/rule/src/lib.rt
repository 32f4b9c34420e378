// The drawn rule and what it means: document 01, "The rule", in types. specs/ has the meaning, a file for each heading of the
// paper; proofs/ has its laws. What is computed of a rule stands in the crates reach and operations.
#![tactic(auto)]

ghost use Rattle.std.specs.Prelude.{◌≡◌};
ghost use Rattle.rule.specs.Operations.{mark_of, ByMark};
ghost use Rattle.rule.specs.Reach.{place_of};
ghost use Rattle.rule.specs.Range.{in_range};
ghost use Rattle.rule.specs.Refusals.{tell, told_of};

// A state's number, and an event's code. Each is a type of its own, so that neither stands where the other is meant.
#[derive(Clone, Copy)]
pub struct StateNo(pub u8);

#[derive(Clone, Copy)]
pub struct EventNo(pub u8);

// The place of a cell in a table or a sheet of so many events a row. Every lookup goes by it: the types keep state and event apart.
pub fn place(events: u8, s: StateNo, e: EventNo) -> usize
    ensures { result ≡ place_of events s.0 e.0 }
{
    s.0 as usize * events as usize + e.0 as usize
}

// An accepting pair: the sets R and P, bit s for state s.
#[derive(Clone, Copy)]
pub struct Pair {
    pub r: u64,
    pub p: u64,
}

// The class, N, K, m, the initial state and the mode: 0, or 1 for joint. Class and mode stay numbers: a shape is held before it is checked, and the refusals 2
// and 3 are answered for just the numbers that no enum would have (`trailer::check_shape`, `rulefile::write`).
#[derive(Clone, Copy)]
pub struct Shape {
    pub class: u8,
    pub states: u8,
    pub events: u8,
    pub pairs: u8,
    pub initial: StateNo,
    pub mode: u8,
}

// A rule by value: of the note the first `length` bytes are used, of the table the first N*K, of the pairs the first m. The arrays have a fixed size because
// nothing in the library allocates.
#[derive(Clone, Copy)]
pub struct Rule {
    pub shape: Shape,
    pub length: usize,
    pub note: [u8; 1024],
    pub table: [u8; 2048],
    pub pairs: [Pair; 8],
}

// A rule but for its note, lent: of the pairs the first m are used.
#[derive(Clone, Copy)]
pub struct Body<'a> {
    pub shape: Shape,
    pub table: &'a [u8],
    pub pairs: &'a [Pair],
}

// The largest N and K that there may be.
#[derive(Clone, Copy)]
pub struct Limits {
    pub states: u8,
    pub events: u8,
}

impl Limits {
    // Whether N and K are 1 at least and within these limits, and the initial state is one of the N. The tests are joined by `&`, as
    // in the definition: none of them can fail, and there is no branch for each.
    pub fn hold(self, states: u8, events: u8, initial: StateNo) -> bool
        ensures { result ≡ in_range self states events initial.0 }
    {
        let some_states = (1 <= states) & (states <= self.states);
        let some_events = (1 <= events) & (events <= self.events);
        some_states & (some_events & (initial.0 < states))
    }
}

impl Rule {
    // The limits of N, K and m.
    pub const STATES: u8 = 64;

    pub const EVENTS: u8 = 32;

    pub const PAIRS: u8 = 8;

    // The mode that is joint. The other one is 0.
    pub const JOINT: u8 = 1;

    // The longest note.
    pub const NOTE: usize = 1024;
}

// What the monitor does at a move, rising.
#[derive(Clone, Copy, PartialEq, Eq, PartialOrd, Ord)]
pub enum Operation {
    Halt,
    Store,
    Dump,
}

impl Operation {
    // Its number in a sheet. A method: docs/PROMISES.md names it, and a From would only call it.
    pub fn mark(self) -> u8
        ensures { result ≡ mark_of self }
    {
        match self {
            Operation::Halt => 0,
            Operation::Store => 1,
            Operation::Dump => 2,
        }
    }
}

// A number that stands for no operation.
#[derive(Clone, Copy)]
pub struct NoOperation;

impl TryFrom<u8> for Operation {
    type Error = NoOperation;

    ghost try_from_gives = { ByMark };

    fn try_from(mark: u8) -> Result<Self, NoOperation> {
        match mark {
            0 => Ok(Operation::Halt),
            1 => Ok(Operation::Store),
            2 => Ok(Operation::Dump),
            _ => Err(NoOperation),
        }
    }
}

// The refusals by number, with their places A and B where they have any. `told_of` of specs/ gives each its number; 10 is never given and stays unused.
// Which set of a pair, and which book, stay numbers: `told` promises an answer for each of them.
#[derive(Clone, Copy)]
pub enum Refusal {
    Frame,
    Class,
    Range,
    Distance,
    Entry(StateNo, EventNo),
    Member(u8, u8),
    Excess,
    Move(StateNo, EventNo),
    Stopping(u8),
    Sheet,
    Run,
    Code,
    Cell(StateNo, EventNo),
    Memory,
    Room,
    Book(u8),
    Missing,
    Log,
    Full,
}

// A refusal as the paper's table has it: its number and its places.
#[derive(Clone, Copy)]
pub struct Told {
    pub number: u8,
    pub a: u8,
    pub b: u8,
}

impl Told {
    fn new(number: u8, a: u8, b: u8) -> Self
        ensures { result ≡ tell number a b }
    {
        Self { number, a, b }
    }
}

impl Refusal {
    // Its number and places. A method, as `mark` is.
    pub fn told(self) -> Told
        ensures { result ≡ told_of self }
    {
        match self {
            Refusal::Frame => Told::new(1, 0, 0),
            Refusal::Class => Told::new(2, 0, 0),
            Refusal::Range => Told::new(3, 0, 0),
            Refusal::Distance => Told::new(4, 0, 0),
            Refusal::Entry(s, e) => Told::new(5, s.0, e.0),
            Refusal::Member(i, side) => Told::new(6, i, side),
            Refusal::Excess => Told::new(7, 0, 0),
            Refusal::Move(s, e) => Told::new(8, s.0, e.0),
            Refusal::Stopping(i) => Told::new(9, i, 0),
            Refusal::Sheet => Told::new(11, 0, 0),
            Refusal::Run => Told::new(12, 0, 0),
            Refusal::Code => Told::new(13, 0, 0),
            Refusal::Cell(s, e) => Told::new(14, s.0, e.0),
            Refusal::Memory => Told::new(15, 0, 0),
            Refusal::Room => Told::new(16, 0, 0),
            Refusal::Book(which) => Told::new(17, which, 0),
            Refusal::Missing => Told::new(18, 0, 0),
            Refusal::Log => Told::new(19, 0, 0),
            Refusal::Full => Told::new(26, 0, 0),
        }
    }
}
