// The monitor sheet: opened (document 01, "Layouts"). specs/ has all of its layout, and what opening and making one come to; the
// crate making makes it.
#![tactic(auto)]

ghost use Rattle.std.specs.Prelude.{◌≡◌, ◌+◌, ◌*◌};
ghost use Rattle.sheet.specs.Opening.{opened_of};

use rule::{Limits, Refusal, Rule, StateNo};

// The bytes after the cells, and the mark among them.
pub const END: usize = 6;

pub const MARK: u8 = 77;

// What an opened sheet says of itself: N, K and the initial state.
#[derive(Clone, Copy)]
pub struct Head {
    pub states: u8,
    pub events: u8,
    pub initial: StateNo,
}

// The length of a sheet of so many states and events: its cells, and six bytes.
fn size(states: u8, events: u8) -> usize
    ensures { result ≡ states * events + 6 }
{
    states as usize * events as usize + END
}

// Opens a sheet: its last six bytes are read and held to their rules; refusal 11. The tests are joined by `&`: one branch for all.
#[tactic(auto, unfolding(crate::specs::Opening::opened_of, crate::specs::Opening::opens))]
pub fn open(sheet: &[u8]) -> Result<Head, Refusal>
    ensures { result ≡ opened_of sheet.now }
{
    let [.., states, events, initial, mark, low, high] = *sheet else {
        return Err(Refusal::Sheet);
    };
    let initial = StateNo(initial);
    let limits = Limits {
        states: Rule::STATES,
        events: Rule::EVENTS,
    };
    let whole = size(states, events);
    let distance = u16::from_le_bytes([low, high]) as usize;
    let sized = (distance == whole) & (sheet.len() == whole);
    let good = (mark == MARK) & (limits.hold(states, events, initial) & sized);
    if good {
        Ok(Head {
            states,
            events,
            initial,
        })
    } else {
        Err(Refusal::Sheet)
    }
}
