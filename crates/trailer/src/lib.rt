// The frame of a rule file and its last twelve bytes, the trailer: read, checked, put (document 01, "Layouts" and "Refusal numbers",
// 1 to 4).
#![tactic(auto)]

ghost use Rattle.std.specs.Prelude.{◌≡◌, ◌<◌, get_or, take, drop};
ghost use Rattle.octets.specs.Copies.{copied};
ghost use Rattle.octets.specs.Numbers.{value_of};
ghost use Rattle.rule.specs.Refusals.{first_of};
ghost use Rattle.trailer.specs.Conditions.{shape_conditions, head_conditions};
ghost use Rattle.trailer.specs.Layout.{pairs_back, table_back, trailer_of, trailer_out};

use rule::{Limits, Refusal, Rule, Shape, StateNo};

// The bytes of the trailer, of a pair, and of the longest file.
pub const SIZE: usize = 12;

pub const PAIR: usize = 16;

pub const LONGEST: usize = 3212;

// What the last twelve bytes of a file say: its shape, and the distances from its end back to the table and to the pairs.
#[derive(Clone, Copy)]
pub struct Trailer {
    pub shape: Shape,
    pub tableback: usize,
    pub pairsback: usize,
}

// Whether a file has a length that one can have, and ends with the two marks.
#[tactic(auto, using(std::proofs::lemmas::Bool::Decides::nat_tests), unfolding(crate::specs::Conditions::framed))]
pub fn framed(file: &[u8]) -> bool
    ensures { result ≡ Rattle.trailer.specs.Conditions.framed file.now }
{
    (SIZE..=LONGEST).contains(&file.len()) && matches!(file, [.., 72, 82])
}

// Byte i, and past the end 0.
fn byte_at(bytes: &[u8], i: usize) -> u8
    ensures { result ≡ get_or bytes.now i 0 }
{
    bytes.get(i).copied().unwrap_or(0)
}

// The distance that stands in two bytes from i on.
#[tactic(auto, unfolding(octets::specs::Numbers::value_of))]
fn distance_at(bytes: &[u8], i: usize) -> usize
    requires { i < 12 }
    ensures { result ≡ value_of (take 2 (drop i bytes.now)) }
{
    u16::from_le_bytes([byte_at(bytes, i), byte_at(bytes, i + 1)]) as usize
}

// What the twelve bytes of a trailer say; a byte that is missing is 0.
#[tactic(auto, unfolding(crate::specs::Layout::trailer_of))]
pub fn trailer_of(bytes: &[u8]) -> Trailer
    ensures { result ≡ trailer_of bytes.now }
{
    Trailer {
        shape: Shape {
            class: byte_at(bytes, 0),
            states: byte_at(bytes, 1),
            events: byte_at(bytes, 2),
            pairs: byte_at(bytes, 3),
            initial: StateNo(byte_at(bytes, 4)),
            mode: byte_at(bytes, 5),
        },
        tableback: distance_at(bytes, 6),
        pairsback: distance_at(bytes, 8),
    }
}

// The distance from a file's end back to its pairs.
fn pairs_back(shape: Shape) -> usize
    ensures { result ≡ pairs_back shape }
{
    SIZE + PAIR * (shape.pairs as usize)
}

// The distance back to its table.
fn table_back(shape: Shape) -> usize
    ensures { result ≡ table_back shape }
{
    pairs_back(shape) + (shape.states as usize) * (shape.events as usize)
}

// Puts the trailer of a shape to the front of a slice, or as much of it as there is room for.
#[tactic(auto, unfolding(crate::specs::Layout::trailer_out, octets::specs::Numbers::digits))]
pub fn put_trailer(out: &mut [u8], shape: Shape)
    ensures { out.new ≡ copied (trailer_out shape) out.old }
{
    let [table, table_high, ..] = table_back(shape).to_le_bytes();
    let [pairs, pairs_high, ..] = pairs_back(shape).to_le_bytes();
    let bytes = [
        shape.class,
        shape.states,
        shape.events,
        shape.pairs,
        shape.initial.0,
        shape.mode,
        table,
        table_high,
        pairs,
        pairs_high,
        72,
        82,
    ];
    octets::copy(&bytes, out);
}

// Whether N, K, m, the initial state and the mode are in range, and m is 1 where the class has one pair. No test costs a branch.
#[tactic(auto, unfolding(crate::specs::Conditions::ranged))]
fn ranged(shape: Shape) -> bool
    ensures { result ≡ Rattle.trailer.specs.Conditions.ranged shape }
{
    let limits = Limits {
        states: Rule::STATES,
        events: Rule::EVENTS,
    };
    let numbers = limits.hold(shape.states, shape.events, shape.initial);
    let pairs = (1 <= shape.pairs) & (shape.pairs <= Rule::PAIRS);
    let one = (shape.class == 3) | (shape.pairs == 1);
    numbers & (pairs & ((shape.mode <= Rule::JOINT) & one))
}

// The refusals 2 and 3.
#[tactic(auto, using(std::proofs::lemmas::Bool::Decides::nat_tests), unfolding(crate::specs::Conditions::classed, rule::specs::Refusals::first_of))]
pub fn check_shape(shape: Shape) -> Result<(), Refusal>
    ensures { result ≡ first_of (shape_conditions shape) }
{
    if !matches!(shape.class, 1..=4) {
        return Err(Refusal::Class);
    }
    if !ranged(shape) {
        return Err(Refusal::Range);
    }
    Ok(())
}

// Whether the back distances are right, the file is as long as they say, and its note is not too long.
#[tactic(auto, using(std::proofs::lemmas::Bool::Decides::nat_tests), unfolding(crate::specs::Conditions::placed))]
fn placed(trailer: Trailer, len: usize) -> bool
    ensures { result ≡ Rattle.trailer.specs.Conditions.placed trailer len }
{
    let table = table_back(trailer.shape);
    trailer.pairsback == pairs_back(trailer.shape)
        && trailer.tableback == table
        && table <= len
        && len - table <= Rule::NOTE
}

// The refusals 2 to 4 of a file of so many bytes.
#[tactic(auto, using(crate::proofs::HeadLaws::third_told), unfolding(rule::specs::Refusals::first_of))]
pub fn check_trailer(trailer: Trailer, len: usize) -> Result<(), Refusal>
    ensures { result ≡ first_of (head_conditions trailer len) }
{
    check_shape(trailer.shape)?;
    if !placed(trailer, len) {
        return Err(Refusal::Distance);
    }
    Ok(())
}
