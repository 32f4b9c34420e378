// A rule file put: its parts, one after the other, into a lent output.
ghost use Rattle.std.specs.Prelude.{◌≡◌, ◌++◌, ◌+◌, ◌*◌, ◌≤◌, length};
ghost use Rattle.std.specs.Option.{SomeIff};
ghost use Rattle.rule.specs.Refusals.{first_of};
ghost use Rattle.trailer.specs.Layout.{trailer_out};
ghost use Rattle.rulefile.specs.Layout.{pair_out, pairs_out, file_of};
ghost use Rattle.rulefile.specs.Writing.{measure_conditions, parts};

use rule::{Body, Pair, Refusal, Rule, Shape};
use trailer::check_shape;

// The refusals 2 to 4 of a rule by value.
#[tactic(auto, using(crate::proofs::WritingLaws::head_told), unfolding(rule::specs::Refusals::first_of))]
pub(crate) fn check_head(shape: Shape, length: usize) -> Result<(), Refusal>
    ensures { result ≡ first_of (measure_conditions shape length) }
{
    check_shape(shape)?;
    if Rule::NOTE < length {
        return Err(Refusal::Distance);
    }
    Ok(())
}

// Fills sixteen bytes with a pair: R, then P.
fn put_pair(out: &mut [u8], pair: Pair)
    requires { length out.old ≡ 16 }
    ensures { out.new ≡ pair_out pair }
{
    let (r, p) = out.split_at_mut(8);
    octets::put_number(r, pair.r);
    octets::put_number(p, pair.p);
}

// Fills a slice with the first of some pairs, and with empty ones past them. It goes over places: nothing is known of what a loop over
// `chunks_exact_mut` leaves.
#[tactic(auto, unfolding(crate::specs::Layout::flat_up_to))]
fn put_pairs(out: &mut [u8], pairs: &[Pair], count: u8)
    requires { length out.old ≡ 16 * count }
    ensures { out.new ≡ pairs_out pairs.now count }
{
    for i in 0..count as usize {
        let pair = pairs.get(i).copied().unwrap_or(Pair { r: 0, p: 0 });
        let at = 16 * i;
        put_pair(&mut out[at..at + 16], pair);
    }
}

// Fills a slice with the file that has these parts, one after the other.
#[tactic(auto, using(crate::proofs::LayoutLaws::trailer_put), unfolding(crate::specs::Layout::file_of))]
pub(crate) fn put_parts(out: &mut [u8], note: &[u8], body: Body)
    requires { length out.old ≡ length note.now + length body.table.now + (16 * body.shape.pairs + 12) }
    ensures { out.new ≡ file_of (parts note.now body.entry) }
{
    let (front, rest) = out.split_at_mut(note.len());
    front.copy_from_slice(note);
    let (table, rest) = rest.split_at_mut(body.table.len());
    table.copy_from_slice(body.table);
    let (pairs, rest) = rest.split_at_mut(trailer::PAIR * (body.shape.pairs as usize));
    put_pairs(pairs, body.pairs, body.shape.pairs);
    trailer::put_trailer(rest, body.shape);
}

// The size of the file that has these parts, where there is so much room. No sum is taken that could be too large.
pub(crate) fn size_within(note: usize, body: Body, room: usize) -> Option<usize>
    ensures { let size = note + length body.entry.table.now + (16 * body.entry.shape.pairs + 12) in SomeIff result (size ≤ room) size }
{
    let end = trailer::PAIR * (body.shape.pairs as usize) + trailer::SIZE;
    note.checked_add(body.table.len())?
        .checked_add(end)
        .filter(|size| *size <= room)
}
