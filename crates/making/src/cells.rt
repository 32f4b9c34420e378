// The bytes of a sheet.
ghost use Rattle.std.specs.Prelude.{◌≡◌, map, ℕ, ◌+◌, ◌*◌, ◌≤◌, ◌<◌, length, get_or, Ok};
ghost use Rattle.rule.specs.Drawing.{drawing_of};
ghost use Rattle.rule.specs.Operations.{mark_of};
ghost use Rattle.rule.specs.WellDrawn.{WellDrawn};
ghost use Rattle.rule.specs.Putting.{PutPromise};
ghost use Rattle.sheet.specs.Layout.{end_of, sheet_of};
ghost use Rattle.operations.specs.Marks.{operation_in};

use operations::{Marks, mark_states};
use rule::{Body, Refusal, Shape, StateNo};

// The cells: next state + 64 * operation of a move into it.
fn put_cells(out: &mut [u8], table: &[u8], marks: Marks)
    requires { (length out.old ≡ length table.now) × ((i : ℕ) → get_or table.now i 0 < 64) }
    ensures { out.new ≡ map (λ t. t + 64 * mark_of (operation_in marks t)) table.now }
{
    octets::copy(table, out);
    for cell in out {
        *cell += 64 * marks.at(StateNo(*cell)).mark();
    }
}

// The last six bytes: N, K, initial state, 77 and the distance back to the first cell.
fn put_end(out: &mut [u8], shape: Shape)
    requires { length out.old ≡ 6 }
    ensures { out.new ≡ end_of shape }
{
    let size = shape.states as usize * shape.events as usize + sheet::END;
    let initial = shape.initial;
    out[..4].copy_from_slice(&[shape.states, shape.events, initial.0, sheet::MARK]);
    octets::put_number(&mut out[4..], size as u64);
}

// Puts the sheet of a rule to the front of the output: refusal 16. It has a frame of its own, which is not on the stack while the file is looked at.
#[inline(never)]
pub(crate) fn put(out: &mut [u8], body: Body) -> Result<usize, Refusal>
    requires { WellDrawn (drawing_of body) × ((i : ℕ) → get_or body.table.now i 0 < body.shape.states) × (length body.table.now ≤ 2048) }
    ensures { PutPromise (Ok tt) (sheet_of (drawing_of body.entry)) out.old result out.new }
{
    let count = body.table.len();
    let size = count + sheet::END;
    if out.len() < size {
        return Err(Refusal::Room);
    }
    let marks = mark_states(body);
    put_cells(&mut out[..count], body.table, marks);
    put_end(&mut out[count..size], body.shape);
    Ok(size)
}
