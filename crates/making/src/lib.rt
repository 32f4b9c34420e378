// The monitor sheet made from a rule file (document 01, "Layouts").
#![tactic(auto)]

ghost use Rattle.making.specs.Making.{MakePromise};

mod cells;

use rule::{Body, Refusal};

// Makes the sheet of a rule file at the front of the output: the refusals 1 to 9, then 16.
pub fn make(file: &[u8], out: &mut [u8]) -> Result<usize, Refusal>
    ensures { MakePromise file.now out.old result out.new }
{
    let parts = rulefile::parts(file)?;
    let body = Body {
        shape: parts.shape,
        table: &file[parts.start..parts.end],
        pairs: &parts.pairs,
    };
    cells::put(out, body)
}
