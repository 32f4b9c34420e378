// The printed monitor: the text that the program `table` writes for a rule file (document 01, "The printed monitor").
#![tactic(auto)]

ghost use Rattle.std.specs.Prelude.{◌≡◌};
ghost use Rattle.printed.specs.Printing.{text_of, PrintPromise};
ghost use Rattle.printed.specs.Writers.{text_from};
ghost use Rattle.printed.specs.Writing.{Puts};

mod lines;
mod text;

use crate::lines::{Page, put_refusal};
use crate::text::Text;
use operations::mark_states;
use reach::Moves;
use rule::{Body, Refusal};

// An output of so many bytes has room for every text.
pub const TEXT_MAX: usize = 32768;

// Puts what was found of a file: the monitor, or its refusal.
fn put_found(text: &mut Text, found: Result<Page, Refusal>)
    ensures { Puts text.old text.new (text_from found.entry) }
{
    match found {
        Ok(page) => page.put(text),
        Err(refusal) => put_refusal(text, refusal.told()),
    }
}

// What was found of a file. Its text is the file's.
fn found_in(file: &[u8]) -> Result<Page<'_>, Refusal>
    ensures { text_from result ≡ text_of file.now }
{
    let parts = rulefile::parts(file)?;
    let shape = parts.shape;
    let table = &file[parts.start..parts.end];
    let marks = mark_states(Body {
        shape,
        table,
        pairs: &parts.pairs,
    });
    // not `Moves::of`: the rule that is lent here has the pairs, which end with this function
    let moves = Moves {
        table,
        states: shape.states,
        events: shape.events,
    };
    Ok(Page {
        shape,
        moves,
        marks,
    })
}

// Prints a rule file's monitor, or its refusal, to the front of the output. A text that does not fit is refused 16.
pub fn print(file: &[u8], out: &mut [u8]) -> Result<usize, Refusal>
    ensures { PrintPromise file.now out.old result out.new }
{
    let found = found_in(file);
    let mut measure = Text {
        out: &mut [],
        at: 0,
    };
    put_found(&mut measure, found);
    if out.len() < measure.at {
        return Err(Refusal::Room);
    }
    let mut text = Text { out, at: 0 };
    put_found(&mut text, found);
    Ok(text.at)
}
