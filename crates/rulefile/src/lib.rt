// The rule file: looked at, read and written (document 01, "Layouts" and "Refusal numbers"). specs/ has its layout, and what reading and
// writing come to; the crate trailer has the checks 1 to 4, the crate checks the others.
#![tactic(auto)]

ghost use Rattle.std.specs.Prelude.{◌≡◌};
ghost use Rattle.rulefile.specs.Reading.{parts_of, reading_of};
ghost use Rattle.rulefile.specs.Writing.{parts, FilePromise, WritePromise};

mod layout;
mod putting;

use rule::{Body, Pair, Refusal, Rule, Shape};

// What a sound file has: its shape, its pairs in an array of eight, since there is no heap, and where its table stands. These are places and no slices:
// where the table stands is what is promised.
#[derive(Clone, Copy)]
pub struct Contents {
    pub shape: Shape,
    pub start: usize,
    pub end: usize,
    pub pairs: [Pair; 8],
}

// Looks at a file: the refusals 1 to 9, and where its parts are. Nothing of it is copied but the pairs.
#[tactic(auto, using(crate::proofs::ReadingLaws::cuts))]
pub fn parts(file: &[u8]) -> Result<Contents, Refusal>
    ensures { result ≡ parts_of file.now }
{
    if !trailer::framed(file) {
        return Err(Refusal::Frame);
    }
    let len = file.len();
    let trailer = trailer::trailer_of(&file[len - trailer::SIZE..]);
    trailer::check_trailer(trailer, len)?;
    let shape = trailer.shape;
    let start = len - trailer.tableback;
    let end = len - trailer.pairsback;
    let mut pairs = [Pair { r: 0, p: 0 }; 8];
    layout::fill_pairs(&mut pairs, &file[end..len - trailer::SIZE]);
    checks::check_body(Body {
        shape,
        table: &file[start..end],
        pairs: &pairs,
    })?;
    Ok(Contents {
        shape,
        start,
        end,
        pairs,
    })
}

// Reads a rule: the refusals 1 to 9.
#[tactic(auto, using(crate::proofs::ReadingLaws::read_parts))]
pub fn read(file: &[u8]) -> Result<Rule, Refusal>
    ensures { result ≡ reading_of file.now }
{
    let parts = parts(file)?;
    let mut note = [0u8; 1024];
    octets::copy(&file[..parts.start], &mut note);
    let mut table = [0u8; 2048];
    octets::copy(&file[parts.start..parts.end], &mut table);
    let pairs = parts.pairs;
    Ok(Rule {
        shape: parts.shape,
        length: parts.start,
        note,
        table,
        pairs,
    })
}

// Puts the file that has these parts to the front of the output, unchecked: refusal 16. Past the pairs that there are a pair is empty.
pub fn put_file(note: &[u8], body: Body, out: &mut [u8]) -> Result<usize, Refusal>
    ensures { FilePromise (parts note.now body.entry) out.old result out.new }
{
    let Some(size) = putting::size_within(note.len(), body, out.len()) else {
        return Err(Refusal::Room);
    };
    putting::put_parts(&mut out[..size], note, body);
    Ok(size)
}

// Writes a rule to the front of the output: the refusals 2, 3, 4 for the note, 5 to 9, then 16.
#[tactic(auto, using(crate::proofs::WritingLaws::held))]
pub fn write(rule: Rule, out: &mut [u8]) -> Result<usize, Refusal>
    ensures { WritePromise rule out.old result out.new }
{
    let shape = rule.shape;
    putting::check_head(shape, rule.length)?;
    let cells = (shape.states as usize) * (shape.events as usize);
    let body = Body {
        shape,
        table: &rule.table[..cells],
        pairs: &rule.pairs,
    };
    checks::check_body(body)?;
    put_file(&rule.note[..rule.length], body, out)
}
