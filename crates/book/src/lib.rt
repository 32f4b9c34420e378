// A rule book: rule files one after another under rule numbers, looked up in the job's book and then the office's (request M-100).
#![tactic(auto)]

ghost use Rattle.std.specs.Prelude.{◌≡◌};
ghost use Rattle.book.specs.Finding.{lookup_of, FindPromise};
ghost use Rattle.book.specs.Adding.{AddPromise};

mod directory;
mod growth;

use directory::Directory;
use rule::Refusal;

// Where the two books have a rule: its first byte and its length.
#[derive(Clone, Copy)]
pub enum Lookup {
    Job(usize, usize),
    Office(usize, usize),
}

// Looks a rule up: 17 for either book, the job's first; then the job's book where it has the number at all, else the office's; 18.
#[tactic(auto, unfolding(crate::specs::Finding::lookup_of))]
pub fn look(job: &[u8], office: &[u8], number: u8, age: u16) -> Result<Lookup, Refusal>
    ensures { result ≡ lookup_of job.now office.now number age }
{
    let job = Directory::of(job).ok_or(Refusal::Book(0))?;
    let office = Directory::of(office).ok_or(Refusal::Book(1))?;
    if let Some((start, size)) = job.sought(number, age)? {
        return Ok(Lookup::Job(start, size));
    }
    let (start, size) = office.sought(number, age)?.ok_or(Refusal::Missing)?;
    Ok(Lookup::Office(start, size))
}

// The rule's bytes as they stand in the job's book, or in the office's: an empty part where the lookup is refused.
pub fn find<'a>(job: &'a [u8], office: &'a [u8], number: u8, age: u16) -> &'a [u8]
    ensures { FindPromise job.entry office.entry number age result }
{
    match look(job, office, number, age) {
        Ok(Lookup::Job(start, size)) => &job[start..start + size],
        Ok(Lookup::Office(start, size)) => &office[start..start + size],
        Err(_) => &job[0..0],
    }
}

// Writes a book with one rule more to the front of the output: 17, 1 to 9 of the rule file, 26, 16.
#[tactic(auto, using(crate::proofs::AddLaws::adding), unfolding(crate::specs::Adding::add_verdict, rule::specs::Refusals::first_of))]
pub fn add(book: &[u8], number: u8, rule: &[u8], out: &mut [u8]) -> Result<usize, Refusal>
    ensures { AddPromise book.now number rule.now out.old result out.new }
{
    let old = Directory::of(book).ok_or(Refusal::Book(0))?;
    rulefile::parts(rule)?;
    if 1024 <= old.entries.len() {
        return Err(Refusal::Full);
    }
    growth::put_book(out, old, number, rule)
}
