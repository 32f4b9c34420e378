// A book with one rule more.
ghost use Rattle.std.specs.Prelude.{◌≡◌, ◌++◌, ◌+◌, ◌*◌, ◌≤◌, ◌<◌, length, Ok};
ghost use Rattle.rule.specs.Putting.{PutPromise};
ghost use Rattle.book.specs.Book.{entry_of};
ghost use Rattle.book.specs.Adding.{moved_of, last_of, grown_directory, grown};

use crate::directory::{Directory, distance, length};
use rule::Refusal;

// Fills eight bytes with an entry.
fn put_entry(out: &mut [u8], number: u8, size: usize, distance: usize)
    requires { length out.old ≡ 8 }
    ensures { out.new ≡ entry_of number size distance }
{
    let (head, places) = out.split_at_mut(2);
    head.copy_from_slice(&[number, 0]);
    let (length, back) = places.split_at_mut(2);
    octets::put_number(length, size as u64);
    octets::put_number(back, distance as u64);
}

// Fills a slice with the entries of a book, their distances grown. Places are counted: no contract says what is written through chunks.
#[tactic(auto, unfolding(rulefile::specs::Layout::flat_up_to))]
fn put_moved(out: &mut [u8], old: Directory<'_>, grow: usize)
    requires { (length out.old ≡ 8 * length old.entries.now) × (grow < 65536) }
    ensures { out.new ≡ moved_of old.entry.book.now old.entry.start grow (length old.entry.entries.now) }
{
    for (i, entry) in old.entries.iter().enumerate() {
        let to = 8 * i;
        put_entry(
            &mut out[to..to + 8],
            entry[0],
            length(entry),
            distance(entry) + grow,
        );
    }
}

// Fills ten bytes with the last entry and the count.
#[tactic(auto, unfolding(crate::specs::Adding::last_of))]
fn put_last(out: &mut [u8], number: u8, size: usize, count: usize)
    requires { (length out.old ≡ 10) × (size < 65536) × (count ≤ 1025) }
    ensures { out.new ≡ last_of number size count }
{
    let (entry, end) = out.split_at_mut(8);
    put_entry(entry, number, size, size + (8 * count + 2));
    octets::put_number(end, count as u64);
}

// Fills a slice with the new directory and the count.
fn put_directory(out: &mut [u8], old: Directory<'_>, number: u8, size: usize)
    requires { (length out.old ≡ 8 * length old.entries.now + 10) × (size < 60000) }
    ensures { out.new ≡ grown_directory old.entry.book.now (length old.entry.entries.now) number size }
{
    let (moved, last) = out.split_at_mut(8 * old.entries.len());
    put_moved(moved, old, size + 8);
    put_last(last, number, size, old.entries.len() + 1);
}

// Fills a slice with the new book.
#[tactic(auto, using(crate::proofs::GrowthLaws::grown_put))]
fn put_grown(out: &mut [u8], old: Directory<'_>, number: u8, rule: &[u8])
    requires { (length rule.now < 60000) × (length out.old ≡ length old.book.now + (length rule.now + 8)) }
    ensures { out.new ≡ grown old.entry.book.now number rule.now }
{
    let (rules, rest) = out.split_at_mut(old.start);
    octets::copy(&old.book[..old.start], rules);
    let (file, directory) = rest.split_at_mut(rule.len());
    octets::copy(rule, file);
    put_directory(directory, old, number, rule.len());
}

// Puts the new book to the front of the output: refusal 16.
#[tactic(auto, using(crate::proofs::GrowthLaws::length_grown))]
pub(crate) fn put_book(
    out: &mut [u8],
    old: Directory<'_>,
    number: u8,
    rule: &[u8],
) -> Result<usize, Refusal>
    requires { length rule.now < 60000 }
    ensures { PutPromise (Ok tt) (grown old.entry.book.now number rule.now) out.old result out.new }
{
    let size = old.book.len() + (rule.len() + 8);
    if out.len() < size {
        return Err(Refusal::Room);
    }
    put_grown(&mut out[..size], old, number, rule);
    Ok(size)
}
