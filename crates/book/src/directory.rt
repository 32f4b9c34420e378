// The directory of a book: what its entries say, whether its rules fill it, and the search for a number.
ghost use Rattle.std.specs.Prelude.{◌≡◌, ◌+◌, ◌*◌, ◌≤◌, ◌<◌, length};
ghost use Rattle.book.specs.Directory.{length_at, distance_at, count_in, AreEntries};

use rule::Refusal;

// The length of an entry's rule.
pub(crate) fn length(entry: &[u8; 8]) -> usize
    ensures { (result ≡ length_at entry.now 0) × (result < 65536) }
{
    octets::number(&entry[2..4]) as usize
}

// The distance from the book's end back to its rule.
pub(crate) fn distance(entry: &[u8; 8]) -> usize
    ensures { (result ≡ distance_at entry.now 0) × (result < 4294967296) }
{
    octets::number(&entry[4..8]) as usize
}

// Where the directory of a book begins, and its entries.
#[derive(Clone, Copy)]
pub(crate) struct Directory<'a> {
    pub(crate) book: &'a [u8],
    pub(crate) start: usize,
    pub(crate) entries: &'a [[u8; 8]],
    ghost few: { length entries.now ≤ 1024 },
    ghost ends: { start + (8 * length entries.now + 2) ≡ length book.now },
    ghost counted: { length entries.now ≡ count_in book.now },
    ghost are: { AreEntries book.now start entries.now },
}

impl<'a> Directory<'a> {
    ghost use Rattle.std.specs.Prelude.{true, false, MatchOption};
    ghost use Rattle.book.specs.Directory.{filled, well_formed};
    ghost use Rattle.book.specs.Finding.{sought_in};

    // The directory of a book, or none where the bytes are no book: refusal 17.
    #[tactic(auto, using(crate::proofs::DirectoryLaws::count_is, crate::proofs::DirectoryLaws::formed_as), unfolding(crate::specs::Directory::well_formed))]
    pub(crate) fn of(book: &'a [u8]) -> Option<Self>
        ensures { MatchOption result (well_formed book.now ≡ false)
            (λ d. (well_formed book.now ≡ true) × (d.book.now ≡ book.now)) }
    {
        let end = book.len().checked_sub(2)?;
        let count = octets::number(&book[end..]) as usize;
        if 1024 < count {
            return None;
        }
        let start = end.checked_sub(8 * count)?;
        // what is left over is the count
        let (entries, _) = book[start..].as_chunks();
        let directory = Directory {
            book,
            start,
            entries,
        };
        if !directory.fills() {
            return None;
        }
        Some(directory)
    }

    // Whether the rules, in entry order, fill the book up to its directory.
    #[tactic(auto, using(crate::proofs::DirectoryLaws::filled_step, crate::proofs::DirectoryLaws::filled_last))]
    fn fills(self) -> bool
        ensures { result ≡ filled self.entry.book.now self.entry.start (length self.entry.entries.now) self.entry.start 0 }
    {
        let mut start = 0;
        for entry in self.entries {
            if entry[1] != 0 {
                return false;
            }
            if distance(entry) + start != self.book.len() {
                return false;
            }
            start += length(entry);
        }
        start == self.start
    }

    // Where the newest entry with a number has its rule, or the one that is so many such entries older: its first byte and its length. None, where no
    // entry has the number; 18, where some have it and none is so old.
    #[tactic(auto, unfolding(crate::specs::Finding::seek))]
    pub(crate) fn sought(self, number: u8, age: u16) -> Result<Option<(usize, usize)>, Refusal>
        requires { well_formed self.book.now ≡ true }
        ensures { result ≡ sought_in self.entry.book.now number age }
    {
        let mut older = age;
        for entry in self.entries.iter().rev() {
            if entry[0] == number {
                if older == 0 {
                    let start = self.book.len() - distance(entry);
                    return Ok(Some((start, length(entry))));
                }
                older -= 1;
            }
        }
        if older == age {
            Ok(None)
        } else {
            Err(Refusal::Missing)
        }
    }
}
