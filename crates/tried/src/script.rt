// The lines of a script, and the numbers in them.
ghost use Rattle.std.specs.Prelude.{◌≡◌, ◌≤◌, ◌++◌, length, IfSome};

use arrayvec::ArrayVec;
use std::str::FromStr;

// The bytes that a case is tried on.
pub(crate) type Bytes = ArrayVec<u8, 3300>;

// A text up to the first byte that ends it, and the rest from that byte on.
pub(crate) fn cut<F: Fn(u8) -> bool + Drop>(text: &[u8], ends: F) -> (&[u8], &[u8])
    requires { F.IsAlwaysCallable ends }
    ensures whole { result.0.now ++ result.1.now ≡ text.now }
    ensures rest { length result.1.now ≤ length text.now }
{
    let end = text.iter().position(|b| ends(*b)).unwrap_or(text.len());
    text.split_at(end)
}

// The number that a text begins with, and what stands after it.
fn number<N: FromStr>(text: &[u8]) -> Option<(N, &[u8])>
where
    N::Err: Drop,
    ensures { IfSome result (λ p. length p.1.now ≤ length text.now) }
{
    let (digits, rest) = cut(text, |b| !b.is_ascii_digit());
    let number = str::from_utf8(digits).ok()?.parse().ok()?;
    Some((number, rest))
}

// Adds the numbers of a line to a list: after a space the number, after `-` all that follow the last number up to this one.
pub(crate) fn listed<const N: usize>(line: &[u8], list: &mut ArrayVec<u8, N>) -> Option<()> {
    let mut text = line;
    while let Some((mark, after)) = text.split_first() {
        let (number, rest) = number(after)?;
        let first = match (*mark, list.last()) {
            (b' ', _) => number,
            (b'-', Some(last)) if *last < number => *last + 1,
            _ => return None,
        };
        list.extend(first..=number).ok()?;
        text = rest;
    }
    Some(())
}

// Changes bytes, and none beyond their end: after `@` stands a place, and then the numbers from there on, one at least.
pub(crate) fn changed(changes: &[u8], bytes: &mut [u8]) -> Option<()> {
    if changes.is_empty() {
        return Some(());
    }
    let mut list = Bytes::new();
    for change in changes.split(|b| *b == b'@').skip(1) {
        let (place, numbers) = number::<usize>(change)?;
        list.clear();
        listed(numbers, &mut list)?;
        if list.is_empty() {
            return None;
        }
        bytes
            .get_mut(place..)?
            .get_mut(..list.len())?
            .copy_from_slice(&list);
    }
    Some(())
}
