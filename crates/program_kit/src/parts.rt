// Parts of lists, and which slice is meant.
ghost use Rattle.std.specs.Prelude.{◌≡◌, ◌+◌, ◌≤◌, ◌<◌, ◌↔◌, IfSome, IsSome, [], length, take, drop};

// One of the slices that are lent.
#[derive(Clone, Copy, PartialEq, Eq)]
pub enum Buffer {
    TypeIds,
    Offsets,
    Values,
    Masks,
    Names,
}

// The n entries from a start on, if they are there.
pub fn part<T>(list: &[T], start: usize, n: usize) -> Option<&[T]>
    ensures there { IsSome result ↔ (start + n ≤ length list.now) }
    ensures entries { IfSome result (λ p. p.now ≡ take n (drop start list.now)) }
{
    list.get(start..)?.get(..n)
}

// The same; no entries if they are not there.
pub fn part_or_empty<T>(list: &[T], start: usize, n: usize) -> &[T]
    ensures there { start + n ≤ length list.now → result.now ≡ take n (drop start list.now) }
    ensures empty { length list.now < start + n → result.now ≡ [] }
{
    part(list, start, n).unwrap_or(&[])
}

// The first n entries, or all if they are fewer.
pub fn first<T>(list: &[T], n: usize) -> &[T]
    ensures entries { result.now ≡ take n list.now }
    ensures most { length result.now ≤ n }
{
    &list[..n.min(list.len())]
}

// How many of n entries are lent: one less to a call that is short of them, at most what there are.
pub fn lent(n: usize, short: bool, most: usize) -> usize
    ensures { result ≤ most }
{
    n.saturating_sub(usize::from(short)).min(most)
}
