//! Numbers and places of the resolved graph.
ghost use Rattle.std.specs.Prelude.{◌≡◌, ◌+◌};
ghost use Rattle.yt_names.specs.Resolved.{size_of, place_of, count_of, number_of};

use yt_graph::Num;

/// A place, which is 0 where 32 bits don't hold it.
pub(crate) fn place_of(n: usize) -> u32
    ensures { result ≡ place_of n }
{
    match u32::try_from(n) {
        Ok(place) => place,
        Err(_) => 0,
    }
}

/// The place so many behind another.
pub(crate) fn place_behind(first: usize, k: usize) -> u32
    ensures { result ≡ place_of (first + k) }
{
    match first.checked_add(k) {
        None => 0,
        Some(n) => place_of(n),
    }
}

/// The number from 1 of what has a place from 0.
pub(crate) fn number_of(place: usize) -> u32
    ensures { result ≡ number_of place }
{
    place_behind(place, 1)
}

/// A number of the text as a count.
pub(crate) fn count_of(n: Num) -> u32
    ensures { result ≡ count_of n }
{
    match u32::try_from(n.value) {
        Ok(count) => count,
        Err(_) => 0,
    }
}

/// A number of the text without its sign.
pub(crate) fn size_of(n: Num) -> u64
    ensures { result ≡ size_of n.value }
{
    match u64::try_from(n.value) {
        Ok(size) => size,
        Err(_) => 0,
    }
}
