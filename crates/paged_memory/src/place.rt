//! The places of pages among their heads.

ghost use Rattle.std.specs.Prelude.{◌≡◌, ◌≢◌, ℕ, ◌<◌, ◌≤◌, ◌↔◌, All, IfSome, IfNone, IsTrue};
ghost use Rattle.std.specs.List.Sorted.{IsStrictlyIncreasing};
ghost use Rattle.paged_memory.specs.Layout.{head_numbers, StandsAt};

use crate::head::Head;
use std::cell::Cell;

/// The place of the page with a number, found by halves.
#[inline(never)]
pub fn search(heads: &[Head], number: u64) -> Option<usize>
    requires { IsStrictlyIncreasing (head_numbers heads.now) }
    ensures found { IfSome result (StandsAt heads.now number) }
    ensures absent { IfNone result (All (λ here. here ≢ number) (head_numbers heads.now)) }
{
    let mut low = 0;
    let mut high = heads.len();
    while low < high {
        let middle = low + (high - low) / 2;
        let here = heads[middle].number;
        if here == number {
            return Some(middle);
        }
        if here < number {
            low = middle + 1;
        } else {
            high = middle;
        }
    }
    None
}

/// Whether the page with a number stands at a place.
#[inline(always)]
pub fn stands_at(heads: &[Head], number: u64, place: usize) -> bool
    ensures { IsTrue result ↔ StandsAt heads.now number place }
{
    place < heads.len() && heads[place].number == number
}

/// The places where the last look-ups of each kind ended. A page that stands at one of them is
/// found with no search.
#[derive(Drop)]
pub struct Recent {
    pub fetched: Cell<usize>,
    pub written: Cell<usize>,
    pub read: Cell<usize>,
    pub read_before: Cell<usize>,
}

impl Recent {
    /// As before any look-up: each place is the first one.
    pub fn new() -> Self {
        Recent {
            fetched: Cell::new(0),
            written: Cell::new(0),
            read: Cell::new(0),
            read_before: Cell::new(0),
        }
    }
}

/// The place of the page with a number, which is remembered.
#[inline(never)]
fn search_again(heads: &[Head], recent: &Cell<usize>, number: u64) -> Option<usize>
    requires { IsStrictlyIncreasing (head_numbers heads.now) }
    ensures found { IfSome result (StandsAt heads.now number) }
    ensures absent { IfNone result (All (λ here. here ≢ number) (head_numbers heads.now)) }
{
    let place = search(heads, number)?;
    recent.set(place);
    Some(place)
}

/// The place of the page with a number, where the last look-up may have ended. What a search answers is made anew: handed on as it
/// came, it would be joined with the other answers as a pair, and each of them tested once more.
#[inline(always)]
pub fn place_of(heads: &[Head], recent: &Cell<usize>, number: u64) -> Option<usize>
    requires { IsStrictlyIncreasing (head_numbers heads.now) }
    ensures found { IfSome result (StandsAt heads.now number) }
    ensures absent { IfNone result (All (λ here. here ≢ number) (head_numbers heads.now)) }
{
    let place = recent.get();
    if stands_at(heads, number, place) {
        return Some(place);
    }
    match search_again(heads, recent, number) {
        Some(place) => Some(place),
        None => None,
    }
}

/// The place of the page with a number, which is remembered beside the last one before it.
#[inline(never)]
fn search_read_again(heads: &[Head], recent: &Recent, number: u64) -> Option<usize>
    requires { IsStrictlyIncreasing (head_numbers heads.now) }
    ensures found { IfSome result (StandsAt heads.now number) }
    ensures absent { IfNone result (All (λ here. here ≢ number) (head_numbers heads.now)) }
{
    let place = search(heads, number)?;
    recent.read_before.set(recent.read.get());
    recent.read.set(place);
    Some(place)
}

/// The place of the page with a number to be read, where one of the last two searches for a read
/// may have ended. What a search answers is made anew, as in `place_of`.
#[inline(always)]
pub fn read_place_of(heads: &[Head], recent: &Recent, number: u64) -> Option<usize>
    requires { IsStrictlyIncreasing (head_numbers heads.now) }
    ensures found { IfSome result (StandsAt heads.now number) }
    ensures absent { IfNone result (All (λ here. here ≢ number) (head_numbers heads.now)) }
{
    let place = recent.read.get();
    if stands_at(heads, number, place) {
        return Some(place);
    }
    let before = recent.read_before.get();
    if stands_at(heads, number, before) {
        return Some(before);
    }
    match search_read_again(heads, recent, number) {
        Some(place) => Some(place),
        None => None,
    }
}
