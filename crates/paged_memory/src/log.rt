//! Several epochs, of which a new one begins each time that the memory is kept.

ghost use Rattle.std.specs.Prelude.{◌≡◌, ℕ, ◌<◌, ◌≤◌, [], ◌∷◌, drop, take, length, IfOk, All};
ghost use Rattle.guest_types.specs.Memory.{Memory};
ghost use Rattle.guest_types.specs.declared.memory.TheConstants.{PAGE_BYTES, MOST_PAGES};
ghost use Rattle.paged_memory.specs.Epochs.{Epochs, bytes_at, past_of, undone_first, cleared_first, IsSavedAt};

use crate::epoch::Epoch;
use crate::store::Store;
use std::alloc::{AllocError, Global};
use std::marker::Model;

/// How many epochs there are at most.
const MOST: usize = 8;

/// The epochs of a memory, the newest first. There is none, or memory was taken for all.
#[derive(Drop)]
pub struct Log {
    // How many pages the memory has.
    pages: usize,
    epochs: Vec<Epoch>,
    // How many of the epochs have begun.
    count: usize,
}

impl Model for Log {
    ghost use Rattle.std.specs.Prelude.{take};
    ghost use Rattle.paged_memory.specs.Epochs.{Epochs, IsLog};

    ghost Value = { Epochs };

    ghost view = { λ log. record { pages = log.pages; epochs = take log.count log.epochs.items } };

    ghost invariant = { λ log. IsLog log.pages log.epochs.items log.count };
}

/// Eight epochs in which no page is saved.
fn epochs(alloc: Global, pages: usize) -> Result<Vec<Epoch>, AllocError>
    requires { pages ≤ MOST_PAGES }
    ensures eight { IfOk result (λ epochs. length epochs.items ≡ 8) }
    ensures each { IfOk result (λ epochs.
        All (λ epoch. epoch ≡ record { pages = pages; places = []; images = [] }) epochs.items) }
{
    let mut epochs = Vec::with_capacity(alloc, MOST)?;
    for _ in 0..MOST {
        epochs.push(Epoch::new(alloc, pages)?)?;
    }
    Ok(epochs)
}

impl Log {
    /// No epoch. It takes no memory.
    pub fn none(alloc: Global, pages: usize) -> Log
        requires { pages ≤ MOST_PAGES }
        ensures { result ≡ record { pages = pages; epochs = [] } }
    {
        Log {
            pages,
            epochs: Vec::new(alloc),
            count: 0,
        }
    }

    /// One epoch. It takes the memory of eight.
    pub fn begun(alloc: Global, pages: usize) -> Result<Log, AllocError>
        requires { pages ≤ MOST_PAGES }
        ensures { IfOk result (λ log. log ≡ record {
          pages = pages;
          epochs = record { pages = pages; places = []; images = [] } ∷ [];
        }) }
    {
        let epochs = epochs(alloc, pages)?;
        Ok(Log {
            pages,
            epochs,
            count: 1,
        })
    }

    /// Drops all epochs, for a memory of so many pages.
    pub fn drop_all(&mut self, pages: usize)
        requires { pages ≤ MOST_PAGES }
        ensures { self.new ≡ record { pages = pages; epochs = [] } }
    {
        self.pages = pages;
        self.epochs.clear();
        self.count = 0;
    }

    /// How many epochs have begun.
    pub fn count(&self) -> usize
        ensures value { result ≡ length self.now.epochs }
        ensures few { result ≤ 8 }
    {
        self.count
    }

    /// Saves the page at a place in the newest epoch, where there is one.
    pub fn save(&mut self, place: usize, page: &[u8])
        requires inside { place < self.old.pages }
        requires whole { length page.now ≡ PAGE_BYTES }
        ensures pages { self.new.pages ≡ self.old.pages }
        ensures saved { IsSavedAt place self.new.epochs }
        ensures kept { (other : ℕ) → IsSavedAt other self.old.epochs → IsSavedAt other self.new.epochs }
        ensures same { (memory : Memory) → bytes_at memory place ≡ page.now
            → past_of self.new.epochs memory ≡ past_of self.old.epochs memory }
    {
        if self.count > 0 {
            self.epochs[0].save(place, page);
        }
    }

    /// Begins an epoch, in place of the oldest one where there are eight.
    pub fn note(&mut self)
        requires { 1 ≤ length self.old.epochs }
        ensures few { length self.old.epochs ≤ 8 }
        ensures begun { self.new ≡ record self.old {
          epochs = record { pages = self.old.pages; places = []; images = [] } ∷ take 7 self.old.epochs;
        } }
    {
        self.count = MOST.min(self.count + 1);
        self.epochs.rotate_right(1);
        self.epochs[0].clear();
    }

    /// Puts what the newest epoch saved back, and begins it again.
    pub fn undo_newest(&mut self, store: &mut Store)
        requires { 1 ≤ length self.old.epochs }
        ensures memory { store.new ≡ undone_first self.old.epochs store.old }
        ensures cleared { self.new ≡ record self.old { epochs = cleared_first self.old.epochs } }
    {
        self.epochs[0].undo(store);
        self.epochs[0].clear();
    }

    /// Drops the newest epoch.
    pub fn drop_newest(&mut self)
        requires { 1 ≤ length self.old.epochs }
        ensures { self.new ≡ record self.old { epochs = drop 1 self.old.epochs } }
    {
        self.epochs.rotate_left(1);
        self.count -= 1;
    }
}
