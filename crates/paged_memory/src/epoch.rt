//! What pages were before they were first written.

ghost use Rattle.std.specs.Prelude.{◌≡◌, ℕ, ◌*◌, ◌<◌, ◌≤◌, [], true, length, IfOk};
ghost use Rattle.guest_types.specs.Memory.{Memory};
ghost use Rattle.guest_types.specs.declared.memory.TheConstants.{PAGE_BYTES, MOST_PAGES};
ghost use Rattle.paged_memory.specs.Epochs.{bytes_at, undone, put_back, cleared, has_place, unmarked};

use crate::head::PAGE_LEN;
use crate::store::Store;
use std::alloc::{AllocError, Global};
use std::marker::Model;

/// Puts images back into the pages at their places, the last first.
fn put_back(store: &mut Store, places: &[usize], images: &[u8])
    requires { length images.now ≡ PAGE_BYTES * length places.now }
    ensures { store.new ≡ put_back places.now images.now store.old }
{
    let mut k = places.len();
    while k > 0 {
        k -= 1;
        store.put_page(places[k], &images[PAGE_LEN * k..PAGE_LEN * k + PAGE_LEN]);
    }
}

/// Takes away the marks of the pages at some places.
fn unmark(marks: &mut Vec<bool>, places: &[usize])
    ensures { marks.new.items ≡ unmarked places.now marks.old.items }
{
    for place in places {
        if *place < marks.len() {
            marks[*place] = false;
        }
    }
}

/// The pages that were written since a memory was kept, each as it was before its first write. It takes all its memory
/// when it is made.
#[derive(Drop)]
pub struct Epoch {
    marks: Vec<bool>,
    places: Vec<usize>,
    images: Vec<u8>,
}

impl Model for Epoch {
    ghost use Rattle.std.specs.Prelude.{length, vec_capacity};
    ghost use Rattle.paged_memory.specs.Epochs.{Saved, IsEpoch};

    ghost Value = { Saved };

    ghost view = { λ epoch. record {
      pages = length epoch.marks.items;
      places = epoch.places.items;
      images = epoch.images.items;
    } };

    ghost invariant = { λ epoch. IsEpoch epoch.marks.items epoch.places.items epoch.images.items
        (vec_capacity epoch.places) (vec_capacity epoch.images) };
}

impl Epoch {
    /// One in which no page is saved yet.
    pub fn new(alloc: Global, pages: usize) -> Result<Epoch, AllocError>
        requires { pages ≤ MOST_PAGES }
        ensures { IfOk result (λ epoch. epoch ≡ record { pages = pages; places = []; images = [] }) }
    {
        let marks = vec![in alloc; false; pages]?;
        let places = Vec::with_capacity(alloc, pages)?;
        let images = Vec::with_capacity(alloc, PAGE_LEN * pages)?;
        Ok(Epoch {
            marks,
            places,
            images,
        })
    }

    /// Saves the page at a place, where it is not saved yet. It takes no memory.
    pub fn save(&mut self, place: usize, page: &[u8])
        requires inside { place < self.old.pages }
        requires whole { length page.now ≡ PAGE_BYTES }
        ensures pages { self.new.pages ≡ self.old.pages }
        ensures saved { has_place place self.new.places ≡ true }
        ensures kept { (other : ℕ) → has_place other self.old.places ≡ true → has_place other self.new.places ≡ true }
        ensures same { (memory : Memory) → bytes_at memory place ≡ page.now
            → undone self.new memory ≡ undone self.old memory }
    {
        if self.marks[place] {
            return;
        }
        self.marks[place] = true;
        self.places.push_reserved(place);
        self.images.extend_from_slice(page).unwrap();
    }

    /// Puts what is saved back.
    pub fn undo(&self, store: &mut Store)
        ensures { store.new ≡ undone self.now store.old }
    {
        put_back(store, &self.places, &self.images);
    }

    /// Saves nothing any more. The memory that it took stays. Only the marks of pages that are saved are touched, so that this
    /// costs nothing where few were written.
    pub fn clear(&mut self)
        ensures { self.new ≡ cleared self.old }
    {
        unmark(&mut self.marks, &self.places);
        self.places.clear();
        self.images.clear();
    }
}
