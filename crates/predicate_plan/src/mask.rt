//! Plans: a mask for each item.

ghost use Rattle.std.specs.Prelude.{◌≡◌, ◌-◌, ◌<◌, ◌≤◌, [], ◌∷◌, ◌++◌, length, OnOk};
ghost use Rattle.predicate_plan.specs.Masks.{mask_at};

use crate::part::MaskPart;
use std::alloc::{AllocError, Global};
use std::marker::Model;

/// The parts of one mask.
#[derive(Drop)]
pub struct Mask {
    parts: Vec<MaskPart>,
}

/// The mask under which each item of a kernel is evaluated, by its number.
#[derive(Drop)]
pub struct Plan {
    masks: Vec<Mask>,
}

impl Model for Plan {
    ghost use Rattle.std.specs.Prelude.{List, map};
    ghost use Rattle.predicate_plan.specs.declared.part.MaskPart.{MaskPart};
    ghost use Rattle.predicate_plan.specs.View.{parts_of};

    ghost Value = { List (List MaskPart) };

    ghost view = { λ p. map parts_of p.masks.items };
}

impl Plan {
    /// The plan of no item.
    pub(crate) fn new(alloc: Global) -> Self
        ensures { result ≡ [] }
    {
        Plan {
            masks: Vec::new(alloc),
        }
    }

    /// How many items have a mask.
    pub fn len(&self) -> usize
        ensures { result ≡ length self.now }
    {
        self.masks.len()
    }

    /// The number of the last item that has a mask.
    pub(crate) fn last(&self) -> u32
        requires few { length self.now ≤ 1000 }
        ensures { result ≡ length self.now - 1 }
    {
        self.masks.len().saturating_sub(1) as u32
    }

    /// The mask of the next item.
    pub(crate) fn put(&mut self, alloc: Global, mask: &[MaskPart]) -> Result<(), AllocError>
        ensures { OnOk result (self.new ≡ self.old ++ mask.now ∷ []) }
    {
        let parts = mask.to_vec(alloc)?;
        self.masks.push(Mask { parts })?;
        Ok(())
    }

    /// The conditions under which an item is evaluated, each with the truth value that it must have.
    pub fn mask(&self, item: u32) -> &[MaskPart]
        requires { item < length self.now }
        ensures { result.now ≡ mask_at self.now item }
    {
        &self.masks[item as usize].parts
    }
}
