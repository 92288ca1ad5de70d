//! The forms of vector loads and stores.

ghost use Rattle.std.specs.Prelude.{◌≡◌, ◌<◌, ◌≤◌, IsSome, IfSome, ◌↔◌};
ghost use Rattle.guest_types.specs.LaneMemory.{load_form, width_of_size};

use crate::length::Width;

/// How a vector load treats an element that would fault: LD1, LDFF1 and LDNF1.
#[derive(Clone, Copy, PartialEq, Eq)]
pub enum LoadMode {
    Plain,
    FirstFault,
    NonFault,
}

/// The memory and element width of a vector load, by the number in its field `dtype`.
#[derive(Clone, Copy)]
pub struct LoadRow {
    pub dtype: u32,
    pub ghost in_range: { dtype < 16 },
}

impl LoadRow {
    /// The row of this number, where there is one.
    pub fn new(dtype: u32) -> Option<Self>
        ensures valid { IsSome result ↔ (dtype < 16) }
        ensures value { IfSome result (λ row. row.dtype ≡ dtype) }
    {
        if dtype < 16 {
            Some(LoadRow { dtype })
        } else {
            None
        }
    }

    /// The width of an element in memory.
    pub fn memory(self) -> Width
        ensures { result ≡ (load_form self.dtype).memory }
    {
        match self.dtype {
            0 | 1 | 2 | 3 | 12 | 13 | 14 => Width::B,
            5 | 6 | 7 | 8 | 9 => Width::H,
            4 | 10 | 11 => Width::S,
            _ => Width::D,
        }
    }

    /// The width of an element in the register.
    pub fn element(self) -> Width
        ensures { result ≡ (load_form self.dtype).element }
    {
        match self.dtype {
            0 => Width::B,
            1 | 5 | 14 => Width::H,
            2 | 6 | 9 | 10 | 13 => Width::S,
            _ => Width::D,
        }
    }

    /// Whether the element is the sign extension of what was read.
    pub fn is_signed(self) -> bool
        ensures { result ≡ (load_form self.dtype).signed }
    {
        matches!(self.dtype, 4 | 8 | 9 | 12 | 13 | 14)
    }
}

/// The memory and element width of a vector store, as logarithms of bytes.
#[derive(Clone, Copy)]
pub struct StoreRow {
    pub msz: u32,
    pub size: u32,
    pub ghost no_wider: { msz ≤ size },
    pub ghost in_range: { size ≤ 3 },
}

impl StoreRow {
    /// The row of these sizes, where there is one.
    pub fn new(msz: u32, size: u32) -> Option<Self>
        ensures valid { IsSome result ↔ ((msz ≤ size) × (size ≤ 3)) }
        ensures value { IfSome result (λ row. (row.msz ≡ msz) × (row.size ≡ size)) }
    {
        if msz <= size && size <= 3 {
            Some(StoreRow { msz, size })
        } else {
            None
        }
    }

    /// The width of an element in memory.
    pub fn memory(self) -> Width
        ensures { result ≡ width_of_size self.msz }
    {
        Width::of(self.msz)
    }

    /// The width of an element in the register.
    pub fn element(self) -> Width
        ensures { result ≡ width_of_size self.size }
    {
        Width::of(self.size)
    }
}
