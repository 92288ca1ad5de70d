//! Elements that are written to a part of one page, as what writes it.

ghost use Rattle.std.specs.Prelude.{◌≡◌, ℕ, ◌+◌, ◌*◌, ◌<◌, ◌≤◌, true};
ghost use Rattle.guest_types.specs.Length.{all_lanes, width_bytes};
ghost use Rattle.guest_types.specs.Elements.{active};
ghost use Rattle.lane_memory.specs.Writings.{IsWritten};
ghost use Rattle.lane_memory.specs.Parts.{FitsPart, FitsWhole};

use crate::write::{write_part, write_whole};
use crate::writing::Writing;
use guest_types::predicate::PReg;
use guest_types::register::ZReg;
use paged_memory::span_writer::SpanWriter;

/// The active of so many elements from a place on.
#[derive(Clone, Copy)]
pub struct Part<'a> {
    pub writing: Writing,
    pub pg: &'a PReg,
    pub z: &'a ZReg,
    pub from: usize,
    pub count: usize,
}

impl SpanWriter for Part<'_> {
    ghost can = { λ part len. FitsPart part.writing part.from part.count len };

    ghost writes = { λ part old new. IsWritten part.writing part.pg.now.bits part.z.now.bytes part.from part.count old new };

    #[inline(always)]
    fn write(&self, part: &mut [u8]) {
        write_part(self, part);
    }
}

/// The same where all of them are active, and as wide in memory as in the register.
#[derive(Clone, Copy)]
pub struct Whole<'a>(pub Part<'a>);

impl SpanWriter for Whole<'_> {
    ghost can = { λ whole len. FitsWhole whole.0.writing whole.0.pg.now.bits whole.0.from whole.0.count len };

    ghost writes = { λ whole old new. let part = whole.0 in
        IsWritten part.writing part.pg.now.bits part.z.now.bytes part.from part.count old new };

    #[inline(always)]
    fn write(&self, part: &mut [u8]) {
        write_whole(&self.0, part);
    }
}
