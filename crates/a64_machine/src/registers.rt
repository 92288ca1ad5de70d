//! General registers by number.

ghost use Rattle.std.specs.Prelude.{◌≡◌, ◌+◌, ◌%◌, ◌^◌, nat_eq, if◌then◌else◌, slice_index, slice_set};

use crate::core_state::Core;
use crate::prepared_form::General;
use a64_code::Reg;

impl General {
    /// The register among all.
    #[inline(always)]
    pub fn register(self) -> Reg
        ensures { result.number ≡ self.number }
    {
        Reg::new(self.number)
    }
}

impl Core {
    /// The general register of a number, where 31 reads as 0.
    #[inline(always)]
    pub fn register(&self, number: Reg) -> u64
        ensures { result ≡ slice_index self.now.x number.number }
    {
        match self.x.get(number.number as usize) {
            Some(value) => *value,
            None => 0,
        }
    }

    /// The general register of a number, where 31 is the stack pointer.
    #[inline(always)]
    pub fn register_or_sp(&self, number: Reg) -> u64
        ensures { result ≡ (if nat_eq number.number 31 then self.now.sp else slice_index self.now.x number.number) }
    {
        match self.x.get(number.number as usize) {
            Some(value) => *value,
            None => self.sp,
        }
    }

    /// Writes the general register of a number, where a write to 31 does nothing.
    #[inline(always)]
    pub fn set_register(&mut self, number: Reg, value: u64)
        ensures { self.new ≡ record self.old { x = slice_set self.old.x number.number value } }
    {
        if number.number < 31 {
            self.x[number.number as usize] = value;
        }
    }

    /// Writes the general register of a number, where 31 is the stack pointer.
    #[inline(always)]
    pub fn set_register_or_sp(&mut self, number: Reg, value: u64)
        ensures { self.new ≡ (if nat_eq number.number 31 then record self.old { sp = value } else
            record self.old { x = slice_set self.old.x number.number value }) }
    {
        if number.number < 31 {
            self.x[number.number as usize] = value;
        } else {
            self.sp = value;
        }
    }

    /// One of X0 to X30.
    #[inline(always)]
    pub fn general(&self, number: General) -> u64
        ensures { result ≡ slice_index self.now.x number.number }
    {
        self.x[number.number as usize]
    }

    /// Writes one of X0 to X30.
    #[inline(always)]
    pub fn set_general(&mut self, number: General, value: u64)
        ensures { self.new ≡ record self.old { x = slice_set self.old.x number.number value } }
    {
        self.x[number.number as usize] = value;
    }

    /// Goes on to the next word.
    #[inline(always)]
    pub fn go_on(&mut self)
        ensures { self.new ≡ record self.old { pc = (self.old.pc + 4) % 2 ^ 64 } }
    {
        self.pc = self.pc.wrapping_add(4);
    }
}
