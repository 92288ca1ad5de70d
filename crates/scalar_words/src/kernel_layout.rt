//! The layout of a kernel: where the values of its items are kept.

ghost use Rattle.std.specs.Prelude.{◌≡◌, ◌+◌, ◌<◌, ◌≤◌, ◌++◌, IfOk, OnOk, length, map, option_map};
ghost use Rattle.loop_form.specs.Listing.{listing_of};
ghost use Rattle.loop_form.specs.View.{program};
ghost use Rattle.kernel_tree.specs.Plain.{name_of};
ghost use Rattle.reg_assign.specs.declared.interval.RegClass.TheVariants.{X};
ghost use Rattle.reg_assign.specs.Registers.{IsAssignment};
ghost use Rattle.loop_form.specs.Registers.{FitsKernel};
ghost use Rattle.scalar_words.specs.Layout.{reg_of, last_use_at, constant_at, with_constants, loose_in, with_loose};
ghost use Rattle.scalar_words.specs.View.{constants_of, looses_of, form_of, key_of, register_number};
ghost use Rattle.scalar_words.specs.KernelRegisters.{counted_x, register_in, count_values, item_regs, item_last_use, layout_of_kernel};

use crate::constant::{Constant, Key, constant_in};
use crate::laws::each_has_a_register;
use crate::loose::{Form, Loose, loose_form};
use a64_code::Reg;
use kernel_tree::{Checked, Name};
use loop_form::Item;
use loop_form::laws::few_items;
use reg_assign::Assigned;
use std::alloc::{AllocError, Global};
use std::marker::Model;
use word_rows::Bits;

/// The register and the last use of each item, the registers that hold numbers and addresses, and the names that are held
/// loosely.
#[derive(Drop)]
pub struct KernelLayout<'a> {
    regs: Vec<Reg>,
    last_uses: Vec<usize>,
    constants: Vec<Constant>,
    loose: Vec<Loose<'a>>,
}

impl<'a> Model for KernelLayout<'a> {
    ghost use Rattle.scalar_words.specs.Layout.{Layout};
    ghost use Rattle.scalar_words.specs.View.{layout_of};

    ghost Value = { Layout };

    ghost view = { λ p. layout_of p.regs.items p.last_uses.items p.constants.items p.loose.items };
}

impl<'a> KernelLayout<'a> {
    /// The register of an item.
    pub fn reg(&self, item: usize) -> Reg
        ensures { result.number ≡ reg_of self.now item }
    {
        match self.regs.get(item) {
            Some(r) => *r,
            None => Bits { number: 0 },
        }
    }

    /// The last use of an item.
    pub fn last_use(&self, item: usize) -> usize
        ensures { result ≡ last_use_at self.now item }
    {
        match self.last_uses.get(item) {
            Some(r) => *r,
            None => 0,
        }
    }

    /// The register that holds a number, or an address.
    pub fn constant(&self, key: Key) -> Option<Reg>
        ensures { option_map register_number result ≡ constant_at self.now (key_of key) }
    {
        constant_in(&self.constants, key)
    }

    /// What is held.
    pub fn constants(&self) -> &[Constant]
        ensures { constants_of result.now ≡ self.now.constants }
    {
        &self.constants
    }

    /// These are held, and no others.
    pub fn hold(&mut self, constants: Vec<Constant>)
        ensures { self.new ≡ with_constants self.old (constants_of constants.items) }
    {
        self.constants = constants;
    }

    /// What stands in a name's register; None where the value itself does.
    pub fn loose_form(&self, name: &Name) -> Option<Form>
        ensures { option_map form_of result ≡ loose_in self.now.loose (name_of name.now) }
    {
        loose_form(&self.loose, name)
    }

    /// The names that are held loosely.
    pub fn loose(&self) -> &[Loose<'a>]
        ensures { looses_of result.now ≡ self.now.loose }
    {
        &self.loose
    }

    /// These are held loosely, and no others.
    pub fn loosen(&mut self, loose: Vec<Loose<'a>>)
        ensures { self.new ≡ with_loose self.old (looses_of loose.entry.items) }
    {
        self.loose = loose;
    }
}

/// The register of an interval, by the numbers of the registers of all of them: X10 to X17 and X19 to X25 are counted.
pub fn counted_register(regs: &Assigned, interval: usize) -> Reg
    requires assigned { IsAssignment 15 regs.now }
    requires within { interval < length regs.now.registers }
    ensures { result.number ≡ counted_x (register_in regs.now interval) }
{
    let number = regs.register(interval);
    if number < 8 {
        Bits {
            number: 10 + number,
        }
    } else {
        Bits {
            number: 11 + number,
        }
    }
}

// The registers and the last uses of items, the first interval of which has this number.
fn place_items(
    found: &mut Vec<Reg>,
    last_uses: &mut Vec<usize>,
    regs: &Assigned,
    first: usize,
    items: &[Item],
) -> Result<(), AllocError>
    requires assigned { IsAssignment 15 regs.now }
    requires within { first + count_values items.now ≤ length regs.now.registers }
    requires room { first ≤ 1000 }
    ensures regs { OnOk result (map register_number found.new.items
        ≡ map register_number found.old.items ++ item_regs (register_in regs.now) first items.now) }
    ensures last_uses { OnOk result (last_uses.new.items ≡ last_uses.old.items ++ map item_last_use items.now) }
{
    let mut interval = first;
    for item in items {
        last_uses.push(item.x_last_use.unwrap_or(0) as usize)?;
        match item.x_last_use {
            None => found.push(Bits { number: 0 })?,
            Some(_) => {
                found.push(counted_register(regs, interval))?;
                interval += 1;
            }
        }
    }
    Ok(())
}

/// The layout of a kernel by its listing and the registers of its intervals of class X.
#[tactic(auto, unfolding(loop_form::specs::View::program))]
pub fn lay_out<'a>(
    alloc: Global,
    kernel: &Checked,
    items: &[Item],
    regs: &Assigned,
) -> Result<KernelLayout<'a>, AllocError>
    requires fits { FitsKernel (program kernel.now) X regs.now }
    requires listed { items.now ≡ listing_of (program kernel.now) }
    ensures { IfOk result (λ p. p ≡ layout_of_kernel (register_in regs.now) (program kernel.now)) }
{
    few_items(kernel);
    each_has_a_register(kernel, regs);
    let vars = kernel.kernel().vars.len();
    let mut found = Vec::new(alloc);
    let mut last_uses = Vec::new(alloc);
    place_items(&mut found, &mut last_uses, regs, vars, items)?;
    Ok(KernelLayout {
        regs: found,
        last_uses,
        constants: Vec::new(alloc),
        loose: Vec::new(alloc),
    })
}
