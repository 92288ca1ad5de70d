//! What `check` prints of a kernel.
#![tactic(auto)]

ghost use Rattle.std.specs.Prelude.{◌≡◌, ◌++◌, ◌∷◌, [], OnOk, IfOk, string_bytes, decimal};
ghost use Rattle.kernel_tree.specs.Plain.{program_of};
ghost use Rattle.kernel_tree.specs.Checked.{kernel_of};
ghost use Rattle.kernel_tree.specs.Printing.{canonical_text};
ghost use Rattle.check_text.specs.CheckText.{check_text, line, why_text, kind_text, class_text, need_text, size_text};

use dependence::reason::{Class, Why};
use guest_types::length::Width;
use itoa::Buffer;
use kernel_print::print_kernel;
use kernel_tree::{Checked, Kernel};
use loop_class::class;
use loop_form::need::Needs;
use loop_lists::{lane_width, needs};
use std::alloc::{AllocError, Global};

/// The text of a checked kernel: its canonical text, its size in items, its class, and the registers that it needs, also
/// where these are more than there are. Each of the four lines ends with a line feed.
#[tactic(auto, unfolding(crate::specs::CheckText::check_text))]
pub fn check_text(alloc: Global, kernel: &Checked) -> Result<Vec<u8>, AllocError>
    ensures { IfOk result (λ text. text.items ≡ check_text (program_of (kernel_of kernel.now))) }
{
    let needs = needs(alloc, kernel)?;
    let class = class(kernel);
    let mut text = Vec::new(alloc);
    push_kernel(&mut text, alloc, kernel.kernel())?;
    push_size(&mut text, &needs)?;
    push_class(&mut text, class, lane_width(kernel))?;
    push_need(&mut text, class, &needs)?;
    Ok(text)
}

// The line of the kernel itself.
fn push_kernel(text: &mut Vec<u8>, alloc: Global, kernel: &Kernel) -> Result<(), AllocError>
    ensures { OnOk result (text.new.items ≡ text.old.items ++ line (canonical_text (program_of kernel.now))) }
{
    let canonical = print_kernel(alloc, kernel)?;
    text.extend_from_slice(canonical.as_bytes())?;
    text.extend_from_slice(b"\n")
}

// The line of the size.
fn push_size(text: &mut Vec<u8>, needs: &Needs) -> Result<(), AllocError>
    ensures { OnOk result (text.new.items ≡ text.old.items ++ line (size_text needs.now)) }
{
    text.extend_from_slice(b"size ")?;
    push_number(text, needs.size)?;
    text.extend_from_slice(b"\n")
}

// The line of the class.
fn push_class(text: &mut Vec<u8>, class: Class, width: Width) -> Result<(), AllocError>
    ensures { OnOk result (text.new.items ≡ text.old.items ++ line (class_text class width)) }
{
    text.extend_from_slice(b"class ")?;
    push_kind(text, class, width)?;
    text.extend_from_slice(b"\n")
}

// Vector with the width of the lanes, or scalar with the reason.
fn push_kind(text: &mut Vec<u8>, class: Class, width: Width) -> Result<(), AllocError>
    ensures { OnOk result (text.new.items ≡ text.old.items ++ kind_text class width) }
{
    match class {
        Class::Vector => {
            text.extend_from_slice(b"vector ")?;
            push_number(text, width.bits())?;
        }
        Class::Scalar { why } => {
            text.extend_from_slice(b"scalar ")?;
            text.extend_from_slice(why_name(why))?;
        }
    }
    Ok(())
}

// The line of the registers.
fn push_need(text: &mut Vec<u8>, class: Class, needs: &Needs) -> Result<(), AllocError>
    ensures { OnOk result (text.new.items ≡ text.old.items ++ line (need_text class needs.now)) }
{
    match class {
        Class::Vector => push_vector_need(text, needs)?,
        Class::Scalar { .. } => {
            text.extend_from_slice(b"need x ")?;
            push_number(text, needs.x)?;
        }
    }
    text.extend_from_slice(b"\n")
}

// The registers of every class.
fn push_vector_need(text: &mut Vec<u8>, needs: &Needs) -> Result<(), AllocError>
    ensures { OnOk result (text.new.items ≡ text.old.items ++ need_text Class.Vector needs.now) }
{
    text.extend_from_slice(b"need z ")?;
    push_number(text, needs.z)?;
    text.extend_from_slice(b" p ")?;
    push_number(text, needs.p)?;
    text.extend_from_slice(b" x ")?;
    push_number(text, needs.x)
}

fn push_number(text: &mut Vec<u8>, number: u32) -> Result<(), AllocError>
    ensures { OnOk result (text.new.items ≡ text.old.items ++ decimal number) }
{
    let mut buffer = Buffer::new();
    text.extend_from_slice(buffer.format(number).as_bytes())
}

// The word for why a loop is scalar.
fn why_name(why: Why) -> &'static [u8]
    ensures { result.now ≡ why_text why }
{
    match why {
        Why::NoLoop => b"noloop",
        Why::AccumulatorRead => b"accumulator",
        Why::MixedUpdate => b"mixed",
        Why::BeforeBreak => b"break",
        Why::ComputedIndex => b"computed",
        Why::Carried => b"carried",
    }
}
