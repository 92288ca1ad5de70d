//! The words of constants, extensions and operators.

ghost use Rattle.std.specs.Prelude.{◌≡◌, ◌<◌, true, ◌∷◌, []};
ghost use Rattle.label_fix.specs.Draft.{word_view};
ghost use Rattle.label_fix.specs.Finished.{is_plain};
ghost use Rattle.a64_code.specs.Table as table;
ghost use Rattle.scalar_words.specs.Words as words;
ghost use Rattle.scalar_words.specs.Operands as operands;
ghost use Rattle.label_fix.specs.DraftRun as plain;
ghost use Rattle.label_fix.specs.Registers.{xzr};
ghost use Rattle.a64_code.specs.View as seen;

use a64_code::{
    A64, AddSubOp, AddSubShift, BitfieldOp, Cond, LogicalOp, MoveWideOp, MultiplyOp, Reg, SelectOp,
    Shift, zero,
};
use kernel_tree::{BinaryOp, CompareOp, Ty};
use label_fix::Word;
use word_rows::Bits;

/// ADD, SUB or SUBS, unshifted.
pub fn add_sub(op: AddSubOp, d: Reg, a: Reg, b: Reg) -> Word
    ensures { word_view result ≡ plain.word_of (seen.add_sub_shifted_name op)
        (d.number ∷ a.number ∷ 0 ∷ b.number ∷ 0 ∷ []) }
{
    Word::A(A64::AddSubShifted {
        op,
        rd: d,
        rn: a,
        imm6: Bits { number: 0 },
        rm: b,
        shift: AddSubShift::Lsl,
    })
}

/// AND, ORR, EOR or ORN, unshifted.
pub fn logical(op: LogicalOp, d: Reg, a: Reg, b: Reg) -> Word
    ensures { word_view result ≡ plain.word_of (seen.logical_name op) (d.number ∷ a.number ∷ 0 ∷ b.number ∷ 0 ∷ []) }
{
    Word::A(A64::LogicalShifted {
        op,
        rd: d,
        rn: a,
        imm6: Bits { number: 0 },
        rm: b,
        shift: Shift::Lsl,
    })
}

/// A register into another one.
pub fn copy(d: Reg, a: Reg) -> Word
    ensures { plain.Put (word_view result) ≡ words.copy d.number a.number }
{
    logical(LogicalOp::Orr, d, zero(), a)
}

/// The low bits of a register, extended by their type.
pub fn extending(ty: Ty, d: Reg, a: Reg) -> Word
    ensures { word_view result ≡ words.extending ty d.number a.number }
{
    let top = ty.bits() - 1;
    if ty.is_signed() {
        field(BitfieldOp::Sbfm, d, a, top)
    } else {
        field(BitfieldOp::Ubfm, d, a, top)
    }
}

// The low bits of a register up to this one, extended.
fn field(op: BitfieldOp, d: Reg, a: Reg, top: u32) -> Word
    requires { top < 64 }
    ensures { word_view result ≡ plain.word_of (seen.bitfield_name op) (d.number ∷ a.number ∷ top ∷ 0 ∷ []) }
{
    Word::A(A64::Bitfield {
        op,
        rd: d,
        rn: a,
        imms: Bits { number: top },
        immr: Bits { number: 0 },
    })
}

/// MOVZ or MOVK.
pub fn wide(op: MoveWideOp, d: Reg, imm: u32, hw: u32) -> Word
    requires part { imm < 65536 }
    requires place { hw < 4 }
    ensures { word_view result ≡ plain.word_of (seen.move_wide_name op) (d.number ∷ imm ∷ hw ∷ []) }
{
    Word::A(A64::MoveWide {
        op,
        rd: d,
        imm16: Bits { number: imm },
        hw: Bits { number: hw },
    })
}

/// MADD with the zero register.
pub fn multiply(d: Reg, a: Reg, b: Reg) -> Word
    ensures { word_view result ≡ plain.word_of table.madd (d.number ∷ a.number ∷ xzr ∷ b.number ∷ []) }
{
    Word::A(A64::MultiplyAdd {
        op: MultiplyOp::Madd,
        rd: d,
        rn: a,
        ra: zero(),
        rm: b,
    })
}

/// CSEL or CSINC.
pub fn select(op: SelectOp, d: Reg, a: Reg, cond: Cond, b: Reg) -> Word
    ensures { word_view result ≡ plain.word_of (seen.select_name op)
        (d.number ∷ a.number ∷ seen.cond_number cond ∷ b.number ∷ []) }
{
    Word::A(A64::ConditionalSelect {
        op,
        rd: d,
        rn: a,
        cond,
        rm: b,
    })
}

/// The condition that holds of two operands.
pub fn condition(op: CompareOp, signed: bool) -> Cond
    ensures { seen.cond_number result ≡ words.condition op signed }
{
    match op {
        CompareOp::Eq => Cond::Eq,
        CompareOp::Ne => Cond::Ne,
        CompareOp::Lt => { if signed { Cond::Lt } else { Cond::Lo } }
        CompareOp::Le => { if signed { Cond::Le } else { Cond::Ls } }
        CompareOp::Gt => { if signed { Cond::Gt } else { Cond::Hi } }
        CompareOp::Ge => { if signed { Cond::Ge } else { Cond::Hs } }
    }
}

/// The word of an operator with two operands that writes its result.
pub fn operation_word(op: BinaryOp, signed: bool, d: Reg, a: Reg, b: Reg) -> Word
    ensures plain { is_plain (word_view result) ≡ true }
    ensures word { word_view result ≡ operands.operation_word op signed d.number a.number b.number }
{
    let greater = condition(CompareOp::Gt, signed);
    match op {
        BinaryOp::Add => add_sub(AddSubOp::Add, d, a, b),
        BinaryOp::Sub => add_sub(AddSubOp::Sub, d, a, b),
        BinaryOp::Mul => multiply(d, a, b),
        BinaryOp::And => logical(LogicalOp::And, d, a, b),
        BinaryOp::Or => logical(LogicalOp::Orr, d, a, b),
        BinaryOp::Xor => logical(LogicalOp::Eor, d, a, b),
        BinaryOp::Min => select(SelectOp::Csel, d, b, greater, a),
        BinaryOp::Max => select(SelectOp::Csel, d, a, greater, b),
    }
}

/// Whether a type has fewer bits than a register.
pub fn is_narrow(ty: Ty) -> bool
    ensures { result ≡ words.is_narrow ty }
{
    ty.bits() < 64
}

fn count_halves(number: u32, h0: u32, h1: u32, h2: u32, h3: u32) -> u32
    ensures { result ≡ words.count_halves number h0 h1 h2 h3 }
{
    u32::from(h0 == number)
        + u32::from(h1 == number)
        + u32::from(h2 == number)
        + u32::from(h3 == number)
}

/// Whether more halves of a word are all ones than are zero.
pub fn has_ones(h0: u32, h1: u32, h2: u32, h3: u32) -> bool
    ensures { result ≡ words.has_ones h0 h1 h2 h3 }
{
    count_halves(0, h0, h1, h2, h3) < count_halves(65535, h0, h1, h2, h3)
}

/// The half of which no word is needed.
pub fn filler(ones: bool) -> u32
    ensures { result ≡ words.filler ones }
{
    if ones { 65535 } else { 0 }
}
