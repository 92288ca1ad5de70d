//! The instructions of one item.

ghost use Rattle.std.specs.Prelude.{◌≡◌, ◌<◌, ◌≤◌, ◌%◌, true, neg_ℤ, unsigned_abs, option_map, option_and_then, ◌∷◌, []};
ghost use Rattle.kernel_tree.specs.Plain.{term_of};
ghost use Rattle.kernel_scope.specs.Scopes.{scope_of};
ghost use Rattle.label_fix.specs.Draft.{word_view};
ghost use Rattle.label_fix.specs.Finished.{is_plain};
ghost use Rattle.kernel_tree.specs.Items as items;
ghost use Rattle.a64_code.specs.Table as table;
ghost use Rattle.kernel_meaning.specs.Operators as operators;
ghost use Rattle.value_code.specs.ItemWords as words;
ghost use Rattle.scalar_words.specs.Words as common;
ghost use Rattle.value_code.specs.Code as code;
ghost use Rattle.label_fix.specs.DraftRun as plain;
ghost use Rattle.label_fix.specs.Registers.{iteration, scratch, xzr};
ghost use Rattle.a64_code.specs.View as seen;

use a64_code::{
    A64, AddSubOp, AddSubShift, Cond, ExceptionOp, LoadStoreByteOp, LoadStoreOp, LogicalOp,
    MoveWideOp, MultiplyOp, Reg, Shift, zero,
};
use kernel_meaning::{word, wrapped};
use kernel_scope::{Scope, is_index, is_index_term, literal_value};
use kernel_tree::{BinaryOp, CompareOp, Expr, Ty};
use label_fix::Word;
use label_fix::registers::{ITERATION, SCRATCH};
use scalar_words::instructions::{add_sub, condition, wide};
use word_rows::Bits;

/// ADD, SUB or SUBS with a number below 4,096.
pub fn add_sub_number(op: AddSubOp, d: Reg, a: Reg, number: u32) -> Word
    requires { number < 4096 }
    ensures { word_view result ≡ plain.word_of (seen.add_sub_imm_name op) (d.number ∷ a.number ∷ number ∷ 0 ∷ []) }
{
    Word::A(A64::AddSubImmediate {
        op,
        rd: d,
        rn: a,
        imm12: Bits { number },
        sh: false,
    })
}

// The word that adds an offset to the loop variable.
fn index_at(offset: i128) -> Option<Word>
    ensures plain { words.IsPlainIf (option_map word_view result) }
    ensures word { option_map word_view result ≡ words.index_word offset }
{
    if offset == 0 {
        None
    } else if offset > 0 {
        Some(index_by(AddSubOp::Add, offset))
    } else {
        Some(index_by(AddSubOp::Sub, offset))
    }
}

// The word that takes an offset from the loop variable.
fn index_back(offset: i128) -> Option<Word>
    ensures plain { words.IsPlainIf (option_map word_view result) }
    ensures word { option_map word_view result ≡ words.index_word (neg_ℤ offset) }
{
    if offset == 0 {
        None
    } else if offset > 0 {
        Some(index_by(AddSubOp::Sub, offset))
    } else {
        Some(index_by(AddSubOp::Add, offset))
    }
}

// ADD or SUB of so much, of the loop variable.
fn index_by(op: AddSubOp, offset: i128) -> Word
    ensures { word_view result ≡ plain.word_of (seen.add_sub_imm_name op)
        (scratch ∷ iteration ∷ unsigned_abs offset % 4096 ∷ 0 ∷ []) }
{
    add_sub_number(
        op,
        SCRATCH,
        ITERATION,
        (offset.unsigned_abs() % 4096) as u32,
    )
}

/// The contrary of the condition that holds of two operands.
pub fn contrary(op: CompareOp, signed: bool) -> Cond
    ensures { seen.cond_number result ≡ common.contrary (common.condition op signed) }
{
    match op {
        CompareOp::Eq => Cond::Ne,
        CompareOp::Ne => Cond::Eq,
        CompareOp::Lt => { if signed { Cond::Ge } else { Cond::Hs } }
        CompareOp::Le => { if signed { Cond::Gt } else { Cond::Hi } }
        CompareOp::Gt => { if signed { Cond::Le } else { Cond::Ls } }
        CompareOp::Ge => { if signed { Cond::Lt } else { Cond::Lo } }
    }
}

/// The condition with which a branch is taken where the truth of a comparison is `sense`.
pub fn turned(sense: bool, op: CompareOp, signed: bool) -> Cond
    ensures { seen.cond_number result ≡ words.turned sense (common.condition op signed) }
{
    if sense {
        condition(op, signed)
    } else {
        contrary(op, signed)
    }
}

/// A number below 4,096.
pub fn immediate(number: u64) -> Option<u64>
    ensures { result ≡ words.immediate number }
{
    if number < 4096 { Some(number) } else { None }
}

/// A number that a word adds: below 4,096, or above 2^64 - 4,096.
pub fn addend(number: u64) -> Option<u64>
    ensures { result ≡ words.addend number }
{
    if number < 4096 || number > 0xffff_ffff_ffff_f000 {
        Some(number)
    } else {
        None
    }
}

/// The number that the word of an operator holds as its right side, by the word of the literal.
pub fn held_addend(op: BinaryOp, number: u64) -> Option<u64>
    ensures { result ≡ words.held_addend op number }
{
    match op {
        BinaryOp::Add | BinaryOp::Sub => addend(number),
        _ => None,
    }
}

/// The number that a comparison holds as its right side.
pub fn compared_number(want: Option<Ty>, expr: &Expr) -> Option<u64>
    ensures number { result ≡ code.compared_number want (term_of expr.now) }
    ensures held { code.IsHeld result (term_of expr.now) }
{
    match literal_value(expr) {
        None => None,
        Some(value) => immediate(word(wrapped(want, value))),
    }
}

/// The number that the word of an operator holds as its right side.
pub fn added_number(op: BinaryOp, want: Option<Ty>, expr: &Expr) -> Option<u64>
    ensures number { result ≡ code.added_number op want (term_of expr.now) }
    ensures held { code.IsHeld result (term_of expr.now) }
{
    match literal_value(expr) {
        None => None,
        Some(value) => held_addend(op, word(wrapped(want, value))),
    }
}

/// A register and a number more.
pub fn add_word(number: u64, d: Reg, a: Reg) -> Word
    ensures plain { is_plain (word_view result) ≡ true }
    ensures word { word_view result ≡ words.add_word number d.number a.number }
{
    if number < 4096 {
        add_sub_number(AddSubOp::Add, d, a, (number % 4096) as u32)
    } else {
        add_sub_number(AddSubOp::Sub, d, a, ((4096 - number % 4096) % 4096) as u32)
    }
}

fn sub_word(number: u64, d: Reg, a: Reg) -> Word
    ensures plain { is_plain (word_view result) ≡ true }
    ensures word { word_view result ≡ words.sub_word number d.number a.number }
{
    if number < 4096 {
        add_sub_number(AddSubOp::Sub, d, a, (number % 4096) as u32)
    } else {
        add_sub_number(AddSubOp::Add, d, a, ((4096 - number % 4096) % 4096) as u32)
    }
}

/// A register and a number more, or less.
pub fn sum_word(op: BinaryOp, number: u64, d: Reg, a: Reg) -> Word
    ensures plain { is_plain (word_view result) ≡ true }
    ensures word { word_view result ≡ words.sum_word op number d.number a.number }
{
    match op {
        BinaryOp::Sub => sub_word(number, d, a),
        _ => add_word(number, d, a),
    }
}

/// A register and a product more, or less.
pub fn product_word(op: BinaryOp, d: Reg, a: Reg, p: Reg, q: Reg) -> Word
    ensures plain { is_plain (word_view result) ≡ true }
    ensures word { word_view result ≡ words.product_word op d.number a.number p.number q.number }
{
    match op {
        BinaryOp::Sub => multiply_add(MultiplyOp::Msub, d, p, a, q),
        _ => multiply_add(MultiplyOp::Madd, d, p, a, q),
    }
}

fn multiply_add(op: MultiplyOp, d: Reg, p: Reg, a: Reg, q: Reg) -> Word
    ensures { word_view result
        ≡ plain.word_of (seen.multiply_add_name op) (d.number ∷ p.number ∷ a.number ∷ q.number ∷ []) }
{
    Word::A(A64::MultiplyAdd {
        op,
        rd: d,
        rn: p,
        ra: a,
        rm: q,
    })
}

/// An operator whose right side is a register shifted.
pub fn shift_word(
    op: BinaryOp,
    d: Reg,
    a: Reg,
    left: bool,
    signed: bool,
    count: Bits<6>,
    r: Reg,
) -> Word
    ensures plain { is_plain (word_view result) ≡ true }
    ensures word { word_view result
        ≡ words.shift_word op d.number a.number (words.shift_kind left signed) count.number r.number }
{
    let shift = shift_of(left, signed);
    match op {
        BinaryOp::Sub => sum_moved(AddSubOp::Sub, d, a, left, signed, count, r),
        BinaryOp::And => logical_moved(LogicalOp::And, d, a, shift, count, r),
        BinaryOp::Or => logical_moved(LogicalOp::Orr, d, a, shift, count, r),
        BinaryOp::Xor => logical_moved(LogicalOp::Eor, d, a, shift, count, r),
        _ => sum_moved(AddSubOp::Add, d, a, left, signed, count, r),
    }
}

/// A register compared with a number that the word holds, or else with a second one.
pub fn compare_word(number: Option<u64>, a: Reg, b: Reg) -> Word
    ensures plain { is_plain (word_view result) ≡ true }
    ensures word { word_view result ≡ words.compare_word number a.number b.number }
{
    match number {
        Some(number) => add_sub_number(AddSubOp::Subs, zero(), a, (number % 4096) as u32),
        None => add_sub(AddSubOp::Subs, zero(), a, b),
    }
}

/// Whether a comparison asks for zero (`Some(true)`), or for anything else (`Some(false)`).
pub fn zero_test(op: CompareOp, number: Option<u64>) -> Option<bool>
    ensures { result ≡ words.zero_test op number }
{
    match number {
        Some(0) => match op {
            CompareOp::Eq => Some(true),
            CompareOp::Ne => Some(false),
            _ => None,
        },
        _ => None,
    }
}

/// The count of a shift.
pub fn shift_count(count: i128) -> Bits<6>
    ensures { result.number ≡ operators.shift_count count }
{
    Bits {
        number: (count.cast_unsigned() % 64) as u32,
    }
}

// The kind of a shift.
fn shift_of(left: bool, signed: bool) -> Shift
    ensures { seen.shift_number result ≡ words.shift_kind left signed }
{
    if left {
        Shift::Lsl
    } else if signed {
        Shift::Asr
    } else {
        Shift::Lsr
    }
}

// The kind of a shift in a sum.
fn sum_shift(left: bool, signed: bool) -> AddSubShift
    ensures { seen.add_sub_shift_number result ≡ words.shift_kind left signed }
{
    if left {
        AddSubShift::Lsl
    } else if signed {
        AddSubShift::Asr
    } else {
        AddSubShift::Lsr
    }
}

fn sum_moved(op: AddSubOp, d: Reg, a: Reg, left: bool, signed: bool, count: Bits<6>, r: Reg) -> Word
    ensures { word_view result ≡ plain.word_of (seen.add_sub_shifted_name op)
        (d.number ∷ a.number ∷ count.number ∷ r.number ∷ words.shift_kind left signed ∷ []) }
{
    Word::A(A64::AddSubShifted {
        op,
        rd: d,
        rn: a,
        imm6: count,
        rm: r,
        shift: sum_shift(left, signed),
    })
}

fn logical_moved(op: LogicalOp, d: Reg, a: Reg, shift: Shift, count: Bits<6>, r: Reg) -> Word
    ensures { word_view result ≡ plain.word_of (seen.logical_name op)
        (d.number ∷ a.number ∷ count.number ∷ r.number ∷ seen.shift_number shift ∷ []) }
{
    Word::A(A64::LogicalShifted {
        op,
        rd: d,
        rn: a,
        imm6: count,
        rm: r,
        shift,
    })
}

/// A register shifted by a constant.
pub fn shifted(left: bool, signed: bool, count: Bits<6>, d: Reg, a: Reg) -> Word
    ensures { word_view result ≡ plain.word_of table.orr
        (d.number ∷ xzr ∷ count.number ∷ a.number ∷ words.shift_kind left signed ∷ []) }
{
    logical_moved(LogicalOp::Orr, d, zero(), shift_of(left, signed), count, a)
}

/// The load of an element.
pub fn load(ty: Ty, d: Reg, p: Reg, r: Reg) -> Word
    ensures { word_view result ≡ words.load ty d.number p.number r.number }
{
    match ty {
        Ty::I8 => load_byte(LoadStoreByteOp::Ldrsb, d, p, r),
        Ty::U8 => load_byte(LoadStoreByteOp::Ldrb, d, p, r),
        Ty::I16 => load_wide(LoadStoreOp::Ldrsh, d, p, r),
        Ty::U16 => load_wide(LoadStoreOp::Ldrh, d, p, r),
        Ty::I32 => load_wide(LoadStoreOp::Ldrsw, d, p, r),
        Ty::U32 => load_wide(LoadStoreOp::LdrW, d, p, r),
        Ty::I64 | Ty::U64 => load_wide(LoadStoreOp::LdrX, d, p, r),
    }
}

fn load_byte(op: LoadStoreByteOp, d: Reg, p: Reg, r: Reg) -> Word
    ensures { word_view result ≡ plain.word_of (seen.byte_register_name op) (d.number ∷ p.number ∷ r.number ∷ []) }
{
    Word::A(A64::LoadStoreByteRegister {
        op,
        rt: d,
        rn: p,
        rm: r,
    })
}

fn load_wide(op: LoadStoreOp, d: Reg, p: Reg, r: Reg) -> Word
    ensures { word_view result ≡ plain.word_of (seen.wide_register_name op) (d.number ∷ p.number ∷ 1 ∷ r.number ∷ []) }
{
    Word::A(A64::LoadStoreRegister {
        op,
        rt: d,
        rn: p,
        scaled: true,
        rm: r,
    })
}

// The loop variable moved by a literal.
fn moved_word(op: BinaryOp, by: Option<i128>) -> Option<Option<Word>>
    ensures plain { words.ArePlain (option_map (option_map word_view) result) }
    ensures word { option_map (option_map word_view) result ≡ option_map words.index_word
        (option_and_then (items.moved_by op) by) }
{
    match by {
        None => None,
        Some(by) => match op {
            BinaryOp::Add => Some(index_at(by)),
            BinaryOp::Sub => Some(index_back(by)),
            _ => None,
        },
    }
}

/// The word that makes a stream index from the loop variable, if it takes one; None for any other index.
pub fn index_word(scope: &Scope, expr: &Expr) -> Option<Option<Word>>
    ensures plain { words.ArePlain (option_map (option_map word_view) result) }
    ensures word { option_map (option_map word_view) result ≡ option_map words.index_word
        (items.stream_offset (scope_of scope.now).index (term_of expr.now)) }
{
    match expr {
        Expr::Var(name) => {
            if is_index(scope.index, name) {
                Some(index_at(0))
            } else {
                None
            }
        }
        Expr::Binary { op, left, right } => {
            if is_index_term(scope.index, left) {
                moved_word(*op, literal_value(right))
            } else {
                None
            }
        }
        _ => None,
    }
}

/// The store of an element.
pub fn store(ty: Ty, d: Reg, p: Reg, r: Reg) -> Word
    ensures { word_view result ≡ words.store ty d.number p.number r.number }
{
    match ty {
        Ty::I8 | Ty::U8 => load_byte(LoadStoreByteOp::Strb, d, p, r),
        Ty::I16 | Ty::U16 => load_wide(LoadStoreOp::Strh, d, p, r),
        Ty::I32 | Ty::U32 => load_wide(LoadStoreOp::StrW, d, p, r),
        Ty::I64 | Ty::U64 => load_wide(LoadStoreOp::StrX, d, p, r),
    }
}

/// The loop variable of the next iteration.
pub fn next_iteration() -> Word
    ensures { word_view result ≡ plain.word_of table.add_imm (iteration ∷ iteration ∷ 1 ∷ 0 ∷ []) }
{
    add_sub_number(AddSubOp::Add, ITERATION, ITERATION, 1)
}

/// A small number into a register.
pub fn small(d: u32, value: u32) -> Word
    requires register { d < 32 }
    requires value { value < 65536 }
    ensures { word_view result ≡ plain.word_of table.movz (d ∷ value ∷ 0 ∷ []) }
{
    wide(MoveWideOp::Movz, Bits { number: d }, value, 0)
}

/// The call of the system, which ends a run.
pub fn exit_call() -> Word
    ensures { word_view result ≡ plain.word_of table.svc (0 ∷ []) }
{
    Word::A(A64::Exception {
        op: ExceptionOp::Svc,
        imm16: Bits { number: 0 },
    })
}
