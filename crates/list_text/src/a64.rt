//! The text of A64 instructions.
ghost use Rattle.std.specs.Prelude.{◌≡◌, ◌≤◌, [], ◌∷◌, ◌++◌, length};
ghost use Rattle.a64_code.specs.declared.A64.{A64};
ghost use Rattle.a64_code.specs.View.{instruction_view, cond_number};
ghost use Rattle.word_rows.specs.Field.{flag_number};
ghost use Rattle.list_text.specs.Parts.{x_register, w_register, x_or_sp};
ghost use Rattle.list_text.specs.A64Text as text;

use crate::LineBuf;
use crate::parts::{
    begin, begin_w, begin_x, begin_x_or_sp, comma_constant, comma_x, comma_x_or_sp, name_of_cond,
    push_constant, push_decimal, push_lsl, push_offset_19, push_offset_26, push_offset_address,
    push_register_address, push_shift,
};
use a64_code::{
    A64, AddSubOp, AddSubShift, BitfieldOp, CompareBranchOp, Cond, ExceptionOp, LoadStoreByteOp,
    LoadStoreOp, LogicalOp, MoveWideOp, MultiplyOp, Reg, SelectOp, Shift, ShiftVariableOp,
};
use word_rows::Bits;

/// Replaces what `into` holds by the text of an instruction.
pub fn instruction_text(instruction: A64, into: &mut LineBuf)
    ensures { into.new.bytes ≡ text.a64_text (instruction_view instruction) }
{
    match instruction {
        A64::AddSubImmediate {
            op,
            rd,
            rn,
            imm12,
            sh,
        } => add_sub_immediate(into, op, rd, rn, imm12, sh),
        A64::AddSubShifted {
            op,
            rd,
            rn,
            imm6,
            rm,
            shift,
        } => add_sub_shifted(into, op, rd, rn, imm6, rm, shift),
        A64::LogicalShifted {
            op,
            rd,
            rn,
            imm6,
            rm,
            shift,
        } => logical_shifted(into, op, rd, rn, imm6, rm, shift),
        A64::MoveWide { op, rd, imm16, hw } => move_wide(into, op, rd, imm16, hw),
        A64::MultiplyAdd { op, rd, rn, ra, rm } => multiply_add(into, op, rd, rn, ra, rm),
        A64::ShiftVariable { op, rd, rn, rm } => shift_variable(into, op, rd, rn, rm),
        A64::Bitfield {
            op,
            rd,
            rn,
            imms,
            immr,
        } => bitfield(into, op, rd, rn, imms, immr),
        A64::ConditionalSelect {
            op,
            rd,
            rn,
            cond,
            rm,
        } => conditional_select(into, op, rd, rn, cond, rm),
        A64::Branch { imm26 } => branch(into, imm26),
        A64::BranchConditional { cond, imm19 } => branch_conditional(into, cond, imm19),
        A64::CompareBranch { op, rt, imm19 } => compare_branch(into, op, rt, imm19),
        A64::Ret { rn } => begin_x(into, "ret ", rn),
        A64::Exception { op, imm16 } => exception(into, op, imm16),
        A64::Nop => begin(into, "nop"),
        A64::Umov { rd, vn } => umov(into, rd, vn),
        A64::LoadStoreByteImmediate { op, rt, rn, imm12 } => {
            load_store_byte_immediate(into, op, rt, rn, imm12)
        }
        A64::LoadStoreImmediate { op, rt, rn, imm12 } => {
            load_store_immediate(into, op, rt, rn, imm12)
        }
        A64::LoadStoreByteRegister { op, rt, rn, rm } => {
            load_store_byte_register(into, op, rt, rn, rm)
        }
        A64::LoadStoreRegister {
            op,
            rt,
            rn,
            scaled,
            rm,
        } => load_store_register(into, op, rt, rn, scaled, rm),
    }
}

/// Writes `add x0, sp, #5, lsl #12` and its like.
fn add_sub_immediate(into: &mut LineBuf, op: AddSubOp, rd: Reg, rn: Reg, imm12: Bits<12>, sh: bool)
    ensures { into.new.bytes ≡ text.a64_text (instruction_view (A64.AddSubImmediate op rd rn imm12 sh)) }
{
    match op {
        AddSubOp::Add => immediate_to_sp(into, "add ", rd, rn, imm12, sh),
        AddSubOp::Sub => immediate_to_sp(into, "sub ", rd, rn, imm12, sh),
        AddSubOp::Subs => immediate_to_x(into, "subs ", rd, rn, imm12, sh),
    }
}

fn immediate_to_sp(into: &mut LineBuf, mnemonic: &str, rd: Reg, rn: Reg, imm12: Bits<12>, sh: bool)
    requires { length mnemonic.now ≤ 8 }
    ensures { into.new.bytes ≡ text.add_sub_immediate mnemonic.now x_or_sp
        (rd.number ∷ rn.number ∷ imm12.number ∷ flag_number sh ∷ []) }
{
    begin_x_or_sp(into, mnemonic, rd);
    comma_x_or_sp(into, rn);
    comma_constant(into, imm12.number);
    push_lsl(into, 12 * u32::from(sh));
}

fn immediate_to_x(into: &mut LineBuf, mnemonic: &str, rd: Reg, rn: Reg, imm12: Bits<12>, sh: bool)
    requires { length mnemonic.now ≤ 8 }
    ensures { into.new.bytes ≡ text.add_sub_immediate mnemonic.now x_register
        (rd.number ∷ rn.number ∷ imm12.number ∷ flag_number sh ∷ []) }
{
    begin_x(into, mnemonic, rd);
    comma_x_or_sp(into, rn);
    comma_constant(into, imm12.number);
    push_lsl(into, 12 * u32::from(sh));
}

/// Writes `add x0, x1, x2, lsr #3` and its like.
fn add_sub_shifted(
    into: &mut LineBuf,
    op: AddSubOp,
    rd: Reg,
    rn: Reg,
    imm6: Bits<6>,
    rm: Reg,
    shift: AddSubShift,
)
    ensures { into.new.bytes ≡ text.a64_text (instruction_view (A64.AddSubShifted op rd rn imm6 rm shift)) }
{
    match op {
        AddSubOp::Add => shifted_register(into, "add ", rd, rn, imm6, rm, shift as u32),
        AddSubOp::Sub => shifted_register(into, "sub ", rd, rn, imm6, rm, shift as u32),
        AddSubOp::Subs => shifted_register(into, "subs ", rd, rn, imm6, rm, shift as u32),
    }
}

/// Writes `and x0, x1, x2, ror #3` and its like.
fn logical_shifted(
    into: &mut LineBuf,
    op: LogicalOp,
    rd: Reg,
    rn: Reg,
    imm6: Bits<6>,
    rm: Reg,
    shift: Shift,
)
    ensures { into.new.bytes ≡ text.a64_text (instruction_view (A64.LogicalShifted op rd rn imm6 rm shift)) }
{
    match op {
        LogicalOp::And => shifted_register(into, "and ", rd, rn, imm6, rm, shift as u32),
        LogicalOp::Orr => shifted_register(into, "orr ", rd, rn, imm6, rm, shift as u32),
        LogicalOp::Eor => shifted_register(into, "eor ", rd, rn, imm6, rm, shift as u32),
        LogicalOp::Orn => shifted_register(into, "orn ", rd, rn, imm6, rm, shift as u32),
    }
}

fn shifted_register(
    into: &mut LineBuf,
    mnemonic: &str,
    rd: Reg,
    rn: Reg,
    imm6: Bits<6>,
    rm: Reg,
    shift: u32,
)
    requires { length mnemonic.now ≤ 8 }
    ensures { into.new.bytes ≡ text.shifted_register mnemonic.now
        (rd.number ∷ rn.number ∷ imm6.number ∷ rm.number ∷ shift ∷ []) }
{
    begin_x(into, mnemonic, rd);
    comma_x(into, rn);
    comma_x(into, rm);
    push_shift(into, shift, imm6.number);
}

/// Writes `movz x8, #93, lsl #16` and its like.
fn move_wide(into: &mut LineBuf, op: MoveWideOp, rd: Reg, imm16: Bits<16>, hw: Bits<2>)
    ensures { into.new.bytes ≡ text.a64_text (instruction_view (A64.MoveWide op rd imm16 hw)) }
{
    match op {
        MoveWideOp::Movz => wide_immediate(into, "movz ", rd, imm16, hw),
        MoveWideOp::Movk => wide_immediate(into, "movk ", rd, imm16, hw),
        MoveWideOp::Movn => wide_immediate(into, "movn ", rd, imm16, hw),
    }
}

fn wide_immediate(into: &mut LineBuf, mnemonic: &str, rd: Reg, imm16: Bits<16>, hw: Bits<2>)
    requires { length mnemonic.now ≤ 8 }
    ensures { into.new.bytes ≡ text.move_wide mnemonic.now (rd.number ∷ imm16.number ∷ hw.number ∷ []) }
{
    begin_x(into, mnemonic, rd);
    comma_constant(into, imm16.number);
    push_lsl(into, 16 * hw.number);
}

/// Writes `madd x0, x1, x2, x3` and its like.
fn multiply_add(into: &mut LineBuf, op: MultiplyOp, rd: Reg, rn: Reg, ra: Reg, rm: Reg)
    ensures { into.new.bytes ≡ text.a64_text (instruction_view (A64.MultiplyAdd op rd rn ra rm)) }
{
    match op {
        MultiplyOp::Madd => four_registers(into, "madd ", rd, rn, ra, rm),
        MultiplyOp::Msub => four_registers(into, "msub ", rd, rn, ra, rm),
    }
}

fn four_registers(into: &mut LineBuf, mnemonic: &str, rd: Reg, rn: Reg, ra: Reg, rm: Reg)
    requires { length mnemonic.now ≤ 8 }
    ensures { into.new.bytes ≡ text.multiply_add mnemonic.now (rd.number ∷ rn.number ∷ ra.number ∷ rm.number ∷ []) }
{
    begin_x(into, mnemonic, rd);
    comma_x(into, rn);
    comma_x(into, rm);
    comma_x(into, ra);
}

/// Writes `lslv x0, x1, x2` and its like.
fn shift_variable(into: &mut LineBuf, op: ShiftVariableOp, rd: Reg, rn: Reg, rm: Reg)
    ensures { into.new.bytes ≡ text.a64_text (instruction_view (A64.ShiftVariable op rd rn rm)) }
{
    match op {
        ShiftVariableOp::Lslv => three_registers(into, "lslv ", rd, rn, rm),
        ShiftVariableOp::Lsrv => three_registers(into, "lsrv ", rd, rn, rm),
        ShiftVariableOp::Asrv => three_registers(into, "asrv ", rd, rn, rm),
    }
}

fn three_registers(into: &mut LineBuf, mnemonic: &str, rd: Reg, rn: Reg, rm: Reg)
    requires { length mnemonic.now ≤ 8 }
    ensures { into.new.bytes ≡ text.shift_variable mnemonic.now (rd.number ∷ rn.number ∷ rm.number ∷ []) }
{
    begin_x(into, mnemonic, rd);
    comma_x(into, rn);
    comma_x(into, rm);
}

/// Writes `ubfm x0, x1, #3, #7` and its like.
fn bitfield(into: &mut LineBuf, op: BitfieldOp, rd: Reg, rn: Reg, imms: Bits<6>, immr: Bits<6>)
    ensures { into.new.bytes ≡ text.a64_text (instruction_view (A64.Bitfield op rd rn imms immr)) }
{
    match op {
        BitfieldOp::Sbfm => two_immediates(into, "sbfm ", rd, rn, imms, immr),
        BitfieldOp::Ubfm => two_immediates(into, "ubfm ", rd, rn, imms, immr),
    }
}

fn two_immediates(
    into: &mut LineBuf,
    mnemonic: &str,
    rd: Reg,
    rn: Reg,
    imms: Bits<6>,
    immr: Bits<6>,
)
    requires { length mnemonic.now ≤ 8 }
    ensures { into.new.bytes ≡ text.bitfield mnemonic.now (rd.number ∷ rn.number ∷ imms.number ∷ immr.number ∷ []) }
{
    begin_x(into, mnemonic, rd);
    comma_x(into, rn);
    comma_constant(into, immr.number);
    comma_constant(into, imms.number);
}

/// Writes `csel x0, x1, x2, eq` and its like.
fn conditional_select(into: &mut LineBuf, op: SelectOp, rd: Reg, rn: Reg, cond: Cond, rm: Reg)
    ensures { into.new.bytes ≡ text.a64_text (instruction_view (A64.ConditionalSelect op rd rn cond rm)) }
{
    match op {
        SelectOp::Csel => registers_and_cond(into, "csel ", rd, rn, cond, rm),
        SelectOp::Csinc => registers_and_cond(into, "csinc ", rd, rn, cond, rm),
    }
}

fn registers_and_cond(into: &mut LineBuf, mnemonic: &str, rd: Reg, rn: Reg, cond: Cond, rm: Reg)
    requires { length mnemonic.now ≤ 8 }
    ensures { into.new.bytes ≡ text.conditional_select mnemonic.now
        (rd.number ∷ rn.number ∷ cond_number cond ∷ rm.number ∷ []) }
{
    begin_x(into, mnemonic, rd);
    comma_x(into, rn);
    comma_x(into, rm);
    into.push_str(", ");
    into.push_str(name_of_cond(cond));
}

/// Writes `b #-8`.
fn branch(into: &mut LineBuf, imm26: Bits<26>)
    ensures { into.new.bytes ≡ text.a64_text (instruction_view (A64.Branch imm26)) }
{
    begin(into, "b ");
    push_offset_26(into, imm26);
}

/// Writes `b.eq #12`.
fn branch_conditional(into: &mut LineBuf, cond: Cond, imm19: Bits<19>)
    ensures { into.new.bytes ≡ text.a64_text (instruction_view (A64.BranchConditional cond imm19)) }
{
    begin(into, "b.");
    into.push_str(name_of_cond(cond));
    into.push_str(" ");
    push_offset_19(into, imm19);
}

/// Writes `cbz x1, #12` and its like.
fn compare_branch(into: &mut LineBuf, op: CompareBranchOp, rt: Reg, imm19: Bits<19>)
    ensures { into.new.bytes ≡ text.a64_text (instruction_view (A64.CompareBranch op rt imm19)) }
{
    match op {
        CompareBranchOp::Cbz => register_and_offset(into, "cbz ", rt, imm19),
        CompareBranchOp::Cbnz => register_and_offset(into, "cbnz ", rt, imm19),
    }
}

fn register_and_offset(into: &mut LineBuf, mnemonic: &str, rt: Reg, imm19: Bits<19>)
    requires { length mnemonic.now ≤ 8 }
    ensures { into.new.bytes ≡ text.compare_branch mnemonic.now (rt.number ∷ imm19.number ∷ []) }
{
    begin_x(into, mnemonic, rt);
    into.push_str(", ");
    push_offset_19(into, imm19);
}

/// Writes `svc #0` and its like.
fn exception(into: &mut LineBuf, op: ExceptionOp, imm16: Bits<16>)
    ensures { into.new.bytes ≡ text.a64_text (instruction_view (A64.Exception op imm16)) }
{
    match op {
        ExceptionOp::Svc => immediate(into, "svc ", imm16),
        ExceptionOp::Brk => immediate(into, "brk ", imm16),
    }
}

fn immediate(into: &mut LineBuf, mnemonic: &str, imm16: Bits<16>)
    requires { length mnemonic.now ≤ 8 }
    ensures { into.new.bytes ≡ text.exception mnemonic.now (imm16.number ∷ []) }
{
    begin(into, mnemonic);
    push_constant(into, imm16.number);
}

/// Writes `umov x0, v1.d[0]`.
fn umov(into: &mut LineBuf, rd: Reg, vn: Reg)
    ensures { into.new.bytes ≡ text.a64_text (instruction_view (A64.Umov rd vn)) }
{
    begin_x(into, "umov ", rd);
    into.push_str(", v");
    push_decimal(into, vn.number);
    into.push_str(".d[0]");
}

/// Writes `ldrb w0, [x1, #1]` and its like.
fn load_store_byte_immediate(
    into: &mut LineBuf,
    op: LoadStoreByteOp,
    rt: Reg,
    rn: Reg,
    imm12: Bits<12>,
)
    ensures { into.new.bytes ≡ text.a64_text (instruction_view (A64.LoadStoreByteImmediate op rt rn imm12)) }
{
    match op {
        LoadStoreByteOp::Ldrb => w_at_offset(into, "ldrb ", rt, rn, imm12, 1),
        LoadStoreByteOp::Ldrsb => x_at_offset(into, "ldrsb ", rt, rn, imm12, 1),
        LoadStoreByteOp::Strb => w_at_offset(into, "strb ", rt, rn, imm12, 1),
    }
}

/// Writes `ldr x0, [x1, #8]` and its like.
fn load_store_immediate(into: &mut LineBuf, op: LoadStoreOp, rt: Reg, rn: Reg, imm12: Bits<12>)
    ensures { into.new.bytes ≡ text.a64_text (instruction_view (A64.LoadStoreImmediate op rt rn imm12)) }
{
    match op {
        LoadStoreOp::Ldrh => w_at_offset(into, "ldrh ", rt, rn, imm12, 2),
        LoadStoreOp::LdrW => w_at_offset(into, "ldr ", rt, rn, imm12, 4),
        LoadStoreOp::LdrX => x_at_offset(into, "ldr ", rt, rn, imm12, 8),
        LoadStoreOp::Ldrsh => x_at_offset(into, "ldrsh ", rt, rn, imm12, 2),
        LoadStoreOp::Ldrsw => x_at_offset(into, "ldrsw ", rt, rn, imm12, 4),
        LoadStoreOp::Strh => w_at_offset(into, "strh ", rt, rn, imm12, 2),
        LoadStoreOp::StrW => w_at_offset(into, "str ", rt, rn, imm12, 4),
        LoadStoreOp::StrX => x_at_offset(into, "str ", rt, rn, imm12, 8),
    }
}

/// Writes `ldrb w0, [x1, x2]` and its like.
fn load_store_byte_register(into: &mut LineBuf, op: LoadStoreByteOp, rt: Reg, rn: Reg, rm: Reg)
    ensures { into.new.bytes ≡ text.a64_text (instruction_view (A64.LoadStoreByteRegister op rt rn rm)) }
{
    match op {
        LoadStoreByteOp::Ldrb => w_byte_at_register(into, "ldrb ", rt, rn, rm),
        LoadStoreByteOp::Ldrsb => x_byte_at_register(into, "ldrsb ", rt, rn, rm),
        LoadStoreByteOp::Strb => w_byte_at_register(into, "strb ", rt, rn, rm),
    }
}

/// Writes `ldr x0, [x1, x2, lsl #3]` and its like.
fn load_store_register(into: &mut LineBuf, op: LoadStoreOp, rt: Reg, rn: Reg, scaled: bool, rm: Reg)
    ensures { into.new.bytes ≡ text.a64_text (instruction_view (A64.LoadStoreRegister op rt rn scaled rm)) }
{
    match op {
        LoadStoreOp::Ldrh => w_at_register(into, "ldrh ", rt, rn, scaled, rm, 1),
        LoadStoreOp::LdrW => w_at_register(into, "ldr ", rt, rn, scaled, rm, 2),
        LoadStoreOp::LdrX => x_at_register(into, "ldr ", rt, rn, scaled, rm, 3),
        LoadStoreOp::Ldrsh => x_at_register(into, "ldrsh ", rt, rn, scaled, rm, 1),
        LoadStoreOp::Ldrsw => x_at_register(into, "ldrsw ", rt, rn, scaled, rm, 2),
        LoadStoreOp::Strh => w_at_register(into, "strh ", rt, rn, scaled, rm, 1),
        LoadStoreOp::StrW => w_at_register(into, "str ", rt, rn, scaled, rm, 2),
        LoadStoreOp::StrX => x_at_register(into, "str ", rt, rn, scaled, rm, 3),
    }
}

fn w_at_offset(into: &mut LineBuf, mnemonic: &str, rt: Reg, rn: Reg, imm12: Bits<12>, size: u32)
    requires short { length mnemonic.now ≤ 8 }
    requires sized { size ≤ 8 }
    ensures { into.new.bytes ≡ text.load_store_immediate mnemonic.now w_register size
        (rt.number ∷ rn.number ∷ imm12.number ∷ []) }
{
    begin_w(into, mnemonic, rt);
    push_offset_address(into, rn, size * imm12.number);
}

fn w_byte_at_register(into: &mut LineBuf, mnemonic: &str, rt: Reg, rn: Reg, rm: Reg)
    requires { length mnemonic.now ≤ 8 }
    ensures { into.new.bytes ≡ text.load_store_byte_register mnemonic.now w_register
        (rt.number ∷ rn.number ∷ rm.number ∷ []) }
{
    begin_w(into, mnemonic, rt);
    push_register_address(into, rn, rm, 0);
}

fn w_at_register(
    into: &mut LineBuf,
    mnemonic: &str,
    rt: Reg,
    rn: Reg,
    scaled: bool,
    rm: Reg,
    log: u32,
)
    requires short { length mnemonic.now ≤ 8 }
    requires sized { log ≤ 3 }
    ensures { into.new.bytes ≡ text.load_store_register mnemonic.now w_register log
        (rt.number ∷ rn.number ∷ flag_number scaled ∷ rm.number ∷ []) }
{
    begin_w(into, mnemonic, rt);
    push_register_address(into, rn, rm, log * u32::from(scaled));
}

fn x_at_offset(into: &mut LineBuf, mnemonic: &str, rt: Reg, rn: Reg, imm12: Bits<12>, size: u32)
    requires short { length mnemonic.now ≤ 8 }
    requires sized { size ≤ 8 }
    ensures { into.new.bytes ≡ text.load_store_immediate mnemonic.now x_register size
        (rt.number ∷ rn.number ∷ imm12.number ∷ []) }
{
    begin_x(into, mnemonic, rt);
    push_offset_address(into, rn, size * imm12.number);
}

fn x_byte_at_register(into: &mut LineBuf, mnemonic: &str, rt: Reg, rn: Reg, rm: Reg)
    requires { length mnemonic.now ≤ 8 }
    ensures { into.new.bytes ≡ text.load_store_byte_register mnemonic.now x_register
        (rt.number ∷ rn.number ∷ rm.number ∷ []) }
{
    begin_x(into, mnemonic, rt);
    push_register_address(into, rn, rm, 0);
}

fn x_at_register(
    into: &mut LineBuf,
    mnemonic: &str,
    rt: Reg,
    rn: Reg,
    scaled: bool,
    rm: Reg,
    log: u32,
)
    requires short { length mnemonic.now ≤ 8 }
    requires sized { log ≤ 3 }
    ensures { into.new.bytes ≡ text.load_store_register mnemonic.now x_register log
        (rt.number ∷ rn.number ∷ flag_number scaled ∷ rm.number ∷ []) }
{
    begin_x(into, mnemonic, rt);
    push_register_address(into, rn, rm, log * u32::from(scaled));
}
