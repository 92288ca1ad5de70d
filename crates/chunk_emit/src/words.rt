//! The instructions of reads and stores.

ghost use Rattle.std.specs.Prelude.{◌≡◌, ◌≢◌, ◌<◌, ◌≤◌, List, [], ◌∷◌, true, pos, unsigned_abs};
ghost use Rattle.a64_code.specs.Table as a64;
ghost use Rattle.sve_code.specs.Numbers.{size_number, dtype_number};
ghost use Rattle.sve_code.specs.View.{load_gather_name};
ghost use Rattle.machine_model.specs.InstructionTable.{Listed, Scalar, Vector};
ghost use Rattle.kernel_tree.specs.declared.ops.Ty.TheVariants as ty;
ghost use Rattle.kernel_tree.specs.Wrap.{log_bytes};
ghost use Rattle.label_fix.specs.Draft.{word_view};
ghost use Rattle.label_fix.specs.Finished.{is_plain};
ghost use Rattle.label_fix.specs.Registers.{iteration, scratch};
ghost use Rattle.lane_emit.specs.LaneCode.{size_of};
ghost use Rattle.chunk_emit.specs.Registers.{base_of};
ghost use Rattle.chunk_emit.specs.ChunkCode as code;

use a64_code::{A64, AddSubOp, Reg};
use guest_types::length::Width;
use kernel_meaning::fits;
use kernel_tree::Ty;
use label_fix::Word;
use label_fix::registers::{ITERATION, SCRATCH};
use lane_emit::{extend_byte, extend_halfword, size};
use loop_form::Operand;
use sve_code::{
    Dtype, ExtendOp, GatherOp, GoverningReg, OffsetReg, Size, StoreSizes, Sve, VectorReg,
};
use word_rows::Bits;

// ---- general registers

/// The register of an array's address.
pub fn base_register(base: Operand) -> Reg
    requires { base_of base < 32 }
    ensures { result.number ≡ base_of base }
{
    match base {
        Operand::Outer(place) => Bits { number: place },
        _ => Bits { number: 0 },
    }
}

/// The register that holds the index of an element.
pub fn index_register(offset: i32) -> OffsetReg
    ensures { result.number ≡ code.index_of offset }
{
    if offset == 0 {
        OffsetReg {
            number: ITERATION.number,
        }
    } else {
        OffsetReg {
            number: SCRATCH.number,
        }
    }
}

// X26 = X9 and a number.
fn index_up(by: u32) -> Word
    requires { by < 4096 }
    ensures { word_view result ≡ Scalar (record { name = a64.add_imm; numbers = scratch ∷ iteration ∷ by ∷ 0 ∷ [] }) }
{
    Word::A(A64::AddSubImmediate {
        op: AddSubOp::Add,
        rd: SCRATCH,
        rn: ITERATION,
        imm12: Bits { number: by },
        sh: false,
    })
}

// X26 = X9 less a number.
fn index_down(by: u32) -> Word
    requires { by < 4096 }
    ensures { word_view result ≡ Scalar (record { name = a64.sub_imm; numbers = scratch ∷ iteration ∷ by ∷ 0 ∷ [] }) }
{
    Word::A(A64::AddSubImmediate {
        op: AddSubOp::Sub,
        rd: SCRATCH,
        rn: ITERATION,
        imm12: Bits { number: by },
        sh: false,
    })
}

/// X26 = X9 and an offset, which is not 0.
pub fn index_word(offset: i32) -> Word
    requires some { offset ≢ pos 0 }
    requires near { unsigned_abs offset < 4096 }
    ensures word { (rest : List Listed) → code.with_index offset rest ≡ word_view result ∷ rest }
    ensures plain { is_plain (word_view result) ≡ true }
{
    let by = offset.unsigned_abs();
    if offset > 0 {
        index_up(by)
    } else {
        index_down(by)
    }
}

// ---- types

fn memory_size(ty: Ty) -> Size
    ensures { size_number result ≡ log_bytes ty }
{
    size(Width::of(ty.log_bytes()))
}

/// The sizes of a store of elements of a type.
fn store_sizes(ty: Ty, width: Width) -> StoreSizes
    requires { log_bytes ty ≤ size_of width }
    ensures msz { size_number result.msz ≡ log_bytes ty }
    ensures size { size_number result.size ≡ size_of width }
{
    StoreSizes {
        msz: memory_size(ty),
        size: size(width),
    }
}

/// What a load of a type into lanes of a width does: lanes that are no narrower.
pub fn load_type(ty: Ty, width: Width) -> Dtype
    ensures { dtype_number result ≡ code.dtype_of ty width }
{
    match ty {
        Ty::U8 => unsigned_byte(width),
        Ty::I8 => signed_byte(width),
        Ty::U16 => unsigned_halfword(width),
        Ty::I16 => signed_halfword(width),
        Ty::U32 => match width {
            Width::D => Dtype::WordToD,
            _ => Dtype::WordToS,
        },
        Ty::I32 => match width {
            Width::D => Dtype::SignedWordToD,
            _ => Dtype::WordToS,
        },
        Ty::I64 | Ty::U64 => Dtype::DoublewordToD,
    }
}

fn unsigned_byte(width: Width) -> Dtype
    ensures { dtype_number result ≡ code.dtype_of ty.U8 width }
{
    match width {
        Width::B => Dtype::ByteToB,
        Width::H => Dtype::ByteToH,
        Width::S => Dtype::ByteToS,
        Width::D => Dtype::ByteToD,
    }
}

fn signed_byte(width: Width) -> Dtype
    ensures { dtype_number result ≡ code.dtype_of ty.I8 width }
{
    match width {
        Width::B => Dtype::ByteToB,
        Width::H => Dtype::SignedByteToH,
        Width::S => Dtype::SignedByteToS,
        Width::D => Dtype::SignedByteToD,
    }
}

fn unsigned_halfword(width: Width) -> Dtype
    ensures { dtype_number result ≡ code.dtype_of ty.U16 width }
{
    match width {
        Width::B | Width::H => Dtype::HalfwordToH,
        Width::S => Dtype::HalfwordToS,
        Width::D => Dtype::HalfwordToD,
    }
}

fn signed_halfword(width: Width) -> Dtype
    ensures { dtype_number result ≡ code.dtype_of ty.I16 width }
{
    match width {
        Width::B | Width::H => Dtype::HalfwordToH,
        Width::S => Dtype::SignedHalfwordToS,
        Width::D => Dtype::SignedHalfwordToD,
    }
}

// ---- reads and stores

/// A read.
pub fn load(
    width: Width,
    ty: Ty,
    d: VectorReg,
    m: GoverningReg,
    base: Reg,
    index: OffsetReg,
) -> Word
    ensures { word_view result ≡ Vector (code.load_word width ty d.number m.number base.number index.number) }
{
    Word::V(Sve::ContiguousLoad {
        zt: d,
        rn: base,
        pg: m,
        offset: index,
        dtype: load_type(ty, width),
    })
}

// ---- reads at computed indexes

fn gather_op(ty: Ty) -> GatherOp
    ensures { load_gather_name result ≡ code.gather_name ty }
{
    match ty {
        Ty::I8 => GatherOp::Ld1sb,
        Ty::U8 => GatherOp::Ld1b,
        Ty::I16 => GatherOp::Ld1sh,
        Ty::U16 => GatherOp::Ld1h,
        Ty::I32 => GatherOp::Ld1sw,
        Ty::U32 => GatherOp::Ld1w,
        Ty::I64 | Ty::U64 => GatherOp::Ld1d,
    }
}

/// The reach to which an index of a type is cut first, where the type has values past it.
pub fn cut_reach(reach: Option<u32>, ty: Ty) -> Option<u32>
    ensures { result ≡ code.cut_reach reach ty }
{
    let reach = reach?;
    let narrow = if reach == 256 { Ty::U8 } else { Ty::U16 };
    if fits(ty, narrow) { None } else { Some(reach) }
}

/// An index modulo its reach, which is 256 or 65,536.
pub fn cut(reach: u32, d: VectorReg, index: VectorReg) -> Word
    ensures { word_view result ≡ Vector (code.cut_word reach d.number index.number) }
{
    if reach == 256 {
        Word::V(extend_byte(ExtendOp::Unsigned, Width::D, d, index))
    } else {
        Word::V(extend_halfword(ExtendOp::Unsigned, Width::D, d, index))
    }
}

/// A read at the offsets in a register.
pub fn gather(ty: Ty, d: VectorReg, m: GoverningReg, base: Reg, offsets: VectorReg) -> Word
    ensures { word_view result ≡ Vector (code.gather_word ty d.number m.number base.number offsets.number) }
{
    Word::V(Sve::GatherLoad {
        op: gather_op(ty),
        zt: d,
        rn: base,
        pg: m,
        zm: offsets,
    })
}

/// A store.
pub fn store(
    width: Width,
    ty: Ty,
    v: VectorReg,
    m: GoverningReg,
    base: Reg,
    index: OffsetReg,
) -> Word
    requires { log_bytes ty ≤ size_of width }
    ensures { word_view result ≡ Vector (code.store_word width ty v.number m.number base.number index.number) }
{
    Word::V(Sve::ContiguousStore {
        zt: v,
        rn: base,
        pg: m,
        offset: index,
        sizes: store_sizes(ty, width),
    })
}
