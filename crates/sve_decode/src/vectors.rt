//! Instructions on vectors: the words with the top byte 0x04.
ghost use Rattle.std.specs.Prelude.{◌≡◌};
ghost use Rattle.std.specs.Option.{option_map};
ghost use Rattle.word_rows.specs.Row.{reads};
ghost use Rattle.sve_code.specs.Table.{row, add_sub, merging, logic, reduce, index, shift_imm, unary, extend_byte, extend_half, extend_word, count};
ghost use Rattle.sve_code.specs.View.{instruction_view};
ghost use Rattle.sve_decode.specs.Groups.{vectors, arithmetic, bitwise, unary_forms};

use sve_code::bases::{
    ANDV, ASR_IMM, CNTB, CNTD, CNTH, CNTW, EORV, INDEX_ROW, LSL_IMM, LSR_IMM, M_ABS, M_ADD, M_AND,
    M_EOR, M_MUL, M_NEG, M_NOT, M_ORR, M_SMAX, M_SMIN, M_SUB, M_UMAX, M_UMIN, ORV, SMAXV, SMINV,
    SXTB, SXTH, SXTW, UADDV, UMAXV, UMINV, UXTB, UXTH, UXTW, Z_ADD, Z_AND, Z_BIC, Z_EOR, Z_ORR,
    Z_SUB,
};
use sve_code::{
    AddSubOp, BinaryPredicatedOp, BitwiseOp, ElementCountOp, ExtendOp, ReductionOp, ShiftAmount,
    ShiftImmediateOp, Size, SizeFromH, SizeFromS, Sve, UnaryPredicatedOp,
};
use word_rows::{Bits, field};

/// The instruction on vectors of a word, sought by bits 15 to 13.
pub fn vectors_of(word: u32) -> Option<Sve>
    ensures { option_map instruction_view result ≡ reads row vectors word }
{
    match field(word, 13, 3) {
        0 => arithmetic_of(word),
        1 => bitwise_of(word),
        2 => index_of(word),
        4 => shift_imm_of(word),
        5 => unary_forms_of(word),
        7 => count_of(word),
        _ => None,
    }
}

#[tactic(auto, using(word_rows::proofs::TableLaws::tables), unfolding(crate::specs::Groups::arithmetic))]
fn arithmetic_of(word: u32) -> Option<Sve>
    ensures { option_map instruction_view result ≡ reads row arithmetic word }
{
    if let Some(found) = add_sub_of(word) {
        return Some(found);
    }
    merging_of(word)
}

#[tactic(auto, using(word_rows::proofs::TableLaws::tables), unfolding(crate::specs::Groups::bitwise))]
fn bitwise_of(word: u32) -> Option<Sve>
    ensures { option_map instruction_view result ≡ reads row bitwise word }
{
    if let Some(found) = logic_of(word) {
        return Some(found);
    }
    reduce_of(word)
}

#[tactic(auto, using(word_rows::proofs::TableLaws::tables), unfolding(crate::specs::Groups::unary_forms))]
fn unary_forms_of(word: u32) -> Option<Sve>
    ensures { option_map instruction_view result ≡ reads row unary_forms word }
{
    if let Some(found) = unary_of(word) {
        return Some(found);
    }
    if let Some(found) = extend_byte_of(word) {
        return Some(found);
    }
    if let Some(found) = extend_half_of(word) {
        return Some(found);
    }
    extend_word_of(word)
}

#[tactic(auto, unfolding(word_rows::specs::Row::reads, sve_code::specs::Table::add_sub))]
fn add_sub_of(word: u32) -> Option<Sve>
    ensures { option_map instruction_view result ≡ reads row add_sub word }
{
    let op = match word & 0xff20_fc00 {
        Z_ADD => AddSubOp::Add,
        Z_SUB => AddSubOp::Sub,
        _ => return None,
    };
    Some(Sve::AddSub {
        op,
        zd: Bits::at(word, 0),
        zn: Bits::at(word, 5),
        zm: Bits::at(word, 16),
        size: Size::at(word, 22),
    })
}

#[tactic(auto, unfolding(word_rows::specs::Row::reads, sve_code::specs::Table::merging))]
fn merging_of(word: u32) -> Option<Sve>
    ensures { option_map instruction_view result ≡ reads row merging word }
{
    let op = match word & 0xff3f_e000 {
        M_ADD => BinaryPredicatedOp::Add,
        M_SUB => BinaryPredicatedOp::Sub,
        M_SMAX => BinaryPredicatedOp::Smax,
        M_UMAX => BinaryPredicatedOp::Umax,
        M_SMIN => BinaryPredicatedOp::Smin,
        M_UMIN => BinaryPredicatedOp::Umin,
        M_MUL => BinaryPredicatedOp::Mul,
        M_ORR => BinaryPredicatedOp::Orr,
        M_EOR => BinaryPredicatedOp::Eor,
        M_AND => BinaryPredicatedOp::And,
        _ => return None,
    };
    Some(Sve::BinaryPredicated {
        op,
        zdn: Bits::at(word, 0),
        zm: Bits::at(word, 5),
        pg: Bits::at(word, 10),
        size: Size::at(word, 22),
    })
}

#[tactic(auto, unfolding(word_rows::specs::Row::reads, sve_code::specs::Table::logic))]
fn logic_of(word: u32) -> Option<Sve>
    ensures { option_map instruction_view result ≡ reads row logic word }
{
    let op = match word & 0xffe0_fc00 {
        Z_AND => BitwiseOp::And,
        Z_ORR => BitwiseOp::Orr,
        Z_EOR => BitwiseOp::Eor,
        Z_BIC => BitwiseOp::Bic,
        _ => return None,
    };
    Some(Sve::Bitwise {
        op,
        zd: Bits::at(word, 0),
        zn: Bits::at(word, 5),
        zm: Bits::at(word, 16),
    })
}

#[tactic(auto, unfolding(word_rows::specs::Row::reads, sve_code::specs::Table::reduce))]
fn reduce_of(word: u32) -> Option<Sve>
    ensures { option_map instruction_view result ≡ reads row reduce word }
{
    let op = match word & 0xff3f_e000 {
        UADDV => ReductionOp::Uaddv,
        SMAXV => ReductionOp::Smaxv,
        UMAXV => ReductionOp::Umaxv,
        SMINV => ReductionOp::Sminv,
        UMINV => ReductionOp::Uminv,
        ORV => ReductionOp::Orv,
        EORV => ReductionOp::Eorv,
        ANDV => ReductionOp::Andv,
        _ => return None,
    };
    Some(Sve::Reduction {
        op,
        zd: Bits::at(word, 0),
        zn: Bits::at(word, 5),
        pg: Bits::at(word, 10),
        size: Size::at(word, 22),
    })
}

#[tactic(auto, unfolding(word_rows::specs::Row::reads, sve_code::specs::Table::index))]
fn index_of(word: u32) -> Option<Sve>
    ensures { option_map instruction_view result ≡ reads row index word }
{
    if word & 0xff20_fc00 != INDEX_ROW {
        return None;
    }
    Some(Sve::IndexScalarImmediate {
        zd: Bits::at(word, 0),
        rn: Bits::at(word, 5),
        imm5: Bits::at(word, 16),
        size: Size::at(word, 22),
    })
}

#[tactic(auto, unfolding(word_rows::specs::Row::reads, sve_code::specs::Table::shift_imm))]
fn shift_imm_of(word: u32) -> Option<Sve>
    ensures { option_map instruction_view result ≡ reads row shift_imm word }
{
    let op = match word & 0xff20_fc00 {
        LSL_IMM => ShiftImmediateOp::Lsl,
        LSR_IMM => ShiftImmediateOp::Lsr,
        ASR_IMM => ShiftImmediateOp::Asr,
        _ => return None,
    };
    Some(Sve::ShiftImmediate {
        op,
        zd: Bits::at(word, 0),
        zn: Bits::at(word, 5),
        amount: ShiftAmount::at(word)?,
    })
}

#[tactic(auto, unfolding(word_rows::specs::Row::reads, sve_code::specs::Table::unary))]
fn unary_of(word: u32) -> Option<Sve>
    ensures { option_map instruction_view result ≡ reads row unary word }
{
    let op = match word & 0xff3f_e000 {
        M_ABS => UnaryPredicatedOp::Abs,
        M_NEG => UnaryPredicatedOp::Neg,
        M_NOT => UnaryPredicatedOp::Not,
        _ => return None,
    };
    Some(Sve::UnaryPredicated {
        op,
        zd: Bits::at(word, 0),
        zn: Bits::at(word, 5),
        pg: Bits::at(word, 10),
        size: Size::at(word, 22),
    })
}

#[tactic(auto, unfolding(word_rows::specs::Row::reads, sve_code::specs::Table::extend_byte))]
fn extend_byte_of(word: u32) -> Option<Sve>
    ensures { option_map instruction_view result ≡ reads row extend_byte word }
{
    let op = match word & 0xff3f_e000 {
        SXTB => ExtendOp::Signed,
        UXTB => ExtendOp::Unsigned,
        _ => return None,
    };
    Some(Sve::ExtendByte {
        op,
        zd: Bits::at(word, 0),
        zn: Bits::at(word, 5),
        pg: Bits::at(word, 10),
        size: SizeFromH::of(field(word, 22, 2))?,
    })
}

#[tactic(auto, unfolding(word_rows::specs::Row::reads, sve_code::specs::Table::extend_half))]
fn extend_half_of(word: u32) -> Option<Sve>
    ensures { option_map instruction_view result ≡ reads row extend_half word }
{
    let op = match word & 0xff3f_e000 {
        SXTH => ExtendOp::Signed,
        UXTH => ExtendOp::Unsigned,
        _ => return None,
    };
    Some(Sve::ExtendHalfword {
        op,
        zd: Bits::at(word, 0),
        zn: Bits::at(word, 5),
        pg: Bits::at(word, 10),
        size: SizeFromS::of(field(word, 22, 2))?,
    })
}

#[tactic(auto, unfolding(word_rows::specs::Row::reads, sve_code::specs::Table::extend_word))]
fn extend_word_of(word: u32) -> Option<Sve>
    ensures { option_map instruction_view result ≡ reads row extend_word word }
{
    let op = match word & 0xffff_e000 {
        SXTW => ExtendOp::Signed,
        UXTW => ExtendOp::Unsigned,
        _ => return None,
    };
    Some(Sve::ExtendWord {
        op,
        zd: Bits::at(word, 0),
        zn: Bits::at(word, 5),
        pg: Bits::at(word, 10),
    })
}

#[tactic(auto, unfolding(word_rows::specs::Row::reads, sve_code::specs::Table::count))]
fn count_of(word: u32) -> Option<Sve>
    ensures { option_map instruction_view result ≡ reads row count word }
{
    let op = match word & 0xffff_ffe0 {
        CNTB => ElementCountOp::Cntb,
        CNTH => ElementCountOp::Cnth,
        CNTW => ElementCountOp::Cntw,
        CNTD => ElementCountOp::Cntd,
        _ => return None,
    };
    Some(Sve::ElementCount {
        op,
        rd: Bits::at(word, 0),
    })
}
