//! The SVE instruction of a word.
#![tactic(auto)]

ghost use Rattle.std.specs.Prelude.{◌≡◌, Some, IfSome};
ghost use Rattle.std.specs.Option.{option_map};
ghost use Rattle.word_rows.specs.Row.{reads, spells};
ghost use Rattle.sve_code.specs.declared.Sve.{Sve};
ghost use Rattle.sve_code.specs.Table.{row, sve_names, compare, duplicate, select, store};
ghost use Rattle.sve_code.specs.View.{instruction_view};
ghost use Rattle.sve_decode.specs.Groups.{moves};

mod memory;
mod predicates;
mod vectors;

use memory::{gather_of, loads_of, store_of};
use predicates::predicates_of;
use sve_code::bases::{CMPEQ, CMPGE, CMPGT, CMPHI, CMPHS, CMPNE, DUP, SEL};
use sve_code::{Size, Sve, VectorCompareOp};
use vectors::vectors_of;
use word_rows::Bits;

/// The instruction of a word, where the word is in a row of the SVE table.
pub fn decode(word: u32) -> Option<Sve>
    ensures table { option_map instruction_view result ≡ reads row sve_names word }
    ensures spelled { IfSome result (λ x. spells row (instruction_view x) ≡ word) }
    ensures inverts { (x : Sve) → word ≡ spells row (instruction_view x) → result ≡ Some x }
{
    by_top_byte(word)
}

/// The instruction of a word, sought only among the rows that have its top byte.
fn by_top_byte(word: u32) -> Option<Sve>
    ensures { option_map instruction_view result ≡ reads row sve_names word }
{
    match word >> 24 {
        0x04 => vectors_of(word),
        0x05 => moves_of(word),
        0x24 => compare_of(word),
        0x25 => predicates_of(word),
        0xa4 | 0xa5 => loads_of(word),
        0xc4 | 0xc5 => gather_of(word),
        0xe4 | 0xe5 => store_of(word),
        _ => None,
    }
}

#[tactic(auto, using(word_rows::proofs::TableLaws::tables), unfolding(crate::specs::Groups::moves))]
fn moves_of(word: u32) -> Option<Sve>
    ensures { option_map instruction_view result ≡ reads row moves word }
{
    if let Some(found) = duplicate_of(word) {
        return Some(found);
    }
    select_of(word)
}

#[tactic(auto, unfolding(word_rows::specs::Row::reads, sve_code::specs::Table::duplicate))]
fn duplicate_of(word: u32) -> Option<Sve>
    ensures { option_map instruction_view result ≡ reads row duplicate word }
{
    if word & 0xff3f_fc00 != DUP {
        return None;
    }
    Some(Sve::DupScalar {
        zd: Bits::at(word, 0),
        rn: Bits::at(word, 5),
        size: Size::at(word, 22),
    })
}

#[tactic(auto, unfolding(word_rows::specs::Row::reads, sve_code::specs::Table::select))]
fn select_of(word: u32) -> Option<Sve>
    ensures { option_map instruction_view result ≡ reads row select word }
{
    if word & 0xff20_c000 != SEL {
        return None;
    }
    Some(Sve::Sel {
        zd: Bits::at(word, 0),
        zn: Bits::at(word, 5),
        pg: Bits::at(word, 10),
        zm: Bits::at(word, 16),
        size: Size::at(word, 22),
    })
}

#[tactic(auto, unfolding(word_rows::specs::Row::reads, sve_code::specs::Table::compare))]
fn compare_of(word: u32) -> Option<Sve>
    ensures { option_map instruction_view result ≡ reads row compare word }
{
    let op = match word & 0xff20_e010 {
        CMPHS => VectorCompareOp::Hs,
        CMPHI => VectorCompareOp::Hi,
        CMPGE => VectorCompareOp::Ge,
        CMPGT => VectorCompareOp::Gt,
        CMPEQ => VectorCompareOp::Eq,
        CMPNE => VectorCompareOp::Ne,
        _ => return None,
    };
    Some(Sve::CompareVectors {
        op,
        pd: Bits::at(word, 0),
        zn: Bits::at(word, 5),
        pg: Bits::at(word, 10),
        zm: Bits::at(word, 16),
        size: Size::at(word, 22),
    })
}
