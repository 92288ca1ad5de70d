//! Loads and stores.
ghost use Rattle.std.specs.Prelude.{◌≡◌};
ghost use Rattle.std.specs.Option.{option_map};
ghost use Rattle.word_rows.specs.Row.{reads};
ghost use Rattle.sve_code.specs.Table.{row, load, load_first_fault, load_no_fault, load_gather, store};
ghost use Rattle.sve_code.specs.View.{instruction_view};
ghost use Rattle.sve_decode.specs.Groups.{loads};

use sve_code::bases::{GLD1B, GLD1D, GLD1H, GLD1SB, GLD1SH, GLD1SW, GLD1W, LD1, LDFF1, LDNF1, ST1};
use sve_code::{Dtype, GatherOp, OffsetReg, Size, StoreSizes, Sve};
use word_rows::{Bits, field};

#[tactic(auto, using(word_rows::proofs::TableLaws::tables), unfolding(crate::specs::Groups::loads))]
pub fn loads_of(word: u32) -> Option<Sve>
    ensures { option_map instruction_view result ≡ reads row loads word }
{
    if let Some(found) = load_of(word) {
        return Some(found);
    }
    if let Some(found) = load_first_fault_of(word) {
        return Some(found);
    }
    load_no_fault_of(word)
}

#[tactic(auto, unfolding(word_rows::specs::Row::reads, sve_code::specs::Table::load))]
fn load_of(word: u32) -> Option<Sve>
    ensures { option_map instruction_view result ≡ reads row load word }
{
    if word & 0xfe00_e000 != LD1 {
        return None;
    }
    Some(Sve::ContiguousLoad {
        zt: Bits::at(word, 0),
        rn: Bits::at(word, 5),
        pg: Bits::at(word, 10),
        offset: OffsetReg::of(field(word, 16, 5))?,
        dtype: Dtype::at(word),
    })
}

#[tactic(auto, unfolding(word_rows::specs::Row::reads, sve_code::specs::Table::load_first_fault))]
fn load_first_fault_of(word: u32) -> Option<Sve>
    ensures { option_map instruction_view result ≡ reads row load_first_fault word }
{
    if word & 0xfe00_e000 != LDFF1 {
        return None;
    }
    Some(Sve::FirstFaultLoad {
        zt: Bits::at(word, 0),
        rn: Bits::at(word, 5),
        pg: Bits::at(word, 10),
        rm: Bits::at(word, 16),
        dtype: Dtype::at(word),
    })
}

#[tactic(auto, unfolding(word_rows::specs::Row::reads, sve_code::specs::Table::load_no_fault))]
fn load_no_fault_of(word: u32) -> Option<Sve>
    ensures { option_map instruction_view result ≡ reads row load_no_fault word }
{
    if word & 0xfe1f_e000 != LDNF1 {
        return None;
    }
    Some(Sve::NonFaultLoad {
        zt: Bits::at(word, 0),
        rn: Bits::at(word, 5),
        pg: Bits::at(word, 10),
        dtype: Dtype::at(word),
    })
}

#[tactic(auto, unfolding(word_rows::specs::Row::reads, sve_code::specs::Table::load_gather))]
pub fn gather_of(word: u32) -> Option<Sve>
    ensures { option_map instruction_view result ≡ reads row load_gather word }
{
    let op = match word & 0xffe0_e000 {
        GLD1B => GatherOp::Ld1b,
        GLD1H => GatherOp::Ld1h,
        GLD1W => GatherOp::Ld1w,
        GLD1D => GatherOp::Ld1d,
        GLD1SB => GatherOp::Ld1sb,
        GLD1SH => GatherOp::Ld1sh,
        GLD1SW => GatherOp::Ld1sw,
        _ => return None,
    };
    Some(Sve::GatherLoad {
        op,
        zt: Bits::at(word, 0),
        rn: Bits::at(word, 5),
        pg: Bits::at(word, 10),
        zm: Bits::at(word, 16),
    })
}

#[tactic(auto, unfolding(word_rows::specs::Row::reads, sve_code::specs::Table::store))]
pub fn store_of(word: u32) -> Option<Sve>
    ensures { option_map instruction_view result ≡ reads row store word }
{
    if word & 0xfe00_e000 != ST1 {
        return None;
    }
    Some(Sve::ContiguousStore {
        zt: Bits::at(word, 0),
        rn: Bits::at(word, 5),
        pg: Bits::at(word, 10),
        offset: OffsetReg::of(field(word, 16, 5))?,
        sizes: StoreSizes::of(Size::at(word, 23), Size::at(word, 21))?,
    })
}
