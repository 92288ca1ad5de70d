//! Instructions on predicates: the words with the top byte 0x25.
ghost use Rattle.std.specs.Prelude.{◌≡◌};
ghost use Rattle.std.specs.Option.{option_map};
ghost use Rattle.word_rows.specs.Row.{reads};
ghost use Rattle.sve_code.specs.Table.{row, while_below, pred_logic, break_form, set_ffr, write_ffr, increment_by_count, count_true, true_form, false_form, test_form, read_ffr, read_ffr_zeroing};
ghost use Rattle.sve_code.specs.View.{instruction_view};
ghost use Rattle.sve_decode.specs.Groups.{predicates, predicate_operations, predicate_updates, predicate_sources};

use sve_code::bases::{
    BRKA, BRKB, CNTP, INCP, P_AND, P_ANDS, P_BIC, P_EOR, P_ORR, PFALSE, PTEST, PTRUE, RDFFR,
    RDFFR_Z, SETFFR, WHILELO, WRFFR,
};
use sve_code::{BreakOp, PredicateLogicalOp, Size, Sve};
use word_rows::{Bits, field};

/// The instruction on predicates of a word, sought by bits 15 and 14.
pub fn predicates_of(word: u32) -> Option<Sve>
    ensures { option_map instruction_view result ≡ reads row predicates word }
{
    match field(word, 14, 2) {
        0 => while_below_of(word),
        1 => predicate_operations_of(word),
        2 => predicate_updates_of(word),
        _ => predicate_sources_of(word),
    }
}

#[tactic(auto, using(word_rows::proofs::TableLaws::tables), unfolding(crate::specs::Groups::predicate_operations))]
fn predicate_operations_of(word: u32) -> Option<Sve>
    ensures { option_map instruction_view result ≡ reads row predicate_operations word }
{
    if let Some(found) = pred_logic_of(word) {
        return Some(found);
    }
    break_form_of(word)
}

#[tactic(auto, using(word_rows::proofs::TableLaws::tables), unfolding(crate::specs::Groups::predicate_updates))]
fn predicate_updates_of(word: u32) -> Option<Sve>
    ensures { option_map instruction_view result ≡ reads row predicate_updates word }
{
    if let Some(found) = set_ffr_of(word) {
        return Some(found);
    }
    if let Some(found) = write_ffr_of(word) {
        return Some(found);
    }
    if let Some(found) = increment_by_count_of(word) {
        return Some(found);
    }
    count_true_of(word)
}

#[tactic(auto, using(word_rows::proofs::TableLaws::tables), unfolding(crate::specs::Groups::predicate_sources))]
fn predicate_sources_of(word: u32) -> Option<Sve>
    ensures { option_map instruction_view result ≡ reads row predicate_sources word }
{
    if let Some(found) = true_form_of(word) {
        return Some(found);
    }
    if let Some(found) = false_form_of(word) {
        return Some(found);
    }
    if let Some(found) = test_form_of(word) {
        return Some(found);
    }
    if let Some(found) = read_ffr_of(word) {
        return Some(found);
    }
    read_ffr_zeroing_of(word)
}

#[tactic(auto, unfolding(word_rows::specs::Row::reads, sve_code::specs::Table::while_below))]
fn while_below_of(word: u32) -> Option<Sve>
    ensures { option_map instruction_view result ≡ reads row while_below word }
{
    if word & 0xff20_fc10 != WHILELO {
        return None;
    }
    Some(Sve::Whilelo {
        pd: Bits::at(word, 0),
        rn: Bits::at(word, 5),
        rm: Bits::at(word, 16),
        size: Size::at(word, 22),
    })
}

#[tactic(auto, unfolding(word_rows::specs::Row::reads, sve_code::specs::Table::pred_logic))]
fn pred_logic_of(word: u32) -> Option<Sve>
    ensures { option_map instruction_view result ≡ reads row pred_logic word }
{
    let op = match word & 0xfff0_c210 {
        P_AND => PredicateLogicalOp::And,
        P_BIC => PredicateLogicalOp::Bic,
        P_EOR => PredicateLogicalOp::Eor,
        P_ORR => PredicateLogicalOp::Orr,
        P_ANDS => PredicateLogicalOp::Ands,
        _ => return None,
    };
    Some(Sve::PredicateLogical {
        op,
        pd: Bits::at(word, 0),
        pn: Bits::at(word, 5),
        pg: Bits::at(word, 10),
        pm: Bits::at(word, 16),
    })
}

#[tactic(auto, unfolding(word_rows::specs::Row::reads, sve_code::specs::Table::break_form))]
fn break_form_of(word: u32) -> Option<Sve>
    ensures { option_map instruction_view result ≡ reads row break_form word }
{
    let op = match word & 0xffff_c210 {
        BRKA => BreakOp::Brka,
        BRKB => BreakOp::Brkb,
        _ => return None,
    };
    Some(Sve::Break {
        op,
        pd: Bits::at(word, 0),
        pn: Bits::at(word, 5),
        pg: Bits::at(word, 10),
    })
}

#[tactic(auto, unfolding(word_rows::specs::Row::reads, sve_code::specs::Table::set_ffr))]
fn set_ffr_of(word: u32) -> Option<Sve>
    ensures { option_map instruction_view result ≡ reads row set_ffr word }
{
    if word != SETFFR {
        return None;
    }
    Some(Sve::Setffr)
}

#[tactic(auto, unfolding(word_rows::specs::Row::reads, sve_code::specs::Table::write_ffr))]
fn write_ffr_of(word: u32) -> Option<Sve>
    ensures { option_map instruction_view result ≡ reads row write_ffr word }
{
    if word & 0xffff_fe1f != WRFFR {
        return None;
    }
    Some(Sve::Wrffr {
        pn: Bits::at(word, 5),
    })
}

#[tactic(auto, unfolding(word_rows::specs::Row::reads, sve_code::specs::Table::increment_by_count))]
fn increment_by_count_of(word: u32) -> Option<Sve>
    ensures { option_map instruction_view result ≡ reads row increment_by_count word }
{
    if word & 0xff3f_fe00 != INCP {
        return None;
    }
    Some(Sve::Incp {
        rd: Bits::at(word, 0),
        pm: Bits::at(word, 5),
        size: Size::at(word, 22),
    })
}

#[tactic(auto, unfolding(word_rows::specs::Row::reads, sve_code::specs::Table::count_true))]
fn count_true_of(word: u32) -> Option<Sve>
    ensures { option_map instruction_view result ≡ reads row count_true word }
{
    if word & 0xff3f_c200 != CNTP {
        return None;
    }
    Some(Sve::Cntp {
        rd: Bits::at(word, 0),
        pn: Bits::at(word, 5),
        pg: Bits::at(word, 10),
        size: Size::at(word, 22),
    })
}

#[tactic(auto, unfolding(word_rows::specs::Row::reads, sve_code::specs::Table::true_form))]
fn true_form_of(word: u32) -> Option<Sve>
    ensures { option_map instruction_view result ≡ reads row true_form word }
{
    if word & 0xff3f_fff0 != PTRUE {
        return None;
    }
    Some(Sve::Ptrue {
        pd: Bits::at(word, 0),
        size: Size::at(word, 22),
    })
}

#[tactic(auto, unfolding(word_rows::specs::Row::reads, sve_code::specs::Table::false_form))]
fn false_form_of(word: u32) -> Option<Sve>
    ensures { option_map instruction_view result ≡ reads row false_form word }
{
    if word & 0xffff_fff0 != PFALSE {
        return None;
    }
    Some(Sve::Pfalse {
        pd: Bits::at(word, 0),
    })
}

#[tactic(auto, unfolding(word_rows::specs::Row::reads, sve_code::specs::Table::test_form))]
fn test_form_of(word: u32) -> Option<Sve>
    ensures { option_map instruction_view result ≡ reads row test_form word }
{
    if word & 0xffff_c21f != PTEST {
        return None;
    }
    Some(Sve::Ptest {
        pn: Bits::at(word, 5),
        pg: Bits::at(word, 10),
    })
}

#[tactic(auto, unfolding(word_rows::specs::Row::reads, sve_code::specs::Table::read_ffr))]
fn read_ffr_of(word: u32) -> Option<Sve>
    ensures { option_map instruction_view result ≡ reads row read_ffr word }
{
    if word & 0xffff_fff0 != RDFFR {
        return None;
    }
    Some(Sve::Rdffr {
        pd: Bits::at(word, 0),
    })
}

#[tactic(auto, unfolding(word_rows::specs::Row::reads, sve_code::specs::Table::read_ffr_zeroing))]
fn read_ffr_zeroing_of(word: u32) -> Option<Sve>
    ensures { option_map instruction_view result ≡ reads row read_ffr_zeroing word }
{
    if word & 0xffff_fe10 != RDFFR_Z {
        return None;
    }
    Some(Sve::RdffrPredicated {
        pd: Bits::at(word, 0),
        pg: Bits::at(word, 5),
    })
}
