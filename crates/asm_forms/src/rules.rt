//! The form of a text.

ghost use Rattle.std.specs.Prelude.{◌≡◌, map, option_map};
ghost use Rattle.asm_forms.specs.Rules.{base_of, form_in, form_of};
ghost use Rattle.asm_forms.specs.View.{form_view, row_view, sum_view};

use crate::a64_forms::{branches, data_processing, indexed_accesses, offset_accesses};
use crate::forms::{Form, Places, Row};
use crate::sve_forms::{counts, predicates, vector_accesses, vectors};

#[tactic(auto, unfolding(crate::specs::Rules::base_of))]
fn base_in(rows: &[Row], mnemonic: &[u8]) -> Option<u32>
    ensures { result ≡ base_of (map row_view rows.now) mnemonic.now }
{
    let [row, rows @ ..] = rows else {
        return None;
    };
    if row.0.as_bytes() == mnemonic {
        Some(row.1)
    } else {
        base_in(rows, mnemonic)
    }
}

#[tactic(auto, unfolding(crate::specs::Rules::form_in))]
fn form_in(forms: &[Form], mnemonic: &[u8], operands: &[u8]) -> Option<(Places, u32)>
    ensures { option_map sum_view result ≡ form_in (map form_view forms.now) mnemonic.now operands.now }
{
    let [form, forms @ ..] = forms else {
        return None;
    };
    if form.operands.as_bytes() == operands {
        if let Some(base) = base_in(form.rows, mnemonic) {
            return Some((form.adds, base));
        }
    }
    form_in(forms, mnemonic, operands)
}

/// What the numbers add in the form of this mnemonic and these operands, and its base.
#[tactic(auto, unfolding(crate::specs::Rules::form_of))]
pub fn form_of(mnemonic: &[u8], operands: &[u8]) -> Option<(Places, u32)>
    ensures { option_map sum_view result ≡ form_of mnemonic.now operands.now }
{
    if let Some(found) = form_in(data_processing(), mnemonic, operands) {
        return Some(found);
    }
    if let Some(found) = form_in(branches(), mnemonic, operands) {
        return Some(found);
    }
    if let Some(found) = form_in(offset_accesses(), mnemonic, operands) {
        return Some(found);
    }
    if let Some(found) = form_in(indexed_accesses(), mnemonic, operands) {
        return Some(found);
    }
    if let Some(found) = form_in(predicates(), mnemonic, operands) {
        return Some(found);
    }
    if let Some(found) = form_in(counts(), mnemonic, operands) {
        return Some(found);
    }
    if let Some(found) = form_in(vectors(), mnemonic, operands) {
        return Some(found);
    }
    form_in(vector_accesses(), mnemonic, operands)
}
