//! What holds of the table.
ghost use Rattle.std.specs.Prelude.{◌≡◌, ◌^◌, ◌<◌, ℕ, true, Some, slice_get};
ghost use Rattle.word_rows.specs.Row.{Instruction, IsInstruction, reads, spells, takes};
ghost use Rattle.sve_code.specs.declared.Sve.{Sve};
ghost use Rattle.sve_code.specs.Table.{Name, row, sve_names};
ghost use Rattle.sve_code.specs.View.{instruction_view};

/// Every value of [`Sve`](crate::Sve) is an instruction of the table, the word of an instruction of
/// it reads as that instruction, and a word is spelled by what it reads as.
pub fn table_laws()
    ensures listed { (x : Sve) → IsInstruction row sve_names (instruction_view x) }
    ensures reads_back { (i : Instruction Name) → IsInstruction row sve_names i
        → reads row sve_names (spells row i) ≡ Some i }
    ensures spells_back { (word : ℕ) (i : Instruction Name) → word < 2 ^ 32 → reads row sve_names word ≡ Some i
        → spells row i ≡ word }
{}

/// No word is in two rows.
pub fn word_in_one_row()
    ensures { (word i j : ℕ) (m n : Name) → slice_get sve_names i ≡ Some m → slice_get sve_names j ≡ Some n
        → takes (row m) word ≡ true → takes (row n) word ≡ true → i ≡ j }
{}
