//! What `list` prints of a program, and what `asm` makes of that text.

ghost use Rattle.std.specs.Prelude.{◌≡◌, ℕ, List, [], Some, Ok};
ghost use Rattle.io_edges.specs.Files.{content};
ghost use Rattle.list_text.specs.Text.{list_text};
ghost use Rattle.machine_model.specs.Written.{file_of as file_of_words, code_base, image_of_words};
ghost use Rattle.sve_asm.specs.Lines.{words_of};
ghost use Rattle.command_answers.specs.Answer.{HeldFiles};
ghost use Rattle.command_answers.specs.Works.{ended};
ghost use Rattle.program_commands.specs.Commands.{expected_of_list, expected_of_asm, IsAssembled};
ghost use Rattle.program_commands.specs.Listing.{listing_of};
ghost use Rattle.program_commands.specs.ReadBack.{IsProgram, IsListed};

/// What `list` prints of the file of some words is the listing of all of them, from the address of the first one on.
pub fn programs_are_listed()
    ensures image { (words : List ℕ) → IsProgram words
        → listing_of (image_of_words words) ≡ list_text code_base words }
    ensures file { (words : List ℕ) (held : HeldFiles) (name : List ℕ) → IsProgram words
        → content held name ≡ Some (file_of_words words)
        → expected_of_list held name ≡ ended (list_text code_base words) }
{}

/// The words that `asm` makes a file of, for whatever text, are those of a program.
pub fn assembled_words_are_programs()
    ensures { (text words : List ℕ) → words_of text ≡ Ok words → IsProgram words }
{}

/// `asm` refuses nothing that `list` prints of the file of some words, and makes that file of it, byte for byte.
pub fn listings_are_assembled()
    ensures words { (words : List ℕ) → IsProgram words → words_of (list_text code_base words) ≡ Ok words }
    ensures accepted { (words : List ℕ) (first later : HeldFiles) (program listing : List ℕ)
        → IsListed words first later program listing → expected_of_asm later listing ≡ ended [] }
    ensures same { (words : List ℕ) (first second third : HeldFiles) (program listing again : List ℕ)
        → IsListed words first second program listing → IsAssembled second third listing again
        → content third again ≡ content first program }
{}
