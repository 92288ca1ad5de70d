//! What `run`, `list` and `asm` make of a file that `compile` wrote, and what `run` of it has in common with `eval`.
#![tactic(auto)]

ghost use Rattle.std.specs.Prelude.{◌≡◌, ℕ, List, [], Some};
ghost use Rattle.io_edges.specs.Files.{content};
ghost use Rattle.command_answers.specs.Answer.{HeldFiles};
ghost use Rattle.command_answers.specs.Works.{ended};
ghost use Rattle.program_commands.specs.Commands.{expected_of_list, expected_of_asm, IsAssembled};
ghost use Rattle.compile_command.specs.Compiles.{IsCompiled};
ghost use Rattle.run_laws.specs.CompiledListings.{IsCompiledAndListed};
ghost use Rattle.run_laws.specs.CompiledRuns.{FaithfulRuns, CompiledRuns};
ghost use Rattle.run_laws.specs.EvaluatedRuns.{HasEnded, FaithfulEvaluated, CompiledEvaluated};

/// What is wanted of `run` for a file that `compile` wrote is what the kernel's scalar loop comes to.
pub fn compiled_runs()
    ensures faithful { FaithfulRuns }
    ensures compiled { CompiledRuns }
{}

/// Where `eval` of a kernel ends, `run` of a file that `compile` wrote of it ends with the same result, in no more steps than are
/// enough for as many iterations, and leaves the pages of the map the same.
pub fn evaluated_runs()
    ensures faithful { FaithfulEvaluated }
    ensures compiled { CompiledEvaluated }
{}

/// `asm` of what `list` prints of a file that `compile` wrote gives that file, byte for byte, and neither of them refuses it.
pub fn compiled_listings()
    ensures listed { (old new : HeldFiles) (from to text : List ℕ)
        → content old from ≡ Some text → IsCompiled old new from to → HasEnded (expected_of_list new to) }
    ensures accepted { (old new later : HeldFiles) (from to listing : List ℕ)
        → IsCompiledAndListed old new later from to listing → expected_of_asm later listing ≡ ended [] }
    ensures same { (old new later last : HeldFiles) (from to listing again : List ℕ)
        → IsCompiledAndListed old new later from to listing → IsAssembled later last listing again
        → content last again ≡ content new to }
{}
