//! What the run of a kernel has to do with pages and bytes that it does not come to.
#![tactic(auto)]

ghost use Rattle.std.specs.Prelude.{◌≡◌, ◌<◌, ◌^◌, ℕ, List};
ghost use Rattle.guest_types.specs.Memory.{Memory, DoNotMeet, merged, put_number};
ghost use Rattle.kernel_tree.specs.Plain.{Program};
ghost use Rattle.kernel_meaning.specs.ScalarRun.{End, scalar_run};
ghost use Rattle.meaning_frame.specs.Accesses.{AreOff, accesses, run_with};

/// A run that ends over some pages ends with the same result after as many iterations where the memory has other pages too; it
/// leaves the pages that it has as before, and the others as they were.
pub fn more_pages()
    ensures same { (k : Program) (args : List ℕ) (memory others after : Memory) (result m : ℕ) → DoNotMeet others memory
        → scalar_run k args memory ≡ End after result m
        → scalar_run k args (merged others memory) ≡ End (merged others after) result m }
    ensures apart { (k : Program) (args : List ℕ) (memory others after : Memory) (result m : ℕ) → DoNotMeet others memory
        → scalar_run k args memory ≡ End after result m → DoNotMeet others after }
{}

/// A run none of whose accesses comes to some bytes is the same whatever these hold, and leaves them.
pub fn other_bytes()
    ensures { (k : Program) (args : List ℕ) (memory : Memory) (a n v : ℕ) → a < 2 ^ 64 → AreOff a n (accesses k args memory)
        → scalar_run k args (put_number memory a n v) ≡ run_with (λ m. put_number m a n v) (scalar_run k args memory) }
{}
