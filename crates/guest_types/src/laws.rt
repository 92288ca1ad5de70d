//! Laws of the definitions: what stores leave alone, what a merge has, and how a stop list goes on.

ghost use Rattle.std.specs.Prelude.{◌≡◌, ℕ, ◌+◌, ◌^◌, ◌<◌, Bool};
ghost use Rattle.std.specs.Option.{option_or};
ghost use Rattle.guest_types.specs.Memory.{Memory, IsMemory, DoNotMeet, page_at, merged, can_read, can_write, fetched};
ghost use Rattle.guest_types.specs.AfterStores.{AfterStores};
ghost use Rattle.guest_types.specs.EarlyLoads.{StopList, later, stop_at, rank, suppressed_at};

/// However many stores there are: each page stays mapped as it was, nothing else becomes mapped, and a word that can be
/// fetched stays as it is.
pub fn stores_leave_alone()
    ensures read { (before after : Memory) → AfterStores before after → (a : ℕ)
        → can_read after a ≡ can_read before a }
    ensures write { (before after : Memory) → AfterStores before after → (a : ℕ)
        → can_write after a ≡ can_write before a }
    ensures code { (before after : Memory) → AfterStores before after → (a : ℕ) → a < 2 ^ 64
        → fetched after a ≡ fetched before a }
    ensures memory { (before after : Memory) → AfterStores before after → IsMemory before → IsMemory after }
{}

/// A look-up in the merge of two memories that have no page in common finds the page of the one that has it.
pub fn merged_pages()
    ensures pages { (memory other : Memory) → (n : ℕ) → DoNotMeet memory other
        → page_at (merged memory other) n ≡ option_or (page_at memory n) (page_at other n) }
{}

/// What a stop list suppresses from the element n on is what the list, as it is counted after the free elements below n,
/// suppresses from there on.
pub fn stop_lists_go_on()
    ensures lists { (s : StopList) (n k : ℕ) → later (later s n) k ≡ later s (n + k) }
    ensures stops { (s : StopList) (n j : ℕ) → stop_at (later s n) j ≡ stop_at s (n + j) }
    ensures elements { (free faults : ℕ → Bool) (s : StopList) (n e : ℕ)
        → suppressed_at free faults (stop_at s) (n + e)
        ≡ suppressed_at (λ j. free (n + j)) (λ j. faults (n + j)) (stop_at (later s (rank free n))) e }
{}
