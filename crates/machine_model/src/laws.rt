//! Laws of the definitions: that no word is in both tables, what runs owe one another, what they suppress, that states keep
//! their shape, that all they do to memory is stores, what a step does where code stands, and what a written file is loaded as.

ghost use Rattle.std.specs.Prelude.{◌≡◌, ℕ, ◌+◌, ◌*◌, ◌^◌, ◌<◌, ◌≤◌, true, List, ◌∷◌, ◌++◌, length, slice_get, Some, None, Ok, All};
ghost use Rattle.guest_types.specs.Memory.{Memory, DoNotMeet, fetched, merged};
ghost use Rattle.guest_types.specs.AfterStores.{AfterStores};
ghost use Rattle.guest_types.specs.EarlyLoads.{StopList, never};
ghost use Rattle.word_rows.specs.Row.{Instruction, reads};
ghost use Rattle.a64_code.specs.Table as a64;
ghost use Rattle.sve_code.specs.Table as sve;
ghost use Rattle.machine_model.specs.Machine.{State, Went, memory_after};
ghost use Rattle.machine_model.specs.InstructionTable.{Listed, Vector, listed};
ghost use Rattle.machine_model.specs.CodeInMemory.{HasCode, AllListed, IsListed, spell, place_after, words_of};
ghost use Rattle.machine_model.specs.Frames.{SameAccess};
ghost use Rattle.machine_model.specs.Load.{Image, load};
ghost use Rattle.machine_model.specs.Written.{file_of, code_base, image_of_words};
ghost use Rattle.machine_model.specs.OneStep.{step, does, cuts_in, suppresses};
ghost use Rattle.machine_model.specs.Run.{Spent, run, start, free_start, after_steps, is_over, steps_taken, memory_left, suppressed};
ghost use Rattle.machine_model.specs.States.{IsState, CanStart};

/// No word is both an A64 and an SVE instruction, so the SVE instruction of a word is what the joint table has for it.
pub fn no_word_in_both_tables()
    ensures apart { (word : ℕ) (i : Instruction a64.Name) → reads a64.row a64.a64_names word ≡ Some i
        → reads sve.row sve.sve_names word ≡ None }
    ensures vectors { (word : ℕ) (v : Instruction sve.Name) → reads sve.row sve.sve_names word ≡ Some v
        → listed word ≡ Some (Vector v) }
{}

/// A run whose first steps go on is the run from the state that they lead to, with their number counted.
pub fn runs_compose()
    ensures onward { (n k taken : ℕ) (s t : State) → after_steps n s ≡ Some t
        → run (n + k) taken s ≡ run k (taken + n) t }
    ensures spent { (n taken : ℕ) (s t : State) → after_steps n s ≡ Some t
        → run n taken s ≡ Spent t.pc t.memory (taken + n) }
{}

/// A run that ended or stopped within some steps is the same for every greater number of them.
pub fn runs_settle()
    ensures settled { (n m taken : ℕ) (s : State) → n ≤ m → is_over (run n taken s) ≡ true
        → run m taken s ≡ run n taken s }
    ensures within { (n taken : ℕ) (s : State) → steps_taken (run n taken s) ≤ taken + n }
{}

/// The free elements that a run suppresses up to a step, and from there on, add up. None is where the stop list is empty.
pub fn suppressed_adds_up()
    ensures onward { (n k : ℕ) (s t : State) → after_steps n s ≡ Some t
        → suppressed (n + k) s ≡ suppressed n s + suppressed k t }
    ensures over { (n k taken : ℕ) (s : State) → is_over (run n taken s) ≡ true
        → suppressed (n + k) s ≡ suppressed n s }
    ensures more { (n k : ℕ) (s : State) → suppressed n s ≤ suppressed (n + k) s }
    ensures quiet { (n : ℕ) (s : State) → s.stops ≡ never → suppressed n s ≡ 0 }
{}

/// The start of a run is a state, with any stop list, and each step that goes on leads to one, whatever the word.
pub fn states_keep_shape()
    ensures start { (image : Image) (args : List ℕ) (pages : Memory) (vl : ℕ) → CanStart image args pages vl
        → IsState (start image args pages vl) }
    ensures free { (image : Image) (args : List ℕ) (pages : Memory) (vl : ℕ) (stops : StopList)
        → CanStart image args pages vl → IsState (free_start image args pages vl stops) }
    ensures step { (s t : State) → IsState s → step s ≡ Went t → IsState t }
    ensures steps { (n : ℕ) (s t : State) → IsState s → after_steps n s ≡ Some t → IsState t }
{}

/// All that a step or a run does to memory is stores, whatever it comes to.
pub fn memory_changes_by_stores()
    ensures step { (s : State) → AfterStores s.memory (memory_after (step s) s) }
    ensures run { (n taken : ℕ) (s : State) → AfterStores s.memory (memory_left (run n taken s)) }
{}

/// So what is mapped stays so, with its permissions, and nothing else becomes mapped, at any address.
pub fn map_stays()
    ensures step { (s : State) (a : ℕ) → SameAccess s.memory (memory_after (step s) s) a }
    ensures run { (n taken : ℕ) (s : State) (a : ℕ) → SameAccess s.memory (memory_left (run n taken s)) a }
{}

/// And a word that can be fetched stays as it is.
pub fn code_stays()
    ensures step { (s : State) (a : ℕ) → a < 2 ^ 64 → fetched (memory_after (step s) s) a ≡ fetched s.memory a }
    ensures run { (n taken : ℕ) (s : State) (a : ℕ) → a < 2 ^ 64
        → fetched (memory_left (run n taken s)) a ≡ fetched s.memory a }
{}

/// The word of an instruction that a row has is read as that instruction, of both tables.
pub fn spelled_is_listed()
    ensures { (i : Listed) → IsListed i → listed (spell i) ≡ Some i }
{}

/// Where code stands, a step does its first instruction, and suppresses what that does; and the code goes on standing there.
pub fn code_is_done()
    ensures does { (s : State) (i : Listed) (is : List Listed) → HasCode s.memory s.pc (i ∷ is) → step s ≡ does i s }
    ensures cuts { (s : State) (i : Listed) (is : List Listed) → HasCode s.memory s.pc (i ∷ is)
        → suppresses s ≡ cuts_in i s }
    ensures stays { (s : State) (pc : ℕ) (is : List Listed) → pc < 2 ^ 64 → HasCode s.memory pc is
        → HasCode (memory_after (step s) s) pc is }
    ensures parts { (memory : Memory) (pc : ℕ) (front back : List Listed) → HasCode memory pc (front ++ back)
        → HasCode memory pc front × HasCode memory (place_after pc front) back }
{}

/// A run that begins with no stop list has none after any step that goes on.
pub fn quiet_stays()
    ensures step { (s t : State) → s.stops ≡ never → step s ≡ Went t → t.stops ≡ never }
    ensures steps { (n : ℕ) (s t : State) → s.stops ≡ never → after_steps n s ≡ Some t → t.stops ≡ never }
{}

/// A written file is loaded as the image of its words, beside any pages that do not meet it, with each word in its place.
pub fn written_file_loads()
    ensures loads { (words : List ℕ) → length words ≤ 65536 → load (file_of words) ≡ Ok (image_of_words words) }
    ensures fetches { (words : List ℕ) (pages : Memory) (k w : ℕ) → length words ≤ 65536
        → All (λ word. word < 2 ^ 32) words
        → DoNotMeet (image_of_words words).pages pages → slice_get words k ≡ Some w
        → fetched (merged (image_of_words words).pages pages) (code_base + 4 * k) ≡ Some w }
    ensures code { (is : List Listed) (pages : Memory) → length is ≤ 65536 → AllListed is
        → DoNotMeet (image_of_words (words_of is)).pages pages
        → HasCode (merged (image_of_words (words_of is)).pages pages) code_base is }
{}
