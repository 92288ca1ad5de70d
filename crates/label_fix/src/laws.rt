//! What the words of a draft do.

ghost use Rattle.std.specs.Prelude.{◌≡◌, List, length};
ghost use Rattle.label_fix.specs.DraftRun.{DraftEntry};
ghost use Rattle.label_fix.specs.Finished.{size, words_of};
ghost use Rattle.label_fix.specs.RunsAsDraft.{RunsAsDraft, CutsAreSuppressed};

/// The words of a draft, laid anywhere, run as the draft does, with any stop list.
pub fn labels()
    ensures runs { RunsAsDraft }
    ensures cuts { CutsAreSuppressed }
    ensures count { (entries : List DraftEntry) → length (words_of entries) ≡ size entries }
{}
