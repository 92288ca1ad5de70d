//! What an object is read as.

ghost use Rattle.object_file.specs.Object.{IsObject};
ghost use Rattle.object_file.specs.Written.{object_of};
ghost use Rattle.std.specs.Prelude.{ℕ, ◌^◌, ◌<◌, ◌≤◌, List, length};

/// The object of some words and a name is one of a function of that name, which is these words.
pub fn objects_are_read()
    ensures { (name words : List ℕ) → length words ≤ 70000 → length name < 2 ^ 63
        → IsObject name words (object_of name words) }
{}
