//! What the words around those of a kernel make of them.

ghost use Rattle.std.specs.Prelude.{◌≤◌, ◌<◌, ◌^◌, All, List, ℕ, length};
ghost use Rattle.call_code.specs.Called.{function_words};
ghost use Rattle.promises.specs.Saved.{frame_size, saved_by, call_steps};
ghost use Rattle.kernel_call.specs.Anywhere.{ClosesAnywhere, EndsAnywhere};
ghost use Rattle.promises.specs.Function.{CloseFunction, FunctionEnds, IsCall, IsUntouched, arguments};
ghost use Rattle.kernel_call.specs.Untouched.{AreInside, FrameApart, IsElsewhere};
ghost use Rattle.kernel_compile.specs.Drafted.{AreDrafted, FollowsClosely};
ghost use Rattle.kernel_tree.specs.Plain.{Program};
ghost use Rattle.machine_model.specs.Machine.{State};
ghost use Rattle.meaning_frame.specs.Accesses.{Access, accesses};

use call_code::calls;
use meaning_frame::{more_pages, other_bytes};

/// The words around those of a kernel make a function of them.
pub fn functions()
    ensures { (k : Program) (words : List ℕ) → AreDrafted (FollowsClosely k) words
        → CloseFunction k (function_words words) × FunctionEnds k (function_words words) }
{
    calls();
}

/// A frame in pages that the kernel's run does without is untouched by it.
pub fn untouched_frames()
    ensures { (k : Program) (words : List ℕ) (s : State) → frame_size (saved_by words) ≤ s.sp → s.sp < 2 ^ 64
        → IsElsewhere (saved_by words) k s → IsUntouched (saved_by words) k s }
{
    more_pages();
}

/// A frame apart from some arrays is untouched by a kernel each access of whose run lies in one of them.
pub fn untouched_arrays()
    ensures { (k : Program) (words : List ℕ) (s : State) (arrays : List Access)
        → frame_size (saved_by words) ≤ s.sp → s.sp < 2 ^ 64
        → AreInside arrays (accesses k (arguments s) s.memory) → FrameApart (saved_by words) s arrays
        → IsUntouched (saved_by words) k s }
{
    other_bytes();
}

/// What a frame may take at most of the stack, and what its words add to the steps of a call.
pub fn small_frames()
    ensures frame { (words : List ℕ) → frame_size (saved_by words) ≤ 144 }
    ensures steps { (words : List ℕ) → call_steps (saved_by words) ≤ 55 }
{}

/// What is asked of a call can be met: there is a state in which the words of each function may be called.
pub fn calls_exist()
    ensures { (words : List ℕ) → length words ≤ 65536 → All (λ w. w < 2 ^ 32) words
        → (s : State) × IsCall (saved_by words) words s }
{}

/// The words of a kernel's draft run as the kernel does wherever they lie, from any state that has its arguments in
/// X0 to X7.
pub fn anywhere()
    ensures { (k : Program) (words : List ℕ) → AreDrafted (FollowsClosely k) words
        → ClosesAnywhere k words × EndsAnywhere k words }
{}
