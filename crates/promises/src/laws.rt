//! How the promises on files stand to one another.

ghost use Rattle.std.specs.Prelude.{◌≡◌, ℕ, ◌≤◌, List, length};
ghost use Rattle.guest_types.specs.EarlyLoads.{never};
ghost use Rattle.guest_types.specs.Memory.{Memory};
ghost use Rattle.kernel_tree.specs.Plain.{Program};
ghost use Rattle.machine_model.specs.Run.{free_run, machine_run};
ghost use Rattle.dependence.specs.Classes.{class_of};
ghost use Rattle.dependence.specs.declared.reason.Class.TheVariants.{Scalar};
ghost use Rattle.dependence.specs.declared.reason.Why.{Why};
ghost use Rattle.promises.specs.Faithful.{Faithful, SlowFaithful, FreeFaithful, FreeEnds, CloseFaithful, FreeSlowFaithful, CloseSlowFaithful};

/// The run with the empty stop list is the machine's run.
pub fn runs_without_stops()
    ensures { (file args : List ℕ) (pages : Memory) (vl steps : ℕ)
        → free_run file args pages vl never steps ≡ machine_run file args pages vl steps }
{}

/// What holds with every stop list holds without one, and what holds within the lower bound holds within the higher one.
pub fn faithful_files()
    ensures close { (k : Program) (file : List ℕ) → length k.params ≤ 8 → CloseFaithful k file → FreeFaithful k file }
    ensures free { (k : Program) (file : List ℕ) → FreeFaithful k file → Faithful k file }
    ensures slow { (k : Program) (file : List ℕ) → Faithful k file → SlowFaithful k file }
    ensures free_slow { (k : Program) (file : List ℕ) → FreeSlowFaithful k file → SlowFaithful k file }
    ensures ends { (k : Program) (file : List ℕ) → FreeSlowFaithful k file → FreeEnds k file }
{}

/// Where the class is Scalar, iterations are run one by one, and the bounds that count chunks are those that count iterations.
pub fn scalar_files()
    ensures free { (k : Program) (file : List ℕ) (why : Why) → class_of k ≡ Scalar why
        → FreeSlowFaithful k file → FreeFaithful k file }
    ensures close { (k : Program) (file : List ℕ) (why : Why) → class_of k ≡ Scalar why
        → CloseSlowFaithful k file → CloseFaithful k file }
    ensures slow { (k : Program) (file : List ℕ) (why : Why) → class_of k ≡ Scalar why → length k.params ≤ 8
        → CloseSlowFaithful k file → FreeSlowFaithful k file }
{}
