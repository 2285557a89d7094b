//! What files are opened as.

ghost use Rattle.std.specs.Prelude.{◌≡◌, ◌⊎◌, ℕ};
ghost use Rattle.disk_model.specs.Files.{Files};
ghost use Rattle.effect_log.specs.declared.reason.Reason.{Reason};
ghost use Rattle.effect_log.specs.Replay.{Meaning};
ghost use Rattle.restart.specs.Restart.{Opening, Opens, IsRefusedLog, HasDumpAlone};

/// Whatever replaying an effect means, files are opened as one log with its keys, or their log is
/// refused, for one reason and at one place, or they have a dump and no log; and never two of
/// these.
pub fn one_opening()
    ensures some { (replay : Meaning) (files : Files)
        → ((opening : Opening) × Opens replay files opening)
        ⊎ (((why : Reason) × (at : ℕ) × IsRefusedLog replay files why at) ⊎ HasDumpAlone files) }
    ensures one { (replay : Meaning) (files : Files) (opening other : Opening)
        → Opens replay files opening → Opens replay files other → opening ≡ other }
    ensures refused { (replay : Meaning) (files : Files) (why other : Reason) (at place : ℕ)
        → IsRefusedLog replay files why at → IsRefusedLog replay files other place
        → (why ≡ other) × (at ≡ place) }
    ensures apart { (replay : Meaning) (files : Files) (opening : Opening) (why : Reason) (at : ℕ)
        → Opens replay files opening
        → (¬ IsRefusedLog replay files why at) × (¬ HasDumpAlone files) }
    ensures dump { (replay : Meaning) (files : Files) (why : Reason) (at : ℕ)
        → IsRefusedLog replay files why at → ¬ HasDumpAlone files }
{}
