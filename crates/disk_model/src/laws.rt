//! What a crash leaves, whatever was done: laws of the definitions, as contracts of functions that
//! do nothing.

ghost use Rattle.std.specs.Prelude.{◌≡◌, ◌⊎◌, ◌≤◌, ◌++◌, ℕ, List, [], ◌∷◌, take, Some, IfSome};
ghost use Rattle.std.specs.Option.{option_map};
ghost use Rattle.disk_model.specs.Choices.{chosen};
ghost use Rattle.disk_model.specs.Crash.{IsChangedImage, OnlyCreated, IsTemporary, LeavesSame};
ghost use Rattle.disk_model.specs.Disk.{Disk, reads, appended, cut_to, synced, created, moved, names_synced};
ghost use Rattle.disk_model.specs.Files.{Files, file, with_file, with_appended, with_cut, with_moved, Become, Stay};
ghost use Rattle.disk_model.specs.Images.{Leaves};
ghost use Rattle.disk_model.specs.Memory.{Memory, telling};
ghost use Rattle.disk_model.specs.Past.{Call, Outcome, Made, Past, done, left_by, disk_at, disk_now};
ghost use Rattle.disk_model.specs.Runs.{MayLeave, GoesOnBy, LeftSince, SameDisk};
ghost use Rattle.disk_model.specs.Safe.{IsSettled, IsSynced, IsSafe, IsSafeUpTo, HasFront, names_of, IsElsewhere};
ghost use Rattle.disk_model.specs.Told.{Told, files_told, disk_told, Now, Goes, Fails, Was};
ghost use Rattle.disk_model.specs.declared.choice.Choice.{Choice};
ghost use Rattle.disk_model.specs.declared.file_name.FileName.{FileName};

use crate::{Dir, MemoryDir};

/// Each directory that a crash may leave at a moment is given by a choice. Its numbers have no
/// bound here: what there is of bytes and of changes may be more than 64 bits count.
pub fn choices_are_complete()
    ensures complete { (past : Past) (n : ℕ) (image : Files) → Leaves (disk_at past n) image
        → (choice : Choice) × (chosen choice past ≡ image) }
    ensures allowed { (past : Past) (choice : Choice)
        → Leaves (disk_at past choice.since) (chosen choice past) }
{}

/// A directory in memory tells its past, and with it all that the clauses of `Dir` speak of.
pub fn memory_tells()
    ensures tells { (dir : Memory) → ⟦<MemoryDir as Dir>⟧.told dir ≡ telling dir }
{}

/// A failed call has done what it was asked for, or a part of an append, or nothing.
pub fn failed_calls_read()
    ensures append { (name : FileName) (bytes : List ℕ) (old new : Told)
        → Fails (Call.Append name bytes) old new
        → (kept : ℕ) × Become (with_appended name (take kept bytes)) (files_told old)
        (files_told new) }
    ensures cut { (name : FileName) (length : ℕ) (old new : Told)
        → Fails (Call.Cut name length) old new
        → Stay (files_told old) (files_told new)
        ⊎ Become (with_cut name length) (files_told old) (files_told new) }
    ensures create { (name : FileName) (old new : Told) → Fails (Call.Create name) old new
        → Stay (files_told old) (files_told new)
        ⊎ Become (with_file name []) (files_told old) (files_told new) }
    ensures rename { (from to : FileName) (old new : Told) → Fails (Call.Rename from to) old new
        → Stay (files_told old) (files_told new)
        ⊎ Become (with_moved from to) (files_told old) (files_told new) }
{}

/// Of any disk: as it reads it is one of its images. A sync only takes images away, and under a
/// name that no unsynced change of names touches it leaves one outcome, whatever call came before
/// it. However a call came out, it leaves nothing else than was left before it, or than it leaves
/// where it is done.
pub fn crash_laws()
    ensures reads { (disk : Disk) → Leaves disk (reads disk) }
    ensures one_outcome { (name : FileName) (disk : Disk) (image : Files) → IsSettled name disk
        → Leaves (synced name disk) image → file name image ≡ file name (reads disk) }
    ensures sync_takes_away { (name : FileName) (disk : Disk) (image : Files)
        → Leaves (synced name disk) image → Leaves disk image }
    ensures names_sync_takes_away { (disk : Disk) (image : Files) → Leaves (names_synced disk) image
        → Leaves disk image }
    ensures however { (call : Call) (outcome : Outcome) (disk : Disk) (image : Files)
        → Leaves (left_by call outcome disk) image → Leaves disk image
        ⊎ Leaves (done call disk) image }
{}

/// What a call adds to what a crash may leave of the last disk of a past: a front of what was
/// appended, a cut somewhere from its place on, an empty file, or the file under its new name.
/// While no rename is unsynced, a call on a temporary file other than a rename leaves what each
/// image has under `Log` and under `Dump`.
pub fn images_added()
    ensures by_append { (name : FileName) (bytes : List ℕ) (past : Past) (image : Files)
        → Leaves (appended name bytes (disk_now past)) image → Leaves (disk_now past) image
        ⊎ ((count : ℕ)
        × IsChangedImage name
        (λ under. with_appended under (take count bytes)) (disk_now past) image) }
    ensures by_cut { (name : FileName) (length : ℕ) (past : Past) (image : Files)
        → Leaves (cut_to name length (disk_now past)) image → Leaves (disk_now past) image
        ⊎ ((count : ℕ)
        × (length ≤ count) × IsChangedImage name
        (λ under. with_cut under count) (disk_now past) image) }
    ensures by_create { (name : FileName) (past : Past) (image : Files)
        → Leaves (created name (disk_now past)) image → Leaves (disk_now past) image
        ⊎ ((before : Files)
        × Leaves (disk_now past) before × (image ≡ with_file name [] before)) }
    ensures by_rename { (from to : FileName) (past : Past) (image : Files)
        → Leaves (moved from to (disk_now past)) image → Leaves (disk_now past) image
        ⊎ ((before : Files)
        × Leaves (disk_now past) before × (image ≡ with_moved from to before)) }
    ensures temporary { (name : FileName) (call : Call) (outcome : Outcome) (past : Past)
        (image : Files)
        → OnlyCreated (disk_now past).renames → IsTemporary name → names_of call ≡ name ∷ []
        → Leaves (left_by call outcome (disk_now past)) image → LeavesSame (disk_now past) image }
{}

/// What a crash leaves of a safe name: its bytes, and of what was added since a front.
pub fn safe_names()
    ensures leaves { (name : FileName) (bytes added : List ℕ) (disk : Disk) (image : Files)
        → IsSafeUpTo name bytes added disk → Leaves disk image → HasFront name bytes added image }
    ensures one_outcome { (name : FileName) (bytes : List ℕ) (disk : Disk) (image : Files)
        → IsSafe name bytes disk → Leaves disk image → file name image ≡ Some bytes }
    ensures reads { (name : FileName) (bytes added : List ℕ) (disk : Disk)
        → IsSafeUpTo name bytes added disk → file name (reads disk) ≡ Some (bytes ++ added) }
    ensures nothing_added { (name : FileName) (bytes : List ℕ) (disk : Disk)
        → IsSafe name bytes disk → IsSafeUpTo name bytes [] disk }
{}

/// What a call leaves of a safe name: it stays safe under a call about other names, an append adds
/// what came of it, and a failed sync changes nothing.
pub fn safe_name_stays()
    ensures elsewhere { (name : FileName) (bytes : List ℕ) (call : Call) (old new : Told)
        → Was call old new
        → IsElsewhere name call → Now (IsSafe name bytes) old → Now (IsSafe name bytes) new }
    ensures elsewhere_up_to { (name : FileName) (bytes added : List ℕ) (call : Call)
        (old new : Told) → Was call old new
        → IsElsewhere name call → Now (IsSafeUpTo name bytes added) old
        → Now (IsSafeUpTo name bytes added) new }
    ensures appended { (name : FileName) (bytes added more : List ℕ) (old new : Told)
        → Goes (Call.Append name more) Outcome.Done old new
        → Now (IsSafeUpTo name bytes added) old → Now (IsSafeUpTo name bytes (added ++ more)) new }
    ensures append_failed { (name : FileName) (bytes added more : List ℕ) (old new : Told)
        → Fails (Call.Append name more) old new → Now (IsSafeUpTo name bytes added) old
        → (count : ℕ) × Now (IsSafeUpTo name bytes (added ++ take count more)) new }
    ensures sync_failed { (name : FileName) (bytes added : List ℕ) (old new : Told)
        → Fails (Call.Sync name) old new
        → Now (IsSafeUpTo name bytes added) old → Now (IsSafeUpTo name bytes added) new }
{}

/// What makes a name safe: a sync of a file that bytes were added to; or a sync of the file, or its
/// creation, and then a sync of the names.
pub fn becomes_safe()
    ensures flushed { (name : FileName) (bytes added : List ℕ) (old new : Told)
        → Goes (Call.Sync name) Outcome.Done old new
        → Now (IsSafeUpTo name bytes added) old → Now (IsSafe name (bytes ++ added)) new }
    ensures synced { (name : FileName) (bytes : List ℕ) (old new : Told)
        → Goes (Call.Sync name) Outcome.Done old new
        → IfSome (files_told old) (λ files. file name files ≡ Some bytes)
        → Now (IsSynced name bytes) new }
    ensures created { (name : FileName) (old new : Told)
        → Goes (Call.Create name) Outcome.Done old new
        → Now (IsSynced name []) new }
    ensures names_synced { (name : FileName) (bytes : List ℕ) (old new : Told)
        → Goes Call.SyncNames Outcome.Done old new
        → Now (IsSynced name bytes) old → Now (IsSafe name bytes) new }
{}

/// What a run of calls leaves: the disk after one call, what one call leaves, what is left now,
/// what a run in two parts leaves, and that reads alone leave the same.
pub fn runs()
    ensures disk_by_call { (call : Call) (outcome : Outcome) (old new : Told)
        → Goes call outcome old new
        → disk_told new ≡ option_map (left_by call outcome) (disk_told old) }
    ensures left_by_call { (call : Call) (old new : Told) (image : Files) → Was call old new
        → LeftSince old new image
        → MayLeave (disk_told old) image ⊎ MayLeave (option_map (done call) (disk_told old)) image }
    ensures left_now { (more : List Made) (old new : Told) (image : Files) → GoesOnBy more old new
        → MayLeave (disk_told new) image → LeftSince old new image }
    ensures left_in_parts { (more other : List Made) (a b c : Told) (image : Files)
        → GoesOnBy more a b
        → GoesOnBy other b c → LeftSince a c image → LeftSince a b image ⊎ LeftSince b c image }
    ensures same_disk { (old new : Told) → SameDisk old new → disk_told new ≡ disk_told old }
    ensures same_images { (old new : Told) (image : Files) → SameDisk old new
        → LeftSince old new image
        → MayLeave (disk_told old) image }
{}
