//! Makes what was found an open log that is safe from a crash.

ghost use Rattle.std.specs.Prelude.{◌≡◌, ◌⊎◌, ◌≤◌, [], length, take, None, Some};
ghost use Rattle.std.specs.Prelude.{IfSome, OnOk, OnErr};
ghost use Rattle.core_types.specs.Causes.{HasCause};
ghost use Rattle.core_types.specs.Keys.{Keys};
ghost use Rattle.disk_model.specs.Files.{with_file, Become, Stay};
ghost use Rattle.disk_model.specs.Past.{Call, Outcome};
ghost use Rattle.disk_model.specs.Told.{Goes, Now, files_told, disk_told};
ghost use Rattle.disk_model.specs.Runs.{GoesOnBy, LeavesOnly};
ghost use Rattle.disk_model.specs.Safe.{IsSynced, IsSafe};
ghost use Rattle.effect_log.specs.Replay.{Meaning};
ghost use Rattle.restart.specs.Restart.{RestartsAsLeft};
ghost use Rattle.restart.specs.Calls.{all_done, cutting_calls, keeping_calls};
ghost use Rattle.restart.specs.inner.Finding.{IsThereAs, StandsFor, calls_to_keep, log_of};
ghost use Rattle.restart.specs.inner.Keeping.{LeavesNothingNew, RestartsAsAtFirst};

use crate::finding::Found;
use disk_model::{Dir, DirFault, FileName};

/// Makes what was found an open log, and safe.
pub(crate) fn make_safe<D: Dir>(dir: &mut D, found: &Found) -> Result<(), DirFault>
    requires there { IsThereAs found.now (files_told (D.told dir.old)) }
    ensures ok { OnOk result (Become (with_file FileName.Log (log_of found.now))
        (files_told (D.told dir.old)) (files_told (D.told dir.new))) }
    ensures err { OnErr result (Stay (files_told (D.told dir.old)) (files_told (D.told dir.new))
        ⊎ Become (with_file FileName.Log (log_of found.now))
        (files_told (D.told dir.old)) (files_told (D.told dir.new))) }
    ensures safe { OnOk result (Now (IsSafe FileName.Log (log_of found.now)) (D.told dir.new)) }
    ensures crash { (replay : Meaning) (keys : Keys) → StandsFor replay found.now keys → LeavesOnly
        (D.told dir.old) (D.told dir.new) (RestartsAsLeft replay (disk_told (D.told dir.old))) }
    ensures calls { OnOk result
        (GoesOnBy (all_done (calls_to_keep found.now)) (D.told dir.old) (D.told dir.new)) }
    ensures cause { HasCause (D.told dir.old).faults (D.told dir.new).faults result }
{
    match found {
        Found::Log(bytes, kept) => keep_log(dir, bytes.as_slice(), *kept),
        Found::Nothing => begin_log(dir),
    }
}

// Makes a log of these bytes safe, cuts off all but the first `kept` of them, and makes that and
// the names safe.
#[tactic(auto, using(crate::proofs::KeptLogs::nothing_new))]
fn keep_log<D: Dir>(dir: &mut D, bytes: &[u8], kept: u64) -> Result<(), DirFault>
    requires there { IfSome (files_told (D.told dir.old)) (λ known. known.log ≡ Some bytes.now) }
    requires within { kept ≤ length bytes.now }
    ensures ok { OnOk result (Become (with_file FileName.Log (take kept bytes.now))
        (files_told (D.told dir.old)) (files_told (D.told dir.new))) }
    ensures err { OnErr result (Stay (files_told (D.told dir.old)) (files_told (D.told dir.new))
        ⊎ Become (with_file FileName.Log (take kept bytes.now))
        (files_told (D.told dir.old)) (files_told (D.told dir.new))) }
    ensures safe { OnOk result
        (Now (IsSafe FileName.Log (take kept bytes.now)) (D.told dir.new)) }
    ensures crash { RestartsAsAtFirst bytes.now kept (D.told dir.old) (D.told dir.new) }
    ensures calls { OnOk result (GoesOnBy (all_done (keeping_calls (Some bytes.now) kept))
        (D.told dir.old) (D.told dir.new)) }
    ensures cause { HasCause (D.told dir.old).faults (D.told dir.new).faults result }
{
    sync_log(dir, bytes)?;
    cut_tail(dir, bytes, kept)?;
    sync_name(dir, &bytes[..kept as usize])
}

// Cuts off all but the first `kept` bytes of a log of these, and makes that safe. Where nothing is
// cut off, a log that was synced stays so.
#[tactic(auto, using(crate::proofs::KeptLogs::no_crash))]
fn cut_tail<D: Dir>(dir: &mut D, bytes: &[u8], kept: u64) -> Result<(), DirFault>
    requires there { IfSome (files_told (D.told dir.old)) (λ known. known.log ≡ Some bytes.now) }
    requires within { kept ≤ length bytes.now }
    ensures ok { OnOk result (Become (with_file FileName.Log (take kept bytes.now))
        (files_told (D.told dir.old)) (files_told (D.told dir.new))) }
    ensures err { OnErr result (Stay (files_told (D.told dir.old)) (files_told (D.told dir.new))
        ⊎ Become (with_file FileName.Log (take kept bytes.now))
        (files_told (D.told dir.old)) (files_told (D.told dir.new))) }
    ensures synced { Now (IsSynced FileName.Log bytes.now) (D.told dir.old) → OnOk result
        (Now (IsSynced FileName.Log (take kept bytes.now)) (D.told dir.new)) }
    ensures crash { RestartsAsAtFirst bytes.now kept (D.told dir.old) (D.told dir.new) }
    ensures calls { OnOk result (GoesOnBy (all_done (cutting_calls (length bytes.now) kept))
        (D.told dir.old) (D.told dir.new)) }
    ensures cause { HasCause (D.told dir.old).faults (D.told dir.new).faults result }
{
    if kept == bytes.len() as u64 {
        return Ok(());
    }
    cut_log(dir, bytes, kept)?;
    sync_log(dir, &bytes[..kept as usize])
}

// Cuts off all but the first `kept` bytes of a log of these.
fn cut_log<D: Dir>(dir: &mut D, bytes: &[u8], kept: u64) -> Result<(), DirFault>
    requires there { IfSome (files_told (D.told dir.old)) (λ known. known.log ≡ Some bytes.now) }
    requires within { kept ≤ length bytes.now }
    ensures ok { OnOk result (Become (with_file FileName.Log (take kept bytes.now))
        (files_told (D.told dir.old)) (files_told (D.told dir.new))) }
    ensures err { OnErr result (Stay (files_told (D.told dir.old)) (files_told (D.told dir.new))
        ⊎ Become (with_file FileName.Log (take kept bytes.now))
        (files_told (D.told dir.old)) (files_told (D.told dir.new))) }
    ensures crash { RestartsAsAtFirst bytes.now kept (D.told dir.old) (D.told dir.new) }
    ensures done { OnOk result
        (Goes (Call.Cut FileName.Log kept) Outcome.Done (D.told dir.old) (D.told dir.new)) }
    ensures cause { HasCause (D.told dir.old).faults (D.told dir.new).faults result }
{
    dir.cut(FileName::Log, kept)
}

// Makes the bytes of the log safe, which are these.
fn sync_log<D: Dir>(dir: &mut D, bytes: &[u8]) -> Result<(), DirFault>
    requires there { IfSome (files_told (D.told dir.old)) (λ known. known.log ≡ Some bytes.now) }
    ensures same { Stay (files_told (D.told dir.old)) (files_told (D.told dir.new)) }
    ensures synced { OnOk result (Now (IsSynced FileName.Log bytes.now) (D.told dir.new)) }
    ensures crash { LeavesNothingNew (D.told dir.old) (D.told dir.new) }
    ensures done { OnOk result
        (Goes (Call.Sync FileName.Log) Outcome.Done (D.told dir.old) (D.told dir.new)) }
    ensures cause { HasCause (D.told dir.old).faults (D.told dir.new).faults result }
{
    dir.sync(FileName::Log)
}

// Makes the name of the log safe, and so the log, where its bytes are these and synced.
fn sync_name<D: Dir>(dir: &mut D, bytes: &[u8]) -> Result<(), DirFault>
    ensures same { Stay (files_told (D.told dir.old)) (files_told (D.told dir.new)) }
    ensures safe { Now (IsSynced FileName.Log bytes.now) (D.told dir.old) → OnOk result
        (Now (IsSafe FileName.Log bytes.now) (D.told dir.new)) }
    ensures crash { LeavesNothingNew (D.told dir.old) (D.told dir.new) }
    ensures done { OnOk result
        (Goes Call.SyncNames Outcome.Done (D.told dir.old) (D.told dir.new)) }
    ensures cause { HasCause (D.told dir.old).faults (D.told dir.new).faults result }
{
    dir.sync_names()
}

// Begins a log where there is neither a log nor a dump.
fn begin_log<D: Dir>(dir: &mut D) -> Result<(), DirFault>
    requires none { IfSome (files_told (D.told dir.old))
        (λ known. (known.log ≡ None) × (known.dump ≡ None)) }
    ensures ok { OnOk result (Become (with_file FileName.Log [])
        (files_told (D.told dir.old)) (files_told (D.told dir.new))) }
    ensures err { OnErr result (Stay (files_told (D.told dir.old)) (files_told (D.told dir.new))
        ⊎ Become (with_file FileName.Log [])
        (files_told (D.told dir.old)) (files_told (D.told dir.new))) }
    ensures safe { OnOk result (Now (IsSafe FileName.Log []) (D.told dir.new)) }
    ensures crash { (replay : Meaning) → LeavesOnly
        (D.told dir.old) (D.told dir.new) (RestartsAsLeft replay (disk_told (D.told dir.old))) }
    ensures calls { OnOk result
        (GoesOnBy (all_done (keeping_calls None 0)) (D.told dir.old) (D.told dir.new)) }
    ensures cause { HasCause (D.told dir.old).faults (D.told dir.new).faults result }
{
    dir.create(FileName::Log)?;
    dir.sync_names()
}
