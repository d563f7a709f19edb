//! Files that a form names, each kind read and accepted by one call.

ghost use Rattle.std.specs.Prelude.{◌≡◌, ◌≤◌, ◌<◌, ◌^◌, ℕ, List, length, Ok, IfOk, IfErr, IfSome, OnOk};
ghost use Rattle.recording.specs.declared.item.Item.{Item};
ghost use Rattle.flowspace.specs.Policies.{IsPolicy};
ghost use Rattle.fv_cli.specs.Endings.{PolicySays, HasRecording, IsLoadCause, IsPolicyCause, IsRecordingCause, CountsReads};

use crate::base::{Files, LoadFault, load_file};
use crate::ending::Ending;
use flowspace::Policy;
use policy_text::ReadFault;
use recording::accept;
use std::alloc::Global;

/// Most bytes of a policy: 1 MiB.
const POLICY_LIMIT: u64 = 1_048_576;

/// Most bytes of a recording: 256 MiB.
const RECORDING_LIMIT: u64 = 268_435_456;

/// A whole file.
fn load<F: Files>(alloc: Global, files: &mut F, path: &str, limit: u64) -> Result<Vec<u8>, Ending>
    requires { limit < 2 ^ 60 }
    ensures within { IfOk result (λ file. length file.items ≤ limit) }
    ensures whole { IfOk result (λ file. IfSome (F.contents files.old path.now) (λ bytes. file.items ≡ bytes)) }
    ensures cause { IfErr result (IsLoadCause limit (F.contents files.old path.now) (F.faults files.old path.now) (F.faults files.new path.now)) }
    ensures same { (at : List ℕ) → F.contents files.new at ≡ F.contents files.old at }
    ensures calm { OnOk result ((at : List ℕ) → F.faults files.new at ≡ F.faults files.old at) }
    ensures reads { IfErr result (λ ending. CountsReads ending (F.faults files.old) (F.faults files.new)) }
{
    match load_file(alloc, files, path, limit) {
        Ok(bytes) => Ok(bytes),
        Err(LoadFault::ReadFault) => Err(Ending::ReadFault),
        Err(LoadFault::TooLarge) => Err(Ending::TooLarge),
        Err(LoadFault::Memory) => Err(Ending::NoMemory),
    }
}

/// The policy at a path.
pub fn load_policy<F: Files>(alloc: Global, files: &mut F, path: &str) -> Result<Policy, Ending>
    ensures says { IfOk result (λ p. PolicySays (Ok p) (F.contents files.old path.now)) }
    ensures accepted { IfOk result (λ p. IsPolicy p.slices p.rules) }
    ensures cause { IfErr result (IsPolicyCause (F.contents files.old path.now) (F.faults files.old path.now) (F.faults files.new path.now)) }
    ensures same { (at : List ℕ) → F.contents files.new at ≡ F.contents files.old at }
    ensures calm { OnOk result ((at : List ℕ) → F.faults files.new at ≡ F.faults files.old at) }
    ensures reads { IfErr result (λ ending. CountsReads ending (F.faults files.old) (F.faults files.new)) }
{
    let bytes = match load(alloc, files, path, POLICY_LIMIT) {
        Ok(bytes) => bytes,
        Err(ending) => return Err(ending),
    };
    match policy_text::read(alloc, &bytes) {
        Ok(policy) => {
            // A call on the policy shows the proof that it is accepted.
            let _slices = policy.slices();
            Ok(policy)
        }
        Err(ReadFault::Memory) => Err(Ending::NoMemory),
        Err(fault) => Err(Ending::PolicyRefused(fault)),
    }
}

/// The file of the recording at a path, which is accepted under a policy of so many slices.
pub(crate) fn load_recording<F: Files>(
    alloc: Global,
    files: &mut F,
    path: &str,
    slices: u8,
) -> Result<Vec<u8>, Ending>
    ensures has { IfOk result (λ file. (items : List Item) × HasRecording slices (F.contents files.old path.now) file.items items) }
    ensures cause { IfErr result (IsRecordingCause slices (F.contents files.old path.now) (F.faults files.old path.now) (F.faults files.new path.now)) }
    ensures same { (at : List ℕ) → F.contents files.new at ≡ F.contents files.old at }
    ensures calm { OnOk result ((at : List ℕ) → F.faults files.new at ≡ F.faults files.old at) }
    ensures reads { IfErr result (λ ending. CountsReads ending (F.faults files.old) (F.faults files.new)) }
{
    let bytes = match load(alloc, files, path, RECORDING_LIMIT) {
        Ok(bytes) => bytes,
        Err(ending) => return Err(ending),
    };
    match accept(&bytes, slices) {
        Ok(()) => Ok(bytes),
        Err(fault) => Err(Ending::RecordingRefused(fault)),
    }
}
