//! The form `flatten OUTER NAME INNER`: the policy of OUTER, in which the holder of the slice NAME has divided it
//! by the policy of INNER.

ghost use Rattle.std.specs.Prelude.{◌≡◌, ◌<◌, length, true, Ok, IfOk, IfErr};
ghost use Rattle.flowspace.specs.Policies.{PolicyView};
ghost use Rattle.policy_text.specs.Printing.{text_of};
ghost use Rattle.nested_slices.specs.Refused.{flatten_of};
ghost use Rattle.fv_cli.specs.Endings.{IsRefusedDivision, IsFlatEnding, IsFlattenCause, is_before_run, CountsReads, CountsPuts};

use crate::base::{Failed, Files, Sink, put_all};
use crate::ending::Ending;
use crate::loading::load_policy;
use flowspace::Policy;
use nested_slices::NestFault;
use of10_action::Bytes;
use std::alloc::Global;

/// The flat policy's text.
fn flat_text(alloc: Global, outer: &Policy, slot: u8, inner: &Policy) -> Result<Bytes, Ending>
    requires { slot < length outer.now.slices }
    ensures text { IfOk result (λ text. (made : PolicyView) × (flatten_of outer.now slot inner.now ≡ Ok made) × (text ≡ text_of made)) }
    ensures refused { IfErr result (IsRefusedDivision (flatten_of outer.now slot inner.now)) }
{
    match nested_slices::flatten(alloc, outer, slot, inner) {
        Ok(made) => match policy_text::print(alloc, &made) {
            Ok(text) => Ok(text),
            Err(_) => Err(Ending::NoMemory),
        },
        Err(NestFault::Memory) => Err(Ending::NoMemory),
        Err(fault) => Err(Ending::NestRefused(fault)),
    }
}

/// Writes the flat policy's text.
fn write_flat<O: Sink>(
    alloc: Global,
    outer: &Policy,
    slot: u8,
    inner: &Policy,
    out: &mut O,
) -> Ending
    requires { slot < length outer.now.slices }
    ensures cause { IsFlatEnding (flatten_of outer.now slot inner.now) (O.contents out.old) (O.contents out.new) (O.faults out.old) (O.faults out.new) result }
    ensures early { is_before_run result ≡ true → O.contents out.new ≡ O.contents out.old }
    ensures puts { CountsPuts result (O.faults out.old) (O.faults out.new) }
{
    let text = match flat_text(alloc, outer, slot, inner) {
        Ok(text) => text,
        Err(ending) => return ending,
    };
    match put_all(out, text.as_slice()) {
        Ok(()) => Ending::Done,
        Err(Failed) => Ending::WriteFault,
    }
}

/// Writes the policy in which the slice of this name is divided. The name is looked up before the inner policy is
/// read.
pub(crate) fn flatten<F: Files, O: Sink>(
    alloc: Global,
    outer: &str,
    name: &str,
    inner: &str,
    files: &mut F,
    out: &mut O,
) -> Ending
    ensures cause { IsFlattenCause (record { files = F.contents files.old; read_before = F.faults files.old; read_after = F.faults files.new; out_before = O.contents out.old; out_after = O.contents out.new; put_before = O.faults out.old; put_after = O.faults out.new }) outer.now name.now inner.now result }
    ensures early { is_before_run result ≡ true → O.contents out.new ≡ O.contents out.old }
    ensures reads { CountsReads result (F.faults files.old) (F.faults files.new) }
    ensures puts { CountsPuts result (O.faults out.old) (O.faults out.new) }
{
    let outer = match load_policy(alloc, files, outer) {
        Ok(policy) => policy,
        Err(ending) => return ending,
    };
    let Some(slot) = outer.slot_named(name) else {
        return Ending::NoSlice;
    };
    let inner = match load_policy(alloc, files, inner) {
        Ok(policy) => policy,
        Err(ending) => return ending,
    };
    write_flat(alloc, &outer, slot, &inner, out)
}
