ghost use Rattle.std.specs.Prelude.{◌≡◌, ◌≢◌, ◌≤◌, ◌<◌, ◌+◌, ◌^◌, length, AllPairs, OnOk};
ghost use Rattle.flow_book.specs.Books.{newcomers_in};
ghost use Rattle.slice_words.specs.Items.{Settings, Sight};
ghost use Rattle.slice_words.specs.Standing.{SliceStands};
ghost use Rattle.slice_side.specs.declared.change.Change.TheVariants.{Modified};
ghost use Rattle.slice_side.specs.Reactions.{IsSoundChange, HasRoom};

use crate::change::{Change, Modification};
use flow_book::SliceState;
use slice_words::MOST_NUMBERED;
use std::alloc::AllocError;

/// Makes the room that a flow-mod needs in the book.
fn reserve_for(state: &mut SliceState, m: &Modification) -> Result<(), AllocError>
    requires distinct { AllPairs (λ a b. a ≢ b) m.now.pieces.items }
    requires few { length m.now.pieces.items ≤ 256 }
    ensures stands { (s : Settings) (sight : Sight) → SliceStands s sight state.old → SliceStands s sight state.new }
    ensures room { OnOk result (HasRoom (Modified m.now) state.new) }
{
    let newcomers = state.book.newcomers(m.command, &m.pieces, m.priority);
    let booked = u64::from(state.book.count()) + u64::from(newcomers);
    if booked > u64::from(u32::MAX) {
        return Err(AllocError);
    }
    reserve_request(state)?;
    state.book.reserve(newcomers)
}

/// One request more has a number.
fn reserve_request(state: &SliceState) -> Result<(), AllocError>
    ensures { OnOk result (state.now.xids.issued < 2 ^ 62) }
{
    if state.xids.next().0 >= MOST_NUMBERED {
        return Err(AllocError);
    }
    Ok(())
}

/// Makes the room that `apply` of the change needs. What the state stands for stays as it is; so it does
/// where there is no memory.
pub fn reserve(state: &mut SliceState, change: &Change) -> Result<(), AllocError>
    requires { IsSoundChange change.now }
    ensures stands { (s : Settings) (sight : Sight) → SliceStands s sight state.old → SliceStands s sight state.new }
    ensures room { OnOk result (HasRoom change.now state.new) }
{
    match change {
        Change::Modified(m) => reserve_for(state, m),
        Change::SentOut { .. } | Change::Inquired { .. } => reserve_request(state),
        _ => Ok(()),
    }
}
