//! The actions that a slice may have for the pieces of a flow-mod, and for a packet-out.

ghost use Rattle.std.specs.Prelude.{◌≡◌, map, IfOk, All, []};
ghost use Rattle.of10_action.specs.Actions.{IsAction, HasAddress};
ghost use Rattle.action_check.specs.declared.origin.Origin.TheVariants.{Piece};
ghost use Rattle.action_check.specs.Permitted.{permitted};
ghost use Rattle.flowspace.specs.Owners.{HasPort};
ghost use Rattle.slice_side.specs.Checking.{IsChecked, IsListing};

use crate::around::Around;
use crate::ports::Floods;
use action_check::{CheckFault, Origin, check};
use of10_action::{Action, Actions};
use of10_match::Match;
use std::alloc::{AllocError, Global};

/// What a slice may have of its actions for one piece or packet.
#[derive(Drop)]
pub(crate) enum Checked {
    /// This list.
    Given(Actions),
    /// More bytes than a flow-mod has beside its fields.
    TooMany,
    /// An action is forbidden, with this code.
    Forbidden(u16),
}

/// What a slice may have of its actions for all pieces.
#[derive(Drop)]
pub(crate) enum Listing {
    /// One list for each piece.
    Given(Vec<Actions>),
    /// More bytes than a flow-mod has beside its fields, for one piece at least.
    TooMany,
    /// An action is forbidden, for the first piece for which one is, with this code.
    Forbidden(u16),
}

/// What the slice may have of the actions for what they are applied to.
pub(crate) fn check_actions(
    alloc: Global,
    around: &Around<'_>,
    floods: &Floods,
    origin: &Origin,
    actions: &[Action],
) -> Result<Checked, AllocError>
    requires addresses { All HasAddress actions.now }
    requires flood { All (HasPort around.now.policy.now.rules around.now.slot) floods.now.flood.items }
    requires all { All (HasPort around.now.policy.now.rules around.now.slot) floods.now.all.items }
    ensures { IfOk result (IsChecked (permitted around.now.policy.now.rules around.now.slot origin.now actions.now floods.now.flood.items floods.now.all.items)) }
{
    match check(
        alloc,
        around.policy,
        around.slot,
        origin,
        actions,
        &floods.flood,
        &floods.all,
    ) {
        Ok(list) => Ok(Checked::Given(list)),
        Err(CheckFault::TooMany) => Ok(Checked::TooMany),
        Err(CheckFault::Refused(code)) => Ok(Checked::Forbidden(code)),
        Err(CheckFault::Memory) => Err(AllocError),
    }
}

/// The lists for all pieces. An action that is forbidden for any piece is reported before a list that is too
/// long for any.
pub(crate) fn list_pieces(
    alloc: Global,
    around: &Around<'_>,
    floods: &Floods,
    pieces: &[Match],
    actions: &[Action],
) -> Result<Listing, AllocError>
    requires addresses { All HasAddress actions.now }
    requires flood { All (HasPort around.now.policy.now.rules around.now.slot) floods.now.flood.items }
    requires all { All (HasPort around.now.policy.now.rules around.now.slot) floods.now.all.items }
    ensures { IfOk result (IsListing (λ piece. permitted around.now.policy.now.rules around.now.slot (Piece piece) actions.now floods.now.flood.items floods.now.all.items) pieces.now) }
{
    let mut lists = Vec::new(alloc);
    let mut is_long = false;
    for piece in pieces {
        match check_actions(alloc, around, floods, &Origin::Piece(*piece), actions)? {
            Checked::Given(list) => lists.push(list)?,
            Checked::TooMany => is_long = true,
            Checked::Forbidden(code) => return Ok(Listing::Forbidden(code)),
        }
    }
    if is_long {
        return Ok(Listing::TooMany);
    }
    Ok(Listing::Given(lists))
}

/// A list without actions for each piece.
pub(crate) fn no_actions(alloc: Global, pieces: &[Match]) -> Result<Vec<Actions>, AllocError>
    ensures { IfOk result (λ lists. lists.items ≡ map (λ piece. []) pieces.now) }
{
    let mut lists = Vec::new(alloc);
    for _piece in pieces {
        lists.push(Actions::of(alloc, &[])?)?;
    }
    Ok(lists)
}
