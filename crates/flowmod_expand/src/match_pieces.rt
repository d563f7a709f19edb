//! The pieces of a match.

ghost use Rattle.std.specs.Prelude.{◌≡◌, ◌<◌, ◌≤◌, ◌≢◌, ◌++◌, ◌∷◌, [], if◌then◌else◌, length, All, AllPairs, IfOk, OnOk};
ghost use Rattle.std.specs.List.{list_any};
ghost use Rattle.of10_model.specs.Normal.{IsNormal};
ghost use Rattle.of10_model.specs.Same.{is_same};
ghost use Rattle.flowmod_expand.specs.Pieces.{pieces_of};
ghost use Rattle.flowmod_expand.specs.Marks.{mark_of, AreMarked};

use crate::piece_marks::{MARKS, mark_of};
use flowspace::SwitchPolicy;
use match_meet::meet;
use of10_match::Match;
use std::alloc::{AllocError, Global};

fn is_among(found: &[Match], piece: &Match) -> bool
    ensures { result ≡ list_any (λ earlier. is_same earlier piece.now) found.now }
{
    found.iter().any(|earlier| earlier.is_same(piece))
}

fn is_repeat(found: &[Match], marks: &[bool; MARKS], mark: usize, piece: &Match) -> bool
    requires marked { AreMarked marks.now found.now }
    requires own { mark ≡ mark_of piece.now }
    requires small { mark < 1024 }
    ensures { result ≡ list_any (λ earlier. is_same earlier piece.now) found.now }
{
    if !marks[mark] {
        return false;
    }
    is_among(found, piece)
}

fn add(found: &mut Vec<Match>, marks: &mut [bool; MARKS], piece: Match) -> Result<(), AllocError>
    requires { AreMarked marks.old found.old.items }
    ensures added { OnOk result (found.new.items ≡ (if list_any (λ earlier. is_same earlier piece) found.old.items then found.old.items else found.old.items ++ piece ∷ [])) }
    ensures marked { OnOk result (AreMarked marks.new found.new.items) }
    ensures normal { IsNormal piece }
{
    let mark = mark_of(piece.pattern());
    if is_repeat(found, marks, mark, &piece) {
        return Ok(());
    }
    found.push(piece)?;
    marks[mark] = true;
    Ok(())
}

/// What a slice may write of a match on this switch: the meets with its write rules in rule order,
/// without those that no header is in, and each once.
pub fn pieces(
    alloc: Global,
    policy: &SwitchPolicy,
    slot: u8,
    pattern: &Match,
) -> Result<Vec<Match>, AllocError>
    ensures value { IfOk result (λ v. v.items ≡ pieces_of policy.now.rules slot pattern.now) }
    ensures normal { IfOk result (λ v. All IsNormal v.items) }
    ensures distinct { IfOk result (λ v. AllPairs (λ a b. a ≢ b) v.items) }
    ensures few { IfOk result (λ v. length v.items ≤ 256) }
{
    let rules = policy.rules();
    let mut found = Vec::new(alloc);
    let mut marks = [false; MARKS];
    for place in policy.write_places(slot) {
        let rule = &rules[usize::from(*place)];
        if let Some(piece) = meet(pattern, &rule.pattern) {
            add(&mut found, &mut marks, piece)?;
        }
    }
    Ok(found)
}
