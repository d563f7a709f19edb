//! The policy of a switch with the index of its rules.

ghost use Rattle.std.specs.Prelude.{◌≡◌, IfOk};

use flowspace::SwitchPolicy;
use rule_index::RuleIndex;
use std::alloc::{AllocError, Global};
use std::marker::Model;

/// What of a policy holds on one switch, and the index of these rules.
#[derive(Drop)]
pub(crate) struct IndexedPolicy {
    policy: SwitchPolicy,
    index: RuleIndex,
}

impl Model for IndexedPolicy {
    ghost use Rattle.std.specs.Prelude.{◌≡◌};
    ghost use Rattle.flowspace.specs.Policies.{SwitchView};

    ghost Value = { SwitchView };

    ghost view = { λ own. own.policy };

    ghost invariant = { λ own. own.index ≡ own.policy.rules };
}

impl IndexedPolicy {
    pub(crate) fn of(alloc: Global, policy: SwitchPolicy) -> Result<IndexedPolicy, AllocError>
        ensures { IfOk result (λ own. own ≡ policy) }
    {
        Ok(IndexedPolicy {
            index: RuleIndex::build(alloc, &policy)?,
            policy,
        })
    }

    pub(crate) fn policy(&self) -> &SwitchPolicy
        ensures { result.now ≡ self.now }
    {
        &self.policy
    }

    pub(crate) fn index(&self) -> &RuleIndex
        ensures { result.now ≡ self.now.rules }
    {
        &self.index
    }
}
