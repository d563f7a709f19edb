//! Whether an image may go to a port, asked once.

ghost use Rattle.std.specs.Prelude.{ℕ, ◌≡◌, List};
ghost use Rattle.flowspace.specs.declared.rules.Rule.{Rule};
ghost use Rattle.action_check.specs.declared.origin.Origin.{Origin as Image};
ghost use Rattle.action_check.specs.ActionRules.{may_go};
ghost use Rattle.action_check.specs.Verdicts.{AreVerdicts, verdict_kept, with_verdict};

use crate::action_rules::{may_go, sees_in_port};
use crate::origin::Origin;
use flowspace::SwitchPolicy;

/// What was found of an image so far: whether it may go to a port that sees where a packet came in, and
/// whether to any other.
#[derive(Clone, Copy)]
pub(crate) struct Verdicts {
    seeing: Option<bool>,
    aside: Option<bool>,
    /// Where the rule stands that let an image go last. It is tested on each image anew.
    last: Option<u16>,
}

impl Verdicts {
    /// Nothing was asked yet.
    pub(crate) fn new() -> Verdicts
        ensures { (rules : List Rule) (slot : ℕ) (image : Image) → AreVerdicts rules slot image result }
    {
        Verdicts {
            seeing: None,
            aside: None,
            last: None,
        }
    }

    /// Nothing was asked yet of another image.
    pub(crate) fn forget(&mut self)
        ensures { (rules : List Rule) (slot : ℕ) (image : Image) → AreVerdicts rules slot image self.new }
    {
        self.seeing = None;
        self.aside = None;
    }

    fn found(&self, port: u16) -> Option<bool>
        ensures { result ≡ verdict_kept self.now port }
    {
        if sees_in_port(port) {
            self.seeing
        } else {
            self.aside
        }
    }

    fn keep(&mut self, port: u16, verdict: bool)
        ensures { self.new ≡ with_verdict self.old port verdict }
    {
        if sees_in_port(port) {
            self.seeing = Some(verdict);
        } else {
            self.aside = Some(verdict);
        }
    }
}

/// Whether the image may go to the port. The rules are looked up where it wasn't asked of such a port before.
pub(crate) fn may_go_kept(
    policy: &SwitchPolicy,
    slot: u8,
    image: &Origin,
    verdicts: &mut Verdicts,
    port: u16,
) -> bool
    requires { AreVerdicts policy.now.rules slot image.now verdicts.old }
    ensures value { result ≡ may_go policy.now.rules slot image.now port }
    ensures kept { AreVerdicts policy.now.rules slot image.now verdicts.new }
{
    if let Some(verdict) = verdicts.found(port) {
        return verdict;
    }
    let verdict = may_go(policy, slot, image, &mut verdicts.last, port);
    verdicts.keep(port, verdict);
    verdict
}
