ghost use Rattle.std.specs.Prelude.{◌≡◌, MatchBool};

use dn_wire::{Member, ServerId};

/// The event under which a line stands.
#[derive(Clone, Copy)]
pub enum Scene {
    /// None, or a mark.
    Idle,
    /// An event of this member, or of none.
    Of(Option<Member>),
    /// A unit of time passes.
    Tick,
    /// This member puts a payload.
    Inject(Member),
    /// A message with this payload arrives.
    Delivery { to: Member, payload: usize },
    /// A verdict is told.
    Judge,
}

impl Scene {
    ghost use Rattle.dn_verify.specs.Course.{actor_under};
    ghost use Rattle.dn_verify.specs.Breaks.{under_judge};
    ghost use Rattle.dn_verify.specs.Rules.{IsInjected};

    /// Who sends what is sent under the event; `closed` is the server that closed last.
    pub fn actor(self, closed: Option<ServerId>) -> Option<Member>
        ensures { result ≡ actor_under closed self }
    {
        match self {
            Scene::Of(actor) => actor,
            Scene::Tick => {
                let server = closed?;
                Some(Member::Server(server))
            }
            Scene::Inject(member) => Some(member),
            Scene::Delivery { to, .. } => Some(to),
            Scene::Idle | Scene::Judge => None,
        }
    }

    /// The rule of `ignored none`, which under `judge` says that there is no verdict.
    pub fn judge_rule(self) -> Option<u32>
        ensures { result ≡ under_judge self }
    {
        match self {
            Scene::Judge => Some(6),
            _ => None,
        }
    }

    /// Whether a member puts a payload.
    pub fn is_inject(self) -> bool
        ensures { MatchBool result (IsInjected self) (IsInjected self → ⊥) }
    {
        match self {
            Scene::Inject(_) => true,
            _ => false,
        }
    }
}
