// Laws of verdicts, for those who build on them.
ghost use Rattle.std.specs.Prelude.{◌≢◌, ℕ, List, []};
ghost use Rattle.dn_wire.specs.declared.ids.Member.{Member};
ghost use Rattle.dn_trace.specs.declared.fault.Fault.{Fault};
ghost use Rattle.dn_trace.specs.Trial.{Trial};
ghost use Rattle.dn_trace.specs.Verdict.{ServerHas, ClientHas, IsVerdict, IsHeld};
ghost use Rattle.dn_trace.specs.Honest.{KeepsServersDiscipline, KeepsClientsDiscipline};

/// Where an accusation holds and nobody is silent, somebody is blamed.
pub fn somebody_is_blamed()
    ensures { (trial : Trial) (blamed : List (Member × Fault)) → IsHeld trial → IsVerdict trial blamed [] → blamed ≢ [] }
{}

/// A server that keeps its discipline has no fault, whatever others signed.
pub fn no_honest_server_is_blamed()
    ensures { (trial : Trial) (j : ℕ) (fault : Fault) → KeepsServersDiscipline trial j → ¬ ServerHas trial j fault }
{}

/// A client that keeps its discipline has no fault, whatever others signed.
pub fn no_honest_client_is_blamed()
    ensures { (trial : Trial) (i : ℕ) (fault : Fault) → KeepsClientsDiscipline trial i → ¬ ClientHas trial i fault }
{}
