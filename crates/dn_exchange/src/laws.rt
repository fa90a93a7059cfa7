// What follows of the relations of a server's calls.
ghost use Rattle.std.specs.Prelude.{◌≡◌, ◌⊎◌, List, Bool};
ghost use Rattle.dn_wire.specs.declared.ids.Round.{Round};
ghost use Rattle.dn_seal.specs.Said.{SaidView};
ghost use Rattle.dn_cert.specs.Certificate.{CertificateView};
ghost use Rattle.dn_server.specs.declared.answer.Answer.{Answer};
ghost use Rattle.dn_server.specs.Server.{ServerView};
ghost use Rattle.dn_exchange.specs.Opening.{Opens};
ghost use Rattle.dn_exchange.specs.Submitting.{TakesSubmission};
ghost use Rattle.dn_exchange.specs.Closing.{Ticks, Shuts};
ghost use Rattle.dn_exchange.specs.Ending.{Abandons, HoldsOn};
ghost use Rattle.dn_exchange.specs.Holding.{HoldsBesides, CertifiesAlone};
ghost use Rattle.dn_exchange.specs.Listening.{Hears};

/// A server keeps its place in the group, whatever it is asked.
pub fn seats_stay()
    ensures opens { (v : ServerView) (r : Round) (a : Answer) (w : ServerView) → Opens v r a w → w.seat ≡ v.seat }
    ensures submits { (v : ServerView) (said : SaidView) (cipher : List Bool) (a : Answer) (w : ServerView) → TakesSubmission v said cipher a w → w.seat ≡ v.seat }
    ensures ticks { (v : ServerView) (a : Answer) (w : ServerView) → Ticks v a w → w.seat ≡ v.seat }
    ensures shuts { (v : ServerView) (a : Answer) (w : ServerView) → Shuts v a w → w.seat ≡ v.seat }
    ensures hears { (v : ServerView) (said : SaidView) (a : Answer) (w : ServerView) → Hears v said a w → w.seat ≡ v.seat }
    ensures holds { (v : ServerView) (c : CertificateView) (a : Answer) (w : ServerView) → HoldsOn v c a w → w.seat ≡ v.seat }
    ensures abandons { (v : ServerView) (a : Answer) (w : ServerView) → Abandons v a w → w.seat ≡ v.seat }
{}

/// A server holds what it held, and a body more only where it certifies a round, which it tells, or takes a certificate.
pub fn chains_stay()
    ensures opens { (v : ServerView) (r : Round) (a : Answer) (w : ServerView) → Opens v r a w → w.chain ≡ v.chain }
    ensures submits { (v : ServerView) (said : SaidView) (cipher : List Bool) (a : Answer) (w : ServerView) → TakesSubmission v said cipher a w → w.chain ≡ v.chain }
    ensures ticks { (v : ServerView) (a : Answer) (w : ServerView) → Ticks v a w → CertifiesAlone v a w }
    ensures shuts { (v : ServerView) (a : Answer) (w : ServerView) → Shuts v a w → CertifiesAlone v a w }
    ensures hears { (v : ServerView) (said : SaidView) (a : Answer) (w : ServerView) → Hears v said a w → CertifiesAlone v a w }
    ensures holds { (v : ServerView) (c : CertificateView) (a : Answer) (w : ServerView) → HoldsOn v c a w → (w.chain ≡ v.chain) ⊎ HoldsBesides v c w }
    ensures abandons { (v : ServerView) (a : Answer) (w : ServerView) → Abandons v a w → w.chain ≡ v.chain }
{}
