// Laws of the openings that a server signs, for those who build on them.
ghost use Rattle.std.specs.Prelude.{◌≡◌, ◌<◌, ◌≤◌, ◌^◌, ℕ, Bool, List, map, length, All, Contains};
ghost use Rattle.dn_wire.specs.declared.ids.Round.{Round};
ghost use Rattle.dn_record_types.specs.Lists.{Ascend};
ghost use Rattle.dn_record_types.specs.declared.body.Listed.{Listed};
ghost use Rattle.dn_record_types.specs.declared.shown.ShownCipher.{ShownCipher};
ghost use Rattle.dn_record_types.specs.declared.statement.Statement.TheVariants as kinds;
ghost use Rattle.dn_seal.specs.Said.{SaidView, IsUnder};
ghost use Rattle.dn_seal.specs.Dealt.{server};
ghost use Rattle.dn_seal.specs.Signer.{CanSign};
ghost use Rattle.dn_cert.specs.Trim.{given_to};
ghost use Rattle.dn_cert.specs.Chain.{IsChain};
ghost use Rattle.dn_server.specs.declared.answer.Answer.{Answer};
ghost use Rattle.dn_server.specs.Justified.{Course, AreOfRows};
ghost use Rattle.dn_server.specs.Server.{ServerView};
ghost use Rattle.dn_openings.specs.Hearing.{HearsEvidence};
ghost use Rattle.dn_openings.specs.Open.{CanOpen};
ghost use Rattle.dn_openings.specs.Discipline.{KeepsOpenings, LeavesOpenings, SignsNoOpenings};

/// A server that hears by the rules signs only openings of bodies that it holds and signed, with true pad bits and with its ciphertexts of those;
/// and it signs one statement of pad bits for each place, and shows one list of ciphertexts for each round.
pub fn openings_keep_discipline()
    ensures hears { (v : ServerView) (said : SaidView) (answer : Answer) (after : ServerView) → HearsEvidence v said answer after → KeepsOpenings v → KeepsOpenings after }
    ensures pads { (v : ServerView) → IsChain v.chain → KeepsOpenings v → (r : Round) (k : ℕ) (one other : List Bool)
        → Contains v.signed (kinds.PadBits r k one) → Contains v.signed (kinds.PadBits r k other) → one ≡ other }
    ensures shown { (v : ServerView) → KeepsOpenings v → (r : Round) (s t : List Bool) (own others : List ShownCipher)
        → Contains v.signed (kinds.Shown r s own) → Contains v.signed (kinds.Shown r t others) → kinds.Shown r s own ≡ kinds.Shown r t others }
{}

/// What a server keeps true of its openings stays true while it hears by the rules, and while it does something else.
pub fn openings_stay()
    ensures hears { (v : ServerView) (said : SaidView) (answer : Answer) (after : ServerView) → HearsEvidence v said answer after → IsUnder v.seat.roster said
        → CanOpen v → CanOpen after }
    ensures can { (v after : ServerView) → LeavesOpenings v after → CanOpen v → CanOpen after }
    ensures keeps { (v after : ServerView) → LeavesOpenings v after → SignsNoOpenings v after → KeepsOpenings v → KeepsOpenings after }
{}

/// The ciphertexts of a round that a server shows fit into an envelope, its own and those of the clients that a body gives to it, where the
/// body's clients ascend and are few, and the ciphertexts have the round's length.
pub fn shown_ciphertexts_fit()
    ensures { (number : ℕ) (course : Course) (listed : List Listed) (s : List Bool) (own : List ShownCipher) → number < 2 ^ 32 → course.r.0 < 2 ^ 64
        → course.bits ≤ 65536 → length listed ≤ 512 → Ascend (map (λ (l : Listed). l.client) listed) → All (λ (l : Listed). l.client.0 < 2 ^ 32) listed
        → length s ≡ course.bits → AreOfRows course (given_to listed number) own → CanSign (server number) (kinds.Shown course.r s own) }
{}
