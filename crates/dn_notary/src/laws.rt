// Laws of signed lists, for those who build on them.
ghost use Rattle.std.specs.Prelude.{◌≡◌, ℕ, List, length};
ghost use Rattle.dn_notary.specs.Notarized.{JudgesText};
ghost use Rattle.dn_notary.specs.Tasks.{IsNotarized, IsSignedFor, count_text};
ghost use Rattle.dn_notary.specs.declared.verdict.Verdict.{Verdict};

/// What `notary` writes for a list, `notarized` accepts, with its number of entries.
pub fn what_notary_writes_is_notarized()
    ensures { (num : ℕ) (text due : List ℕ) → (list : IsSignedFor num text due) → IsNotarized due (count_text (length list.entries)) }
{}

/// A text has one verdict: it is accepted, with one number of entries, or one line of it is the first that breaks a rule, and one rule the
/// least that it breaks.
pub fn a_text_has_one_verdict()
    ensures { (parts : List (List ℕ)) (v w : Verdict) → JudgesText parts v → JudgesText parts w → v ≡ w }
{}
