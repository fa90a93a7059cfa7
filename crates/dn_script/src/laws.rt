// The law of reading scripts.
ghost use Rattle.std.specs.Prelude.{◌≡◌, ℕ, List, Ok};
ghost use Rattle.dn_script.specs.Script.{Lines, script_of};
ghost use Rattle.dn_script.specs.Spelled.{Spells};

/// What is read as a script is spelled as it, and keeps its limits.
pub fn spelled()
    ensures { (text : List ℕ) (script : Lines) → script_of text ≡ Ok script → Spells text script }
{}

/// What is spelled as a script that keeps its limits is read as it.
pub fn read_again()
    ensures { (text : List ℕ) (script : Lines) → Spells text script → script_of text ≡ Ok script }
{}
