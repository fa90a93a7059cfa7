ghost use Rattle.std.specs.Prelude.{ℕ, List, ◌++◌};
ghost use Rattle.std.specs.declared.option.Option.{Option};
ghost use Rattle.std.specs.Io.KnownBytes.{Appends};
ghost use Rattle.dn_io.specs.Sink.{AppendsFront};
ghost use Rattle.dn_io.specs.Writing.{AppendsAllBut};

/// The laws of writing a text piece by piece: where a front of it was written, and then the piece behind the front, then the front with
/// that piece was written; and where only some of the piece was, then a front of both.
pub fn pieces_make_the_text()
    ensures goes_on { (start before after : Option (List ℕ)) (front piece : List ℕ)
        → Appends start before front → Appends before after piece → Appends start after (front ++ piece) }
    ensures stops { (start before after : Option (List ℕ)) (front piece : List ℕ)
        → Appends start before front → AppendsFront before after piece → AppendsFront start after (front ++ piece) }
    ensures whole { (start after : Option (List ℕ)) (text : List ℕ) → Appends start after text → AppendsFront start after text }
    ensures short { (start after : Option (List ℕ)) (front rest : List ℕ) → AppendsFront start after front → AppendsFront start after (front ++ rest) }
{}

/// The same laws where a collector keeps the rest of the text: what the sink gained since the start and what waits is the text so far.
pub fn collected_pieces_make_the_text()
    ensures goes_on { (start before after : Option (List ℕ)) (text piece waited waits : List ℕ) → AppendsAllBut start before text waited
        → AppendsAllBut before after (waited ++ piece) waits → AppendsAllBut start after (text ++ piece) waits }
    ensures stops { (start before after : Option (List ℕ)) (text piece waited : List ℕ) → AppendsAllBut start before text waited
        → AppendsFront before after (waited ++ piece) → AppendsFront start after (text ++ piece) }
    ensures finishes { (start before after : Option (List ℕ)) (text waited : List ℕ) → AppendsAllBut start before text waited
        → Appends before after waited → Appends start after text }
{}
