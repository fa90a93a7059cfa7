// What holds of all records.

ghost use Rattle.std.specs.Prelude.{◌≡◌, ◌<◌, ◌^◌, ℕ};
ghost use Rattle.dn_record_types.specs.Exact.{IsExact};
ghost use Rattle.dn_record_types.specs.Fields.{byte, short, word, long, up_to, exactly, bits};
ghost use Rattle.dn_record_types.specs.Records.{statement_bytes, IsStatement, body_bytes, IsBody, envelope_bytes, IsEnvelope, payload_bytes, IsPayload};
ghost use Rattle.dn_record_types.specs.declared.statement.Statement.{Statement};
ghost use Rattle.dn_record_types.specs.declared.body.Body.{Body};
ghost use Rattle.dn_record_types.specs.declared.envelope.Envelope.{Envelope};
ghost use Rattle.dn_record_types.specs.declared.payload.Payload.{Payload};

/// Each field is read as it was written, and what is read is written so.
pub fn fields_are_exact()
    ensures byte { IsExact byte }
    ensures short { IsExact short }
    ensures word { IsExact word }
    ensures long { IsExact long }
    ensures limited { (limit : ℕ) → limit < 2 ^ 32 → IsExact (up_to limit) }
    ensures bytes { (n : ℕ) → IsExact (exactly n) }
    ensures bits { IsExact bits }
{}

/// Each record has one spelling, and no two records have the same.
pub fn spelled_once()
    ensures statements { (x y : Statement) → IsStatement x → IsStatement y → statement_bytes x ≡ statement_bytes y → x ≡ y }
    ensures bodies { (x y : Body) → IsBody x → IsBody y → body_bytes x ≡ body_bytes y → x ≡ y }
    ensures envelopes { (x y : Envelope) → IsEnvelope x → IsEnvelope y → envelope_bytes x ≡ envelope_bytes y → x ≡ y }
    ensures payloads { (x y : Payload) → IsPayload x → IsPayload y → payload_bytes x ≡ payload_bytes y → x ≡ y }
{}
