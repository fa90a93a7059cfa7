ghost use Rattle.std.specs.Prelude.{◌≡◌};
ghost use Rattle.dn_cert.specs.Evidence.{bit_in, shown_bit};

use dn_bits::Bits;
use dn_records::Statement;
use dn_wire::ClientId;

/// What a server's pad bits show of client `i`: its bit, and 0 past their end.
pub fn shown_bit(bits: &Bits, i: ClientId) -> bool
    ensures { result ≡ shown_bit bits.now i }
{
    bits.get_or_zero(i.0)
}

/// What a statement of pad bits shows of client `i`, and 0 where the statement is another.
pub fn bit_in(statement: &Statement, i: ClientId) -> bool
    ensures { result ≡ bit_in statement.now i }
{
    match statement {
        Statement::PadBits { bits, .. } => shown_bit(bits, i),
        _ => false,
    }
}
