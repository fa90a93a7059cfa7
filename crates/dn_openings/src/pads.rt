// The pad bits that a server opens.
ghost use Rattle.std.specs.Prelude.{◌≡◌, ◌<◌, ◌≤◌, ◌==◌, ℕ, List, false, length, map, slice_index_or, All, IfOk, if◌then◌else◌, []};
ghost use Rattle.dn_bits.specs.Bits.{below, bit};
ghost use Rattle.dn_pads.specs.Pads.{keystream_bit};
ghost use Rattle.dn_openings.specs.Accusing.{lists};

use dn_bits::Bits;
use dn_memory::NoMemory;
use dn_pads::{Seed, pad_bit};
use dn_records::Body;
use std::alloc::Global;

/// Sets bit `i`.
fn set_bit(bits: &mut Bits, i: u32, value: bool)
    requires { i < length bits.old }
    ensures { bits.new ≡ map (λ j. if j == i then value else bit bits.old j) (below (length bits.old)) }
{
    if bits.get(i) != value {
        bits.flip(i);
    }
}

/// The true pad bits at place `k` of a body's round of the clients that it lists, and 0 for others, by client.
pub(crate) fn opened_bits(
    alloc: Global,
    seeds: &[Seed],
    body: &Body,
    k: u32,
    clients: u32,
) -> Result<Bits, NoMemory>
    requires seeds { length seeds.now ≡ clients }
    requires listed { All (λ l. l.client.0 < clients) body.now.listed }
    ensures { IfOk result (λ b. b ≡ map (λ i. if lists body.now i then keystream_bit (slice_index_or seeds.now i []) body.now.r.0 k else false) (below clients)) }
{
    let mut bits = Bits::zeros(alloc, clients)?;
    for row in body.listed.get() {
        let i = row.client.0;
        set_bit(&mut bits, i, pad_bit(&seeds[i as usize], body.r, k));
    }
    Ok(bits)
}
