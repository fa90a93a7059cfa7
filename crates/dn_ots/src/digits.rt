ghost use Rattle.std.specs.Prelude.{◌≡◌, ◌*◌, ◌/◌, ◌-◌, ◌^◌, ◌<◌, ◌≤◌, length};
ghost use Rattle.dn_ots.specs.Parameters.{width, IsCode};
ghost use Rattle.dn_ots.specs.Digits.{coef, with_checksum};

use crate::Params;

/// The i-th field of w bits, from the left (RFC 8554 section 3.1.3).
pub(crate) fn coef(params: Params, s: &[u8], i: u32) -> u8
    requires short { length s.now ≤ 34 }
    requires within { i * params.w < 8 * length s.now }
    ensures { result ≡ coef s.now i (width params.code) }
{
    let w = params.w;
    (s[(i * w / 8) as usize] >> (8 - (w * (i % (8 / w)) + w))) & params.last_step()
}

/// A hash and its checksum (RFC 8554 section 4.4).
pub(crate) fn with_checksum(params: Params, hash: [u8; 32]) -> [u8; 34]
    ensures value { result ≡ with_checksum params.code hash }
    ensures long { length result ≡ 34 }
{
    let mut sum = 0u16;
    for i in 0..256 / params.w {
        sum += u16::from(params.last_step() - coef(params, &hash, i));
    }
    let mut digits = [0; 34];
    digits[..32].copy_from_slice(&hash);
    digits[32..].copy_from_slice(&(sum << params.ls).to_be_bytes());
    digits
}
