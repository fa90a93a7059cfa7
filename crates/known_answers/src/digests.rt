// Lines of digests, in which VALUE is the digest:
// `seed_commitment I J SEED VALUE`, `cipher_digest R I BYTES VALUE`, `server_digest R J BYTES VALUE`,
// `mask_key MASKSEED VALUE`, `block_check BYTES VALUE`, `mask_seed SECRET R VALUE`.

use crate::fields::{array_at, bytes_at, ends_in, number_at};
use anyhow::{Result, bail};
use dn_hash::{block_check, cipher_digest, mask_key, mask_seed, seed_commitment, server_digest};
use std::alloc::Global;

/// Whether the digest that the word names is the one of the line.
pub fn passes(alloc: Global, word: &str, fields: &[&str]) -> Result<bool> {
    match word {
        "seed_commitment" => {
            let seed = array_at(fields, 2)?;
            let digest = seed_commitment(number_at(fields, 0)?, number_at(fields, 1)?, &seed);
            ends_in(alloc, fields, 3, &digest)
        }
        "cipher_digest" => {
            let bytes = bytes_at(alloc, fields, 2)?;
            let digest = cipher_digest(number_at(fields, 0)?, number_at(fields, 1)?, &bytes);
            ends_in(alloc, fields, 3, &digest)
        }
        "server_digest" => {
            let bytes = bytes_at(alloc, fields, 2)?;
            let digest = server_digest(number_at(fields, 0)?, number_at(fields, 1)?, &bytes);
            ends_in(alloc, fields, 3, &digest)
        }
        "mask_key" => ends_in(alloc, fields, 1, &mask_key(&array_at(fields, 0)?)),
        "block_check" => ends_in(alloc, fields, 1, &block_check(&bytes_at(alloc, fields, 0)?)),
        "mask_seed" => {
            let secret = array_at(fields, 0)?;
            ends_in(alloc, fields, 2, &mask_seed(&secret, number_at(fields, 1)?))
        }
        _ => bail!("no digest {word}"),
    }
}
