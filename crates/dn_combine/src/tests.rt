ghost use Rattle.std.specs.Prelude.{◌≤◌};

use crate::combining::{combine, server_sum};
use dn_bits::Bits;
use dn_pads::{Seed, pad};
use dn_wire::Round;
use std::alloc::Global;
use std::process::Abort;
use std::test::Fail;
use std::thread::Threads;

/// The bytes of a string.
fn bytes_of(alloc: Global, bits: &Bits) -> Result<Vec<u8>, Fail> {
    let mut bytes = Vec::new(alloc);
    bits.write_bytes(alloc, &mut bytes)?;
    Ok(bytes)
}

/// Adds up 3 seeds and two ciphertexts of 70 bits by so many workers; the sum was computed by another program.
fn sums<R: Threads + Abort + Sync>(rt: &R, alloc: Global, workers: u32) -> Result<(), Fail>
    requires { (1 ≤ workers) × (workers ≤ 16) }
{
    let seeds: [Seed; 3] = [[1; 32], [2; 32], [3; 32]];
    let mut held = Vec::new(alloc);
    held.push(pad(alloc, &[4; 32], Round(9), 70)?)?;
    held.push(pad(alloc, &[5; 32], Round(9), 70)?)?;
    let sum = server_sum(rt, alloc, &seeds, Round(7), 70, &held, workers)?;
    let bytes = bytes_of(alloc, &sum)?;
    assert_eq!(rt;
        bytes.as_slice(),
        [144, 241, 13, 209, 46, 17, 229, 138, 8].as_slice()
    );
    Ok(())
}

#[test]
fn any_number_of_workers_gives_the_same_bits(rt: HostRuntime) -> Result<(), Fail> {
    let alloc = rt.alloc();
    sums(&rt, alloc, 1)?;
    sums(&rt, alloc, 2)?;
    sums(&rt, alloc, 4)?;
    sums(&rt, alloc, 16)
}

#[test]
fn nothing_adds_up_to_zeros(rt: HostRuntime) -> Result<(), Fail> {
    let alloc = rt.alloc();
    let sum = server_sum(&rt, alloc, &[], Round(1), 70, &[], 4)?;
    assert_eq!(rt; bytes_of(alloc, &sum)?.as_slice(), [0; 9].as_slice());
    let none = combine(alloc, &[], 70)?;
    assert!(rt; none.equals(&sum));
    Ok(())
}
