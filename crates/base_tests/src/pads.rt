use dn_pads::{pad, pad_bit};
use dn_wire::Round;
use std::test::Fail;

// The first 77 bits of a ChaCha20 keystream, computed by another program.
#[test]
fn a_pad_is_the_front_of_a_keystream(rt: HostRuntime) -> Result<(), Fail> {
    let alloc = rt.alloc();
    let mut bytes = Vec::new(alloc);
    pad(alloc, &[7; 32], Round(5), 77)?.write_bytes(alloc, &mut bytes)?;
    let due = [0x11, 0x52, 0xc6, 0x8f, 0x2f, 0x55, 0x66, 0x24, 0xca, 0x78];
    assert_eq!(rt; bytes.as_slice(), due.as_slice());
    assert!(rt; pad_bit(&[7; 32], Round(5), 76));
    Ok(())
}
