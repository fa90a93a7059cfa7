use dn_bits::{Bits, BitsFault};
use std::test::Fail;

#[test]
fn nine_bits_of_two_bytes(rt: HostRuntime) -> Result<(), Fail> {
    let alloc = rt.alloc();
    let bits = Bits::from_bytes(alloc, &[0xff, 0xff], 9)?;
    let mut bytes = Vec::new(alloc);
    bits.copy(alloc)?.write_bytes(alloc, &mut bytes)?;
    assert_eq!(rt; bytes.as_slice(), [0xff, 0x80].as_slice());
    Ok(())
}

#[test]
fn one_byte_has_no_nine_bits(rt: HostRuntime) {
    let fault = Bits::from_bytes(rt.alloc(), &[0xff], 9).err();
    assert_eq!(rt; fault, Some(BitsFault::Short { have: 8, need: 9 }));
}
