// Layouts and blocks that are known.
use crate::layout::Layout;
use crate::reading::{Block, read_block};
use crate::writing::{BlockFault, block};
use dn_bits::Bits;
use dn_wire::SlotId;
use std::test::Fail;

#[test]
fn slots_open_on_their_request_bits(rt: HostRuntime) -> Result<(), Fail> {
    let layout = Layout::first(rt.alloc(), 3)?;
    let asked = Bits::from_bytes(rt.alloc(), &[0xe0], 8)?;
    assert_eq!(rt; layout.bits(), 8);
    assert_eq!(rt; asked.len(), 8);
    let opened = layout.next(rt.alloc(), &asked)?;
    assert_eq!(rt; opened.bits(), 1544);
    assert_eq!(rt; opened.range(SlotId(1)), Some((520, 1032)));
    let silent = Bits::zeros(rt.alloc(), 1544)?;
    assert_eq!(rt; silent.len(), 1544);
    let closed = opened.next(rt.alloc(), &silent)?;
    assert_eq!(rt; closed.bits(), 8);
    assert_eq!(rt; closed.range(SlotId(0)), None);
    Ok(())
}

#[test]
fn some_lengths_are_a_layout(rt: HostRuntime) -> Result<(), Fail> {
    let layout = Layout::of(vec![in rt.alloc(); 64, 0, 1024]?).ok_or("a layout")?;
    assert_eq!(rt; (layout.slots(), layout.bits()), (3, 8712));
    let copy = layout.copy(rt.alloc())?;
    assert_eq!(rt; (copy.slots(), copy.bits()), (3, 8712));
    assert_eq!(rt; copy.range(SlotId(2)), Some((520, 8712)));
    assert!(rt; Layout::of(vec![in rt.alloc(); 63]?).is_none());
    Ok(())
}

#[test]
fn a_text_is_read_back(rt: HostRuntime) -> Result<(), Fail> {
    let bytes = block(rt.alloc(), &[7; 36], 100, &[1; 16], 64)?;
    match read_block(rt.alloc(), &bytes)? {
        Block::Message { next_len, text } => {
            assert_eq!(rt; next_len, 100);
            assert_eq!(rt; text.as_slice(), [7; 36].as_slice());
        }
        Block::Garbled => return Err(Fail::from("garbled")),
    }
    let fault = block(rt.alloc(), &[7; 37], 100, &[1; 16], 64).err();
    assert_eq!(rt; fault, Some(BlockFault::TooLong { len: 37, room: 36 }));
    Ok(())
}
