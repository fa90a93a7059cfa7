use crate::{Content, Numbered, Payloads};
use dn_roster::GroupSpec;
use dn_seal::deal;
use std::test::Fail;

const GROUP: GroupSpec = GroupSpec {
    version: 2,
    clients: 1,
    servers: 1,
    ots: 2,
    client_lms: 5,
    server_lms: 5,
    seed: [7; 32],
};

#[test]
fn equal_bytes_have_one_number(rt: HostRuntime) -> Result<(), Fail> {
    let alloc = rt.alloc();
    let dealt = deal(alloc, &GROUP)?;
    let mut payloads = Payloads::make(alloc, dealt.roster);
    for (byte, number, is_new) in [(9, 0, true), (8, 1, true), (9, 0, false), (7, 2, true)] {
        let numbered = payloads.put(vec![in alloc; byte; 3]?)?;
        assert_eq!(rt; numbered, Numbered { number, is_new });
    }
    assert_eq!(rt; payloads.len(), 3);
    assert_eq!(rt; payloads.bytes(1), Some([8, 8, 8].as_slice()));
    assert!(rt; matches!(payloads.content(2), Some(&Content::Form)));
    assert!(rt; payloads.content(3).is_none());
    Ok(())
}
