use super::*;
use std::test::*;

#[test]
fn written(rt: HostRuntime) -> Result<(), Fail> {
    let mut out = Vec::new(rt.alloc());
    put_u32(&mut out, 13).ok().ok_or("memory")?;
    assert_eq!(rt; out.as_slice(), [0, 0, 0, 13].as_slice());
    put_u8(&mut out, 1).ok().ok_or("memory")?;
    put_u16(&mut out, 2).ok().ok_or("memory")?;
    put_u64(&mut out, 3).ok().ok_or("memory")?;
    put_bytes(&mut out, b"hi").ok().ok_or("memory")?;
    assert_eq!(rt; out.len(), 17);
    Ok(())
}

#[test]
fn copied(rt: HostRuntime) -> Result<(), Fail> {
    let bytes = Bytes::of(Vec::from_slice(rt.alloc(), b"hi")?);
    assert!(rt; bytes.copy(rt.alloc()).ok().ok_or("memory")?.equals(&bytes));
    let members = MemberList::of(Vec::from_slice(rt.alloc(), &[Member::Client(ClientId(1))])?);
    assert!(rt;
        members
            .copy(rt.alloc())
            .ok()
            .ok_or("memory")?
            .equals(&members)
    );
    Ok(())
}
