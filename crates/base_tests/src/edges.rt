use dn_io::{ReadEdge, ReadEnd, WriteEdge, WriteEnd, read_whole, write_whole};
use std::io::{self, Read, Write};
use std::test::Fail;

/// Gives two bytes at each call but the second, which fails, and ends at the fourth.
#[derive(Drop)]
struct Stammering(u32);

impl Read for Stammering {
    fn read(&mut self, buf: &mut [u8]) -> io::Result<usize> {
        self.0 = self.0.saturating_add(1);
        match self.0 {
            2 => Err(io::Error::from(io::ErrorKind::TimedOut)),
            1 | 3 if buf.len() >= 2 => {
                buf[0] = 7;
                buf[1] = 8;
                Ok(2)
            }
            _ => Ok(0),
        }
    }
}

/// Takes one byte at each call but the third, which takes none.
#[derive(Drop)]
struct Choking(u32);

impl Write for Choking {
    fn write(&mut self, buf: &[u8]) -> io::Result<usize> {
        self.0 = self.0.saturating_add(1);
        Ok(if self.0 == 3 { 0 } else { buf.len().min(1) })
    }

    fn flush(&mut self) -> io::Result<()> {
        Ok(())
    }
}

#[test]
fn a_reader_that_fails_in_mid_stream(rt: HostRuntime) -> Result<(), Fail> {
    let alloc = rt.alloc();
    let mut source = ReadEdge::make(Stammering(0));
    assert_eq!(rt;
        read_whole(alloc, &mut source, 9).err(),
        Some(ReadEnd::ReadFault)
    );
    assert_eq!(rt;
        read_whole(alloc, &mut source, 9)?.as_slice(),
        [7, 8].as_slice()
    );
    Ok(())
}

#[test]
fn a_writer_that_takes_nothing(rt: HostRuntime) {
    let mut sink = WriteEdge::make(Choking(0));
    assert_eq!(rt;
        write_whole(&mut sink, &[1, 2, 3]).err(),
        Some(WriteEnd::WriteFault)
    );
    assert!(rt; write_whole(&mut sink, &[3]).is_ok());
}
