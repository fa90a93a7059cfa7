use dn_io::{
    Collector, MemSink, MemSource, ReadEnd, SureSink, SureSource, WriteEnd, read_whole, write_whole,
};
use std::test::Fail;

#[test]
fn a_source_that_fails_in_mid_stream_goes_on_where_it_was(rt: HostRuntime) -> Result<(), Fail> {
    let alloc = rt.alloc();
    let mut source = MemSource::make(vec![in alloc; 1, 2, 3, 4, 5]?, 2, vec![in alloc; 1]?);
    assert_eq!(rt;
        read_whole(alloc, &mut source, 9).err(),
        Some(ReadEnd::ReadFault)
    );
    let rest = read_whole(alloc, &mut source, 9)?;
    assert_eq!(rt; rest.as_slice(), [3, 4, 5].as_slice());
    Ok(())
}

#[test]
fn as_many_bytes_as_the_limit_are_read_and_no_more(rt: HostRuntime) -> Result<(), Fail> {
    let alloc = rt.alloc();
    let mut source = SureSource::make(vec![in alloc; 1, 2, 3]?, 1);
    assert_eq!(rt;
        read_whole(alloc, &mut source, 3)?.as_slice(),
        [1, 2, 3].as_slice()
    );
    let mut source = SureSource::make(vec![in alloc; 1, 2, 3]?, 1);
    assert_eq!(rt;
        read_whole(alloc, &mut source, 2).err(),
        Some(ReadEnd::TooLong { limit: 2 })
    );
    Ok(())
}

#[test]
fn a_sink_that_fails_in_mid_stream_keeps_a_front(rt: HostRuntime) -> Result<(), Fail> {
    let alloc = rt.alloc();
    let mut sink = MemSink::make(alloc, 1, vec![in alloc; 2]?)?;
    assert_eq!(rt;
        write_whole(&mut sink, &[1, 2, 3, 4]).err(),
        Some(WriteEnd::WriteFault)
    );
    assert_eq!(rt; sink.bytes(), [1, 2].as_slice());
    write_whole(&mut sink, &[3, 4])?;
    assert_eq!(rt; sink.bytes(), [1, 2, 3, 4].as_slice());
    Ok(())
}

#[test]
fn a_sure_sink_takes_all(rt: HostRuntime) -> Result<(), Fail> {
    let mut sink = SureSink::make(rt.alloc(), 2)?;
    write_whole(&mut sink, &[1, 2, 3])?;
    assert_eq!(rt; sink.bytes(), [1, 2, 3].as_slice());
    Ok(())
}

#[test]
fn a_collector_puts_all_pieces_in_order(rt: HostRuntime) -> Result<(), Fail> {
    let alloc = rt.alloc();
    let mut sink = SureSink::make(alloc, 4096)?;
    let mut collector = Collector::new(alloc);
    let large = vec![in alloc; 9; 40_000]?;
    collector.add(&mut sink, &[1, 2])?;
    collector.add(&mut sink, &large)?;
    assert_eq!(rt; sink.bytes().len(), 0);
    collector.add(&mut sink, &large)?;
    assert_eq!(rt; sink.bytes().len(), 40_002);
    collector.finish(&mut sink)?;
    assert_eq!(rt; sink.bytes().len(), 80_002);
    assert_eq!(rt; sink.bytes().get(1), Some(&2));
    assert_eq!(rt; sink.bytes().get(2), Some(&9));
    Ok(())
}

#[test]
fn a_collector_over_a_sink_that_fails_has_nothing_left(rt: HostRuntime) -> Result<(), Fail> {
    let alloc = rt.alloc();
    let mut sink = MemSink::make(alloc, 1, vec![in alloc; 2]?)?;
    let mut collector = Collector::new(alloc);
    collector.add(&mut sink, &[1, 2, 3, 4])?;
    assert_eq!(rt;
        collector.finish(&mut sink).err(),
        Some(WriteEnd::WriteFault)
    );
    assert_eq!(rt; sink.bytes(), [1, 2].as_slice());
    collector.finish(&mut sink)?;
    assert_eq!(rt; sink.bytes(), [1, 2].as_slice());
    Ok(())
}
