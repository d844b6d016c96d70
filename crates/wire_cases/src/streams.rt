use std::alloc::Global;
use std::test::Fail;
use wan_edge::{
    Failed, MemorySink, MemorySource, Nums8, PlainSink, PlainSource, Source, Turns, read_all,
    write_all,
};

fn three_bytes(alloc: Global) -> Result<Nums8, Fail> {
    let mut bytes = Nums8::new(alloc);
    bytes.extend_from_slice(&[1, 2, 3])?;
    Ok(bytes)
}

// The second turn.
fn second(alloc: Global) -> Result<Turns, Fail> {
    let mut turns = Turns::new(alloc);
    turns.push(1)?;
    Ok(turns)
}

// What three reads of two bytes give, of which the second fails, and how many did.
fn reads(alloc: Global) -> Result<([Result<usize, Failed>; 3], u64), Fail> {
    let mut source = MemorySource::new(three_bytes(alloc)?, second(alloc)?);
    let mut into = [0; 2];
    let given = [
        source.read(&mut into),
        source.read(&mut into),
        source.read(&mut into),
    ];
    Ok((given, source.failures()))
}

#[test]
fn a_source_fails_at_its_turn_alone(rt: HostRuntime) -> Result<(), Fail> {
    assert_eq!(rt; reads(rt.alloc())?, ([Ok(2), Err(Failed), Ok(1)], 1));
    Ok(())
}

#[test]
fn a_sink_fails_at_its_turn_alone(rt: HostRuntime) -> Result<(), Fail> {
    let mut sink = MemorySink::new(rt.alloc(), second(rt.alloc())?);
    let given = [
        write_all(&mut sink, &[7]),
        write_all(&mut sink, &[8]),
        write_all(&mut sink, &[9]),
    ];
    assert_eq!(rt;
        (given, sink.failures()),
        ([Ok(()), Err(Failed), Ok(())], 1)
    );
    assert_eq!(rt; sink.written(), [7, 9].as_slice());
    Ok(())
}

#[test]
fn plain_streams_never_fail(rt: HostRuntime) -> Result<(), Fail> {
    let mut source = PlainSource::new(three_bytes(rt.alloc())?);
    let read = read_all(rt.alloc(), &mut source, 3)?;
    write_all(&mut PlainSink::new(), read.as_slice())?;
    assert_eq!(rt; read.as_slice(), [1, 2, 3].as_slice());
    Ok(())
}
