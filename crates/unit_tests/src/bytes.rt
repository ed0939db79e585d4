//! Sources and sinks of bytes.

ghost use Rattle.std.specs.Prelude.{◌<◌};

use adlb_io::{
    Failed, MemorySink, MemorySource, Sink, SinkFault, Source, StdinSource, StdoutSink, SteadySink,
    SteadySource, Unwritten, fill, write_all,
};
use std::alloc::Global;
use std::test::Fail;

// The tests run with an empty standard input.
#[test]
fn reads_standard_input(rt: HostRuntime) -> Result<(), Fail> {
    let mut source = StdinSource::new(rt.clone()?);
    let mut room = [0u8; 16];
    assert!(rt; source.read(&mut room).is_ok());
    Ok(())
}

#[test]
fn writes_standard_output(rt: HostRuntime) -> Result<(), Fail> {
    let mut sink = StdoutSink::new(rt.clone()?);
    assert!(rt; sink.write(b"") == Ok(0));
    assert!(rt; sink.write(b"a line of a test\n").is_ok());
    assert!(rt; sink.flush() == Ok(()));
    Ok(())
}

// A source of these bytes, which gives pieces of this length, and whose read of this number fails.
fn source(alloc: Global, bytes: &[u8], per_read: usize, fails: u64) -> Result<MemorySource, Fail>
    requires { 0 < per_read }
{
    let bytes = bytes.to_vec(alloc)?;
    Ok(MemorySource::new(bytes, per_read, [fails].to_vec(alloc)?))
}

// The source gives `abcde` two bytes at a time, and its third read fails.
fn gives_pieces(source: &mut MemorySource) -> bool {
    let mut room = [0u8; 3];
    let first = source.read(&mut room) == Ok(2) && room.starts_with(b"ab");
    let second = source.read(&mut room[..1]) == Ok(1);
    let third = source.read(&mut room) == Err(Failed);
    let fourth = source.read(&mut room) == Ok(2) && room.starts_with(b"de");
    first && second && third && fourth && source.read(&mut room) == Ok(0)
}

#[test]
fn a_source_gives_its_bytes_in_pieces(rt: HostRuntime) -> Result<(), Fail> {
    let mut source = source(rt.alloc(), b"abcde", 2, 3)?;
    assert!(rt; gives_pieces(&mut source));
    Ok(())
}

// The source gives `abcde`: a room of four bytes is filled, and then one byte of it.
fn fills(source: &mut MemorySource) -> bool {
    let mut room = [0u8; 4];
    let all = fill(source, &mut room) == Ok(4) && room == *b"abcd";
    all && fill(source, &mut room) == Ok(1)
}

#[test]
fn a_room_is_filled_over_several_reads(rt: HostRuntime) -> Result<(), Fail> {
    let mut small = source(rt.alloc(), b"abcde", 1, 0)?;
    assert!(rt; fills(&mut small));
    Ok(())
}

#[test]
fn a_steady_source_fills_what_it_has(rt: HostRuntime) -> Result<(), Fail> {
    let mut steady = SteadySource::new(b"xyz".to_vec(rt.alloc())?);
    let mut room = [0u8; 4];
    assert!(rt; fill(&mut steady, &mut room) == Ok(3));
    Ok(())
}

#[test]
fn a_room_is_not_filled_past_a_failure(rt: HostRuntime) -> Result<(), Fail> {
    let mut failing = source(rt.alloc(), b"ab", 1, 2)?;
    let mut room = [0u8; 4];
    assert!(rt; fill(&mut failing, &mut room) == Err(Failed));
    Ok(())
}

// A text of 20 bytes goes in two writes of 10, and the third call is the flush. If the call of this number fails, this number of
// bytes is taken, and the answer is this.
fn is_taken(
    alloc: Global,
    fails: u64,
    taken: usize,
    answer: Result<(), Unwritten>,
) -> Result<bool, Fail> {
    let mut sink = MemorySink::new(alloc, 10, [fails].to_vec(alloc)?);
    let told = write_all(&mut sink, b"twenty bytes of text");
    Ok(told == answer && sink.taken().len() == taken)
}

const FAULTS: &[(u64, usize)] = &[(2, 10), (3, 20)];

#[test]
fn a_sink_takes_a_text_up_to_its_fault(rt: HostRuntime) -> Result<(), Fail> {
    assert!(rt; is_taken(rt.alloc(), 0, 20, Ok(()))?);
    for (fails, taken) in FAULTS {
        let fault = Unwritten {
            fault: SinkFault::Failed,
            taken: *taken,
        };
        assert!(rt;
            is_taken(rt.alloc(), *fails, *taken, Err(fault))?,
            "call {fails}"
        );
    }
    Ok(())
}

#[test]
fn a_steady_sink_takes_all(rt: HostRuntime) -> Result<(), Fail> {
    let mut steady = SteadySink::new(rt.alloc());
    assert!(rt; write_all(&mut steady, b"all of it") == Ok(()));
    assert!(rt; steady.taken() == b"all of it".as_slice());
    Ok(())
}
