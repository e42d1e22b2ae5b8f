ghost use Rattle.std.specs.Prelude.{Some};

use st_edge::{
    Disk, Failed, FaultlessDisk, FaultlessSink, FaultlessSource, FileDisk, MemorySink,
    MemorySource, Sink, Source, StdinSource, StdoutSink, write_all,
};
use std::test::Fail;

/// A sink that takes one byte a call.
#[derive(Drop)]
struct OneByteSink {
    inner: MemorySink,
}

impl Sink for OneByteSink {
    ghost state = { λ s. record { taken = Some s.inner.bytes; faults = s.inner.faults } };

    fn write(&mut self, from: &[u8]) -> Result<usize, Failed> {
        self.inner.write(&from[..from.len().min(1)])
    }
}

#[test]
fn a_memory_source_fails_when_told_and_loses_nothing(rt: HostRuntime) -> Result<(), Fail> {
    let bytes = b"abcde".to_vec(rt.alloc())?;
    let mut source = MemorySource::new(bytes, vec![in rt.alloc(); 1, 2]?);
    let mut piece = [0; 3];
    assert_eq!(rt; source.read(&mut piece), Err(Failed));
    assert_eq!(rt; source.read(&mut piece), Err(Failed));
    assert_eq!(rt; source.read(&mut piece), Ok(3));
    assert_eq!(rt; piece, *b"abc");
    assert_eq!(rt; source.read(&mut piece), Ok(2));
    assert_eq!(rt; piece, *b"dec");
    assert_eq!(rt; source.read(&mut piece), Ok(0));
    Ok(())
}

#[test]
fn a_memory_sink_keeps_what_it_took(rt: HostRuntime) -> Result<(), Fail> {
    let mut sink = MemorySink::new(rt.alloc(), vec![in rt.alloc(); 2]?);
    assert_eq!(rt; write_all(&mut sink, b"ab"), Ok(()));
    assert_eq!(rt; sink.write(b"cd"), Err(Failed));
    assert_eq!(rt; write_all(&mut sink, b""), Ok(()));
    assert_eq!(rt; sink.write(b"ef"), Ok(2));
    assert_eq!(rt; sink.bytes(), b"abef".as_slice());
    Ok(())
}

#[test]
fn a_write_of_all_goes_on_and_stops_at_a_failure(rt: HostRuntime) -> Result<(), Fail> {
    let inner = MemorySink::new(rt.alloc(), vec![in rt.alloc(); 6]?);
    let mut sink = OneByteSink { inner };
    assert_eq!(rt; write_all(&mut sink, b"abc"), Ok(()));
    assert_eq!(rt; write_all(&mut sink, b"defg"), Err(Failed));
    assert_eq!(rt; sink.inner.bytes(), b"abcde".as_slice());
    Ok(())
}

#[test]
fn the_faultless_streams_answer(rt: HostRuntime) -> Result<(), Fail> {
    let mut source = FaultlessSource::new(b"abc".to_vec(rt.alloc())?);
    let mut piece = [7; 2];
    assert_eq!(rt; source.read(&mut piece), Ok(2));
    assert_eq!(rt; piece, *b"ab");
    assert_eq!(rt; source.read(&mut piece), Ok(1));
    assert_eq!(rt; write_all(&mut FaultlessSink::new(), b"abc"), Ok(()));
    Ok(())
}

#[test]
fn the_faultless_disk_reads_as_zeros(rt: HostRuntime) {
    let mut piece = [7; 2];
    let mut disk = FaultlessDisk::new();
    assert_eq!(rt; disk.write_at(1, b"abc"), Ok(()));
    assert_eq!(rt; disk.read(1, &mut piece), Ok(()));
    assert_eq!(rt; piece, [0, 0]);
    assert_eq!(rt; disk.sync(), Ok(()));
    assert_eq!(rt; disk.length(), Ok(0));
}

#[test]
fn the_standard_streams_answer(rt: HostRuntime) {
    assert_eq!(rt; StdinSource::new(rt).read(&mut []), Ok(0));
    assert_eq!(rt; StdoutSink::new(rt).write(b"out\n"), Ok(4));
}

fn is_shared<T: Send + Sync>(_form: &T) {}

#[test]
fn the_forms_cross_threads(rt: HostRuntime) {
    let none = Vec::new(rt.alloc());
    is_shared(&MemorySource::new(Vec::new(rt.alloc()), none));
    is_shared(&MemorySink::new(rt.alloc(), Vec::new(rt.alloc())));
    is_shared(&FaultlessSource::new(Vec::new(rt.alloc())));
    is_shared(&FaultlessSink::new());
    is_shared(&FaultlessDisk::new());
    is_shared(&StdinSource::new(rt));
    is_shared(&StdoutSink::new(rt));
    is_shared(&FileDisk::new(rt, String::new(rt.alloc())));
}
