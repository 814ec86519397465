//! Streams that fail, end and are interrupted.
use crate::{
    MemSink, MemSource, Put, ReadError, Sink, Source, StdSink, StdSource, Taken, WriteFailed,
    read_all, write_all,
};
use std::io;
use std::test::Fail;

#[test]
fn a_source_is_read_to_its_end(rt: HostRuntime) -> Result<(), Fail> {
    let alloc = rt.alloc();
    for (limit, want) in [
        (3, Err(ReadError::TooLarge)),
        (4, Ok(b"abcd".as_slice())),
        (5, Ok(b"abcd".as_slice())),
    ] {
        let mut source = MemSource::new(Vec::from_slice(alloc, b"abcd")?, 3, Vec::new(alloc));
        match (read_all(alloc, &mut source, limit), want) {
            (Ok(bytes), Ok(text)) => assert_eq!(rt; bytes.as_slice(), text),
            (Err(error), Err(other)) => assert_eq!(rt; error, other),
            _ => assert!(rt; false, "at limit {limit}"),
        }
    }
    Ok(())
}

#[test]
fn a_read_and_a_write_fail_where_they_are_told_to(rt: HostRuntime) -> Result<(), Fail> {
    let alloc = rt.alloc();
    let bytes = Vec::from_slice(alloc, b"abcd")?;
    let mut source = MemSource::new(bytes, 3, vec![in alloc; 2]?);
    let failed = read_all(alloc, &mut source, 9);
    assert!(rt; matches!(failed, Err(ReadError::Failed)));
    let mut sink = MemSink::new(alloc, 9, 2, vec![in alloc; 3]?)?;
    assert!(rt; write_all(&mut sink, b"abcdef").is_err());
    assert_eq!(rt; sink.bytes(), b"abcd".as_slice());
    Ok(())
}

#[test]
fn a_sink_takes_no_more_than_its_room(rt: HostRuntime) -> Result<(), Fail> {
    let alloc = rt.alloc();
    let mut sink = MemSink::new(alloc, 3, 8, Vec::new(alloc))?;
    assert!(rt; write_all(&mut sink, b"abcd").is_err());
    assert_eq!(rt; sink.bytes(), b"abc".as_slice());
    Ok(())
}

#[test]
fn real_streams_are_adapted(rt: HostRuntime) -> Result<(), Fail> {
    let alloc = rt.alloc();
    let mut source = StdSource::new(b"abcd".as_slice());
    assert_eq!(rt;
        read_all(alloc, &mut source, 9)?.as_slice(),
        b"abcd".as_slice()
    );
    let mut room = [0u8; 3];
    let mut sink = StdSink::new(room.as_mut_slice());
    assert!(rt; write_all(&mut sink, b"abcd").is_err());
    assert_eq!(rt; room, *b"abc");
    Ok(())
}

/// A stream whose first calls are interrupted, so many of them. Each later one moves one byte.
#[derive(Drop)]
struct Interrupted {
    left: u32,
}

impl Interrupted {
    fn call(&mut self) -> io::Result<()> {
        if self.left == 0 {
            return Ok(());
        }
        self.left -= 1;
        Err(io::Error::from(io::ErrorKind::Interrupted))
    }
}

impl io::Read for Interrupted {
    fn read(&mut self, buf: &mut [u8]) -> io::Result<usize> {
        self.call()?;
        Ok(buf.len().min(1))
    }
}

impl io::Write for Interrupted {
    fn write(&mut self, buf: &[u8]) -> io::Result<usize> {
        self.call()?;
        Ok(buf.len().min(1))
    }

    fn flush(&mut self) -> io::Result<()> {
        Ok(())
    }
}

// So many interruptions, and how many calls fail before one succeeds.
#[test]
fn a_call_is_tried_again_at_100_interruptions_and_fails_at_one_more(rt: HostRuntime) {
    for (left, fails) in [(0, 0), (100, 0), (101, 1), (201, 1), (202, 2)] {
        let mut source = StdSource::new(Interrupted { left });
        let mut sink = StdSink::new(Interrupted { left });
        for _ in 0..fails {
            assert_eq!(rt; source.read(&mut [0; 4]), Taken::Failed, "of {left}");
            assert_eq!(rt; sink.write(b"abcd"), Put::Failed, "of {left}");
        }
        assert_eq!(rt; source.read(&mut [0; 4]), Taken::Some(1), "of {left}");
        assert_eq!(rt; sink.write(b"abcd"), Put::Took(1), "of {left}");
    }
}

#[test]
fn faults_have_these_texts(rt: HostRuntime) -> Result<(), Fail> {
    let alloc = rt.alloc();
    for (error, text) in [
        (ReadError::Failed, "read fault"),
        (ReadError::TooLarge, "input too large"),
        (ReadError::OutOfMemory, "out of memory"),
    ] {
        assert_eq!(rt; format!(in alloc; "{error}")?.as_str(), text);
    }
    let failed = WriteFailed;
    assert_eq!(rt; format!(in alloc; "{failed}")?.as_str(), "write fault");
    Ok(())
}
