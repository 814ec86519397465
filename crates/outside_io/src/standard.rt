//! Sources and sinks over std's streams.
ghost use Rattle.std.specs.Prelude.{◌≡◌, ◌<◌, ◌≤◌, length};
ghost use Rattle.outside_io.specs.Faults.{faults_after_read, faults_after_write};
ghost use Rattle.outside_io.specs.Outside.{Reads, Writes};

use crate::{Put, Sink, Source, Taken};
use std::io::{ErrorKind, Read, Write};

/// How often one call tries again after an interruption. One more is an error.
const RETRIES: u8 = 100;

/// A real stream to read from. It counts its errors, and tells of its bytes what the stream does.
/// A call that is interrupted is tried again, 100 times at most.
#[derive(Drop)]
pub struct StdSource<R> {
    reader: R,
    faults: u64,
}

impl<R: Read> StdSource<R> {
    ghost use Rattle.outside_io.specs.Standard.{source_reader, source_faults};

    /// A source over a reader, with no fault yet.
    pub fn new(reader: R) -> Self
        ensures reader { source_reader result ≡ reader }
        ensures faults { source_faults result ≡ 0 }
    {
        StdSource { reader, faults: 0 }
    }
}

impl<R: Read> Source for StdSource<R> {
    ghost use Rattle.outside_io.specs.Standard.{source_reader, source_faults};

    ghost left = { λ s. R.remaining (source_reader s) };

    ghost faults = { source_faults };

    fn read(&mut self, buf: &mut [u8]) -> Taken
        requires { 0 < length buf.old }
        ensures reads { Reads (R.remaining (source_reader self.old)) (R.remaining (source_reader self.new)) (source_faults self.old) (source_faults self.new) buf.new result }
        ensures later { source_faults self.old ≤ source_faults self.new }
        ensures faults { source_faults self.new ≡ faults_after_read (source_faults self.old) result }
    {
        for _ in 0..=RETRIES {
            match self.reader.read(buf) {
                Ok(0) => return Taken::End,
                Ok(count) => return Taken::Some(count),
                Err(error) if error.kind() == ErrorKind::Interrupted => {}
                Err(_) => break,
            }
        }
        self.faults = self.faults.saturating_add(1);
        Taken::Failed
    }
}

/// A real stream to write to. It counts its errors, and tells of its bytes what the stream does. A
/// call that is interrupted is tried again, 100 times at most.
#[derive(Drop)]
pub struct StdSink<W> {
    writer: W,
    faults: u64,
}

impl<W: Write> StdSink<W> {
    ghost use Rattle.outside_io.specs.Standard.{sink_writer, sink_faults};

    /// A sink over a writer, with no fault yet.
    pub fn new(writer: W) -> Self
        ensures writer { sink_writer result ≡ writer }
        ensures faults { sink_faults result ≡ 0 }
    {
        StdSink { writer, faults: 0 }
    }
}

impl<W: Write> Sink for StdSink<W> {
    ghost use Rattle.outside_io.specs.Standard.{sink_writer, sink_faults};

    ghost written = { λ s. W.contents (sink_writer s) };

    ghost faults = { sink_faults };

    fn write(&mut self, piece: &[u8]) -> Put
        requires { 0 < length piece.now }
        ensures writes { Writes (W.contents (sink_writer self.old)) (W.contents (sink_writer self.new)) (sink_faults self.old) (sink_faults self.new) piece.now result }
        ensures later { sink_faults self.old ≤ sink_faults self.new }
        ensures faults { sink_faults self.new ≡ faults_after_write (sink_faults self.old) result }
    {
        for _ in 0..=RETRIES {
            match self.writer.write(piece) {
                Ok(0) => break,
                Ok(count) => return Put::Took(count),
                Err(error) if error.kind() == ErrorKind::Interrupted => {}
                Err(_) => break,
            }
        }
        self.faults = self.faults.saturating_add(1);
        Put::Failed
    }
}
