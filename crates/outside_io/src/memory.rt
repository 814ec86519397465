//! Sources and sinks in memory, which fail where they are told to.
ghost use Rattle.std.specs.Prelude.{◌≡◌, ◌+◌, ◌-◌, ◌++◌, ◌==◌, ◌≤◌, ◌<◌, [], length, drop, take, IfOk, Some};
ghost use Rattle.std.specs.List.{list_any};
ghost use Rattle.outside_io.specs.Outside.{Reads, Writes};

use crate::{OutOfMemory, Put, Sink, Source, Taken};
use std::alloc::Global;

/// A source over bytes in memory. It gives at most `piece` bytes in a call and fails at some calls.
#[derive(Drop)]
pub struct MemSource {
    bytes: Vec<u8>,
    place: usize,
    piece: usize,
    fails: Vec<u32>,
    calls: u64,
    faults: u64,
    ghost in_range: { place ≤ length bytes.items },
    ghost some_piece: { 0 < piece },
}

impl MemSource {
    ghost use Rattle.outside_io.specs.Memory.{left_of, source_faults, source_calls, source_manner};

    /// A source of these bytes, which fails at the calls numbered in `fails`, counted from 1. A
    /// call moves at most `piece` bytes, 1 or more.
    pub fn new(bytes: Vec<u8>, piece: usize, fails: Vec<u32>) -> Self
        requires { 0 < piece }
        ensures left { left_of result ≡ Some bytes.items }
        ensures faults { source_faults result ≡ 0 }
        ensures calls { source_calls result ≡ 0 }
        ensures manner { source_manner result ≡ record { piece = piece; fails = fails.items } }
    {
        MemSource {
            bytes,
            place: 0,
            piece,
            fails,
            calls: 0,
            faults: 0,
        }
    }
}

impl Source for MemSource {
    ghost use Rattle.outside_io.specs.Faults.{next_count, faults_after_read};
    ghost use Rattle.outside_io.specs.Memory.{left_of, source_faults, source_manner, source_calls, source_len, taken_at};

    ghost left = { left_of };

    ghost faults = { source_faults };

    fn read(&mut self, buf: &mut [u8]) -> Taken
        requires { 0 < length buf.old }
        ensures reads { Reads (left_of self.old) (left_of self.new) (source_faults self.old) (source_faults self.new) buf.new result }
        ensures later { source_faults self.old ≤ source_faults self.new }

        // The exact answer, and the exact count.
        ensures taken { result ≡ taken_at (source_manner self.old) (source_calls self.new) (source_len self.old) (length buf.old) }
        ensures faults { source_faults self.new ≡ faults_after_read (source_faults self.old) result }
        ensures calls { source_calls self.new ≡ next_count (source_calls self.old) }
        ensures manner { source_manner self.new ≡ source_manner self.old }
    {
        self.calls = self.calls.saturating_add(1);
        if is_listed(&self.fails, self.calls) {
            self.faults = self.faults.saturating_add(1);
            return Taken::Failed;
        }
        let count = (self.bytes.len() - self.place)
            .min(self.piece)
            .min(buf.len());
        if count == 0 {
            return Taken::End;
        }
        copy_front(&self.bytes, self.place, &mut buf[..], count);
        self.place += count;
        Taken::Some(count)
    }
}

/// Copies so many bytes from a place on over the front of a buffer.
fn copy_front(bytes: &[u8], place: usize, to: &mut [u8], count: usize)
    requires in_bytes { place + count ≤ length bytes.now }
    requires in_to { count ≤ length to.old }
    ensures front { drop place bytes.now ≡ take count to.new ++ drop (place + count) bytes.now }
    ensures len { length to.new ≡ length to.old }
{
    to[..count].copy_from_slice(&bytes[place..place + count]);
}

/// Whether a call is one of those that fail.
fn is_listed(fails: &[u32], call: u64) -> bool
    ensures { result ≡ list_any (λ n. n == call) fails.now }
{
    fails.iter().any(|number| u64::from(*number) == call)
}

/// A sink in memory with room for so many bytes. It takes at most `piece` bytes in a call and
/// fails at some calls, and where no room is left.
#[derive(Drop)]
pub struct MemSink {
    bytes: Vec<u8>,
    len: usize,
    piece: usize,
    fails: Vec<u32>,
    calls: u64,
    faults: u64,
    ghost in_range: { len ≤ length bytes.items },
    ghost some_piece: { 0 < piece },
}

impl MemSink {
    ghost use Rattle.outside_io.specs.Memory.{written_of, room_of, sink_faults, sink_calls, sink_manner};

    /// An empty sink, which fails at the calls numbered in `fails`, counted from 1. The memory for
    /// all its room is taken here, so that a write takes none. A call moves at most `piece` bytes,
    /// 1 or more.
    pub fn new(
        alloc: Global,
        room: usize,
        piece: usize,
        fails: Vec<u32>,
    ) -> Result<Self, OutOfMemory>
        requires { 0 < piece }
        ensures written { IfOk result (λ s. written_of s ≡ Some []) }
        ensures room { IfOk result (λ s. room_of s ≡ room) }
        ensures faults { IfOk result (λ s. sink_faults s ≡ 0) }
        ensures calls { IfOk result (λ s. sink_calls s ≡ 0) }
        ensures manner { IfOk result (λ s. sink_manner s ≡ record { piece = piece; fails = fails.items }) }
    {
        Ok(MemSink {
            bytes: vec![in alloc; 0; room]?,
            len: 0,
            piece,
            fails,
            calls: 0,
            faults: 0,
        })
    }

    /// The bytes that were written.
    pub fn bytes(&self) -> &[u8]
        ensures { written_of self.now ≡ Some result.now }
    {
        &self.bytes[..self.len]
    }
}

impl Sink for MemSink {
    ghost use Rattle.outside_io.specs.Faults.{next_count, faults_after_write};
    ghost use Rattle.outside_io.specs.Memory.{written_of, sink_faults, sink_manner, sink_calls, room_of, put_at, taken_by};

    ghost written = { written_of };

    ghost faults = { sink_faults };

    fn write(&mut self, piece: &[u8]) -> Put
        requires { 0 < length piece.now }
        ensures writes { Writes (written_of self.old) (written_of self.new) (sink_faults self.old) (sink_faults self.new) piece.now result }
        ensures later { sink_faults self.old ≤ sink_faults self.new }

        // The exact answer, and the exact count.
        ensures put { result ≡ put_at (sink_manner self.old) (sink_calls self.new) (room_of self.old) (length piece.now) }
        ensures faults { sink_faults self.new ≡ faults_after_write (sink_faults self.old) result }
        ensures calls { sink_calls self.new ≡ next_count (sink_calls self.old) }
        ensures manner { sink_manner self.new ≡ sink_manner self.old }
        ensures room { room_of self.new ≡ room_of self.old - taken_by result }
    {
        self.calls = self.calls.saturating_add(1);
        let room = self.bytes.len() - self.len;
        if room == 0 || is_listed(&self.fails, self.calls) {
            self.faults = self.faults.saturating_add(1);
            return Put::Failed;
        }
        let count = room.min(self.piece).min(piece.len());
        self.bytes[self.len..self.len + count].copy_from_slice(&piece[..count]);
        self.len += count;
        Put::Took(count)
    }
}
