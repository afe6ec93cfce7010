//! Reads that go on where a signal interrupts them or where only a part has come.
ghost use Rattle.std.specs.Prelude.{◌≡◌, ◌<◌, ◌≤◌, IfOk, IfSome, length, take};
ghost use Rattle.std.specs.Io.KnownBytes.{Consumes, IsAtEnd};

use host_calls::{Bytes, InputFault};
use std::alloc::Global;
use std::io;
use std::io::{ErrorKind, Read};

// How many bytes are read at a time.
const CHUNK: usize = 4096;

/// Fills the buffer, and tells how much of it is filled: less only where the reader ends.
pub fn fill_buffer<R: Read>(reader: &mut R, buffer: &mut [u8]) -> io::Result<usize>
    ensures few { IfOk result (λ filled. filled ≤ length buffer.new) }
    ensures bytes { IfOk result (λ filled.
        Consumes (R.remaining reader.old) (R.remaining reader.new) (take filled buffer.new)) }
    ensures end { IfOk result (λ filled. filled < length buffer.new → IsAtEnd (R.remaining reader.new)) }
{
    let mut filled = 0;
    for _ in 0..u64::MAX {
        if filled >= buffer.len() {
            return Ok(filled);
        }
        match reader.read(&mut buffer[filled..]) {
            Ok(0) => return Ok(filled),
            Ok(count) => filled += count,
            Err(error) if error.kind() == ErrorKind::Interrupted => {}
            Err(error) => return Err(error),
        }
    }
    Err(io::Error::from(ErrorKind::Interrupted))
}

/// The first bytes that a reader gives: all of them, or `most`.
pub fn read_prefix<R: Read>(alloc: Global, reader: &mut R, most: usize) -> Result<Bytes, InputFault>
    ensures few { IfOk result (λ bytes. length bytes ≤ most) }
    ensures taken { IfOk result (Consumes (R.remaining reader.old) (R.remaining reader.new)) }
    ensures prefix { IfOk result (λ bytes. IfSome (R.remaining reader.old) (λ all. bytes ≡ take most all)) }
{
    let mut bytes = Vec::new(alloc);
    let mut chunk = [0; CHUNK];
    for _ in 0..u64::MAX {
        let want = CHUNK.min(most - bytes.len());
        let Ok(count) = fill_buffer(reader, &mut chunk[..want]) else {
            return Err(InputFault::Failed);
        };
        bytes.extend_from_slice(&chunk[..count])?;
        if count < CHUNK {
            return Ok(Bytes::from(bytes));
        }
    }
    Err(InputFault::Failed)
}
