// Input read into a buffer in as many reads as it takes.
#![tactic(auto)]

ghost use Rattle.std.specs.Prelude.{◌<◌, length, IfOk, OnErr};
ghost use Rattle.std.specs.Io.KnownBytes.{IsAtEnd};
ghost use Rattle.reading.specs.Filled.{Filled, FilledSome};

use std::io;
use std::io::Read;

// Reads until the buffer is full or the input ends, and says how many bytes it put at the buffer's start. Where a read fails, what was read before is there.
pub fn read_full<R: Read>(input: &mut R, buffer: &mut [u8]) -> io::Result<usize>
    ensures filled { IfOk result (λ size. Filled (R.remaining input.old) (R.remaining input.new) buffer.new size) }
    ensures end { IfOk result (λ size. size < length buffer.new → IsAtEnd (R.remaining input.new)) }
    ensures failed { OnErr result (FilledSome (R.remaining input.old) (R.remaining input.new) buffer.new) }
{
    let mut size = 0;
    while size < buffer.len() {
        let count = input.read(&mut buffer[size..])?;
        if count == 0 {
            return Ok(size);
        }
        size += count;
    }
    Ok(size)
}
