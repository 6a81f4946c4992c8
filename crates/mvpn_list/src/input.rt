// The run, as octets that a reader gives.
ghost use Rattle.std.specs.Prelude.{ℕ, ◌<◌, length, take, IfOk, OnErr};
ghost use Rattle.io.specs.Counts.{IsPrefixLen};
ghost use Rattle.std.specs.Io.{ReadsAtMost};
ghost use Rattle.std.specs.Io.KnownBytes.{Consumes, IsAtEnd};

use std::io::{self, Read};

// Reads until `run` is full or the input ends, and answers how many octets came. A read that fails is not tried again; what came before it stands at
// the front of `run` all the same.
pub(crate) fn read<R: Read>(from: &mut R, run: &mut [u8]) -> io::Result<usize>
    ensures size { ReadsAtMost result run.new }
    ensures octets { IfOk result (λ size. Consumes (R.remaining from.old) (R.remaining from.new) (take size run.new)) }
    ensures failed { OnErr result ((size : ℕ) × IsPrefixLen size run.new × Consumes (R.remaining from.old) (R.remaining from.new) (take size run.new)) }
    ensures end { IfOk result (λ size. size < length run.new → IsAtEnd (R.remaining from.new)) }
{
    let mut size = 0;
    while size < run.len() {
        let count = from.read(&mut run[size..])?;
        if count == 0 {
            return Ok(size);
        }
        size += count;
    }
    Ok(size)
}
