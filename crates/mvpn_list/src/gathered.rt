// An output in lent memory, which gathers what is written to it. Standard output has no buffer, and std's `BufWriter` needs the heap.
ghost use Rattle.std.specs.Prelude.{◌≡◌, Some, []};

use std::io::{self, Write};
use std::marker::Model;

// What was written, as the list of its octets. What no longer fits into the room is not taken.
#[derive(Drop)]
pub(crate) struct Gathered<'a> {
    room: &'a mut [u8],
    size: usize,
}

impl<'a> Model for Gathered<'a> {
    ghost use Rattle.std.specs.Prelude.{ℕ, ◌≤◌, List, length, take};

    ghost Value = { List ℕ };

    ghost view = { λ gathered. take gathered.size gathered.room.now };

    ghost invariant = { λ gathered. gathered.size ≤ length gathered.room.now };
}

impl Gathered<'_> {
    // Nothing is written yet.
    pub(crate) fn new(room: &mut [u8]) -> Gathered<'_>
        ensures { result ≡ [] }
    {
        Gathered { room, size: 0 }
    }

    pub(crate) fn octets(&self) -> &[u8]
        ensures { result.now ≡ self.now }
    {
        &self.room[..self.size]
    }
}

impl Write for Gathered<'_> {
    ghost contents = { λ gathered. Some gathered };

    fn write(&mut self, octets: &[u8]) -> io::Result<usize> {
        let count = octets.len().min(self.room.len() - self.size);
        self.room[self.size..self.size + count].copy_from_slice(&octets[..count]);
        self.size += count;
        Ok(count)
    }

    fn flush(&mut self) -> io::Result<()> {
        Ok(())
    }
}
