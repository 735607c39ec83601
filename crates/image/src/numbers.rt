// Numbers of four bytes, and the clock.
ghost use Rattle.std.specs.Prelude.{◌≡◌, ◌++◌, ◌+◌, ◌≤◌, ◌<◌, length};
ghost use Rattle.image.specs.Numbers.{number32};
ghost use Rattle.image.specs.Puts.{puts, four, clears, rests, wants};
ghost use Rattle.image.specs.Layout.{header_bytes, max_image_length, processor_bytes};
ghost use Rattle.record.specs.Limits.{max_levels, max_number};

use crate::{header, processor};

pub fn number_from(b: &[u8], at: usize) -> u32
    requires { at + 4 ≤ length b.now }
    ensures { result ≡ number32 b.now at }
{
    u32::from_le_bytes([b[at], b[at + 1], b[at + 2], b[at + 3]])
}

// The clock ticks.
pub fn tick(b: &mut [u8])
    requires { (header_bytes ≤ length b.old) × (number32 b.old 3 < max_number) }
    ensures { b.new ≡ puts b.old 0 (four 3 (number32 b.old 3 + 1)) }
{
    let t = number_from(b, header::CLOCK) + 1;
    put_number(b, 0, header::CLOCK, t);
}

// A number of four bytes, at a place after a start.
pub fn put_number(b: &mut [u8], o: usize, j: usize, v: u32)
    requires { o + (j + 3) < length b.old }
    ensures { b.new ≡ puts b.old o (four j v) }
{
    let at = o + j;
    b[at..at + 4].copy_from_slice(&v.to_le_bytes());
}

// The key that a Remove carries, in the bytes of the processor at o; 0 and 0 where it ends.
pub fn put_wanted(b: &mut [u8], o: usize, due: u32, ticket: u32)
    requires { (o + processor_bytes ≤ length b.old) × (length b.old ≤ max_image_length) }
    ensures { b.new ≡ puts b.old o (wants due ticket) }
{
    put_number(b, o, processor::WANTED_DUE, due);
    put_number(b, o, processor::WANTED_TICKET, ticket);
}

// An idle processor's bytes, up to the saved nodes of l levels; those of the levels past l stay.
pub fn clear(b: &mut [u8], o: usize, l: usize)
    requires { (o + processor_bytes ≤ length b.old) × (length b.old ≤ max_image_length)
        × (l ≤ max_levels) }
    ensures { b.new ≡ puts b.old o (clears l ++ rests) }
{
    b[o..o + processor::SAVED + l].fill(0);
}
