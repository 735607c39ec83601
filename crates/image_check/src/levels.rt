// Tests on numbers, and of the numbers of a piece's levels.
ghost use Rattle.std.specs.Prelude.{◌≡◌, ◌&&◌, ◌||◌, ℕ, ◌+◌, ◌≤◌, leb, length};
ghost use Rattle.laws.specs.Every.{every_below};
ghost use Rattle.record_check.specs.Check.{within, stamp_valid, use_valid};
ghost use Rattle.image.specs.Tags.{timed, stamp_of, stamp_taken, use_of, use_taken};
ghost use Rattle.image.specs.Puts.{piece};
ghost use Rattle.image.specs.Layout.{max_image_length};
ghost use Rattle.record.specs.Limits.{max_levels};

use image::node;

// A number of slot k is at most top, or the slot is past l.
fn slot_low(k: usize, l: usize, x: u8, top: u8) -> bool
    ensures { result ≡ (leb l k || leb x top) }
{
    l <= k || x <= top
}

// The first l of the eight numbers at o + j are at most top. All eight are read, which takes no
// longer than one.
pub(crate) fn levels_low(b: &[u8], o: usize, j: usize, l: usize, top: u8) -> bool
    requires { (o + (j + 8) ≤ length b.now) × (length b.now ≤ max_image_length)
        × (l ≤ max_levels) }
    ensures { result ≡ every_below (λ (k : ℕ). leb (piece b.now o (j + k)) top) l }
{
    let mut ok = true;
    for k in 0..8 {
        ok &= slot_low(k, l, b[o + (j + k)], top);
    }
    ok
}

pub(crate) fn is_within(x: usize, top: usize) -> bool
    ensures { result ≡ within x top }
{
    1 <= x && x <= top
}

pub(crate) fn stamp_passes(tag: u8, time: u32, entry: bool, clock: u32) -> bool
    ensures { result ≡ (stamp_taken (timed tag time) && stamp_valid (stamp_of (timed tag time)) entry clock) }
{
    if tag == node::STAMPED {
        entry && time <= clock
    } else {
        tag == 0 && time == 0
    }
}

pub(crate) fn use_passes(tag: u8, time: u32, clock: u32) -> bool
    ensures { result ≡ (use_taken (timed tag time) && use_valid (use_of (timed tag time)) clock) }
{
    if tag == node::RETIRED {
        time <= clock
    } else {
        tag <= node::IN_USE && time == 0
    }
}
