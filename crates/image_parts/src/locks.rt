// Locks, on the bytes.
ghost use Rattle.std.specs.Prelude.{◌≡◌, ◌<◌, length, get_or};
ghost use Rattle.image_parts.specs.Locks.{after_attempt};
ghost use Rattle.record.specs.Limits.{max_processors};
ghost use Rattle.rules.specs.Decide.{attempt as attempt_of};

use rules::attempts::attempt;

// An attempt of processor p to take the lock whose byte is at `at`: a free one is p's then, and
// any other stays as it is.
pub fn try_lock(b: &mut [u8], at: usize, p: usize) -> Option<u8>
    requires { (at < length b.old) × (p < max_processors) }
    ensures { (result ≡ attempt_of (get_or b.old at 0))
        × (b.new ≡ after_attempt b.old at p result) }
{
    let holder = attempt(b[at]);
    if holder.is_none() {
        b[at] = p as u8 + 1;
    }
    holder
}
