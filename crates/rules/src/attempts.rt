// Attempts to take a lock.
ghost use Rattle.std.specs.Prelude.{◌≡◌};
ghost use Rattle.rules.specs.Decide.{attempt as attempt_of};

// Who holds a lock that has this number in the record: an attempt takes it only where nobody does
// (02, W1).
pub fn attempt(lock: u8) -> Option<u8>
    ensures { result ≡ attempt_of lock }
{
    lock.checked_sub(1)
}
