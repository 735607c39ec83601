// What a call asks of the record before it is decided.
ghost use Rattle.std.specs.Prelude.{◌≡◌, true, ◌&&◌, ◌≤◌, ltb};
ghost use Rattle.record_check.specs.Check.{valid as valid_of};
ghost use Rattle.record.specs.Limits.{max_processors};
ghost use Rattle.rules.specs.Calls.{idle_at, taken as taken_of};
ghost use Rattle.queue_begin.specs.Found.{found};

use queue_begin::choice::choose;
use record::Queue;
use record::stages::is_idle;
use rules::Call;

// Whether processor p is idle; false where there is no such processor.
pub fn idle_at(q: Queue, p: u32) -> bool
    requires { q.processor_count ≤ max_processors }
    ensures { result ≡ (ltb p q.processor_count && idle_at q p) }
{
    p < q.processor_count as u32 && is_idle(q.processors[p as usize].stage)
}

// The node that an Insert takes: the nodes are looked at for an Insert alone.
pub fn taken(q: Queue, c: Call) -> Option<u8>
    requires { valid_of q ≡ true }
    ensures { result ≡ found (taken_of q c) }
{
    match c {
        Call::Insert(_, _, _, _) => choose(q),
        _ => None,
    }
}
