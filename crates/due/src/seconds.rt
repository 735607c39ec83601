// A due minute from a count of seconds.
ghost use Rattle.std.specs.Prelude.{◌≡◌, ◌+◌, ◌<◌};
ghost use Rattle.due.specs.Due.{Nearest, nearest_minute, due_from_seconds, Meant};
ghost use Rattle.due.specs.Due.{reported_minutes};

use record::Refusal;

// A count of seconds that becomes a due minute is at most this (02, W8): `max_seconds` of
// specs/Due.antt.
const SECONDS: u64 = 59999969;

// The minute nearest to a count of seconds. What is left over goes to the minute below if it is
// less than half a minute, and exactly half a minute does if that minute is even.
fn nearest_minute(seconds: u64) -> u64
    ensures value { result ≡ nearest_minute seconds }
    ensures nearest { Nearest seconds result }
{
    let below = seconds / 60;
    if seconds % 60 + below % 2 <= 30 {
        below
    } else {
        below + 1
    }
}

// The minute nearest to a count of seconds, half a minute to the even one; 35 above 59,999,969
// seconds.
pub fn due_from_seconds(seconds: u64) -> Result<u32, Refusal>
    ensures value { result ≡ due_from_seconds seconds }
    ensures nearest { Meant seconds result }
    ensures numbers { reported_minutes result ≡ reported_minutes (due_from_seconds seconds) }
{
    if SECONDS < seconds {
        return Err(Refusal::TooLarge);
    }
    Ok(nearest_minute(seconds) as u32)
}
