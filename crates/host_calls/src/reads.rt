// What changes no byte: Backlog, and a due minute from seconds.
ghost use Rattle.std.specs.Prelude.{◌≡◌};
ghost use Rattle.record_check.specs.Backlog.{reported_count};
ghost use Rattle.due.specs.Due.{due_from_seconds, reported_minutes};
ghost use Rattle.rules.specs.Answers.{plain_report};
ghost use Rattle.host_calls.specs.Entries.{count_on};

use crate::replies::reply;
use due::due_from_seconds;
use image_check::{passes, pending};
use record::Refusal;
use rules::PlainAnswer;

// Backlog: 0 and how many entries are answered and not marked, or 21.
#[unsafe(no_mangle)]
pub extern "C" fn darthog_backlog(image: &[u8]) -> PlainAnswer
    ensures { result ≡ plain_report (reported_count (count_on image.now)) }
{
    if !passes(image) {
        return reply(Err(Refusal::Invalid));
    }
    reply(Ok(pending(image) as u32))
}

// A due minute from seconds: 0 and the minute, or 35.
#[unsafe(no_mangle)]
pub extern "C" fn darthog_due(seconds: u64) -> PlainAnswer
    ensures { result ≡ plain_report (reported_minutes (due_from_seconds seconds)) }
{
    reply(due_from_seconds(seconds))
}
