// What an entry gives back, in plain numbers: a code, and its values or 0.
ghost use Rattle.std.specs.Prelude.{◌≡◌};
ghost use Rattle.record_check.specs.Backlog.{reported_count};
ghost use Rattle.rules.specs.Answers.{plain_report};

use record::Refusal;
use rules::PlainAnswer;

// 0 and a value, or a refusal's number.
pub(crate) fn reply(r: Result<u32, Refusal>) -> PlainAnswer
    ensures { result ≡ plain_report (reported_count r) }
{
    match r {
        Ok(value) => PlainAnswer {
            code: 0,
            first: value,
            second: 0,
            third: 0,
        },
        Err(refusal) => PlainAnswer {
            code: refusal.number() as u32,
            first: 0,
            second: 0,
            third: 0,
        },
    }
}
