// The four forms that a step's decision has.
ghost use Rattle.std.specs.Prelude.{◌≡◌};
ghost use Rattle.rules.specs.Decide.{moved as moved_of, waits as waits_of, saving as saving_of};
ghost use Rattle.rules.specs.Decide.{answers as answers_of};

use crate::answers::Answer;
use crate::decisions::{Decision, Effect, ProcessorChange, StepView};
use record::{Place, Stage};

// On to another stage, with an effect on one node.
pub fn moved(s: StepView, effect: Effect, stage: Stage) -> Decision
    ensures { result ≡ moved_of s effect stage }
{
    Decision {
        effect,
        stage,
        own: s.own,
        change: ProcessorChange::Keep,
        answer: Answer::Moved,
    }
}

// At the same stage still, for a lock that processor h holds.
pub fn waits(s: StepView, stage: Stage, h: u8) -> Decision
    ensures { result ≡ waits_of s stage h }
{
    Decision {
        effect: Effect::Keep,
        stage,
        own: s.own,
        change: ProcessorChange::Keep,
        answer: Answer::Waits(h),
    }
}

// On to another stage, a saved for its level.
pub fn saving(s: StepView, a: Place, stage: Stage) -> Decision
    ensures { result ≡ saving_of s a stage }
{
    Decision {
        effect: Effect::Keep,
        stage,
        own: s.own,
        change: ProcessorChange::Save(a),
        answer: Answer::Moved,
    }
}

// An answer, which leaves the processor idle.
pub fn answers(effect: Effect, answer: Answer) -> Decision
    ensures { result ≡ answers_of effect answer }
{
    Decision {
        effect,
        stage: Stage::Idle,
        own: 0,
        change: ProcessorChange::Clear,
        answer,
    }
}
