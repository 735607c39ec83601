// A step of a Delete_Min before its mark, W1 to W3, and of a Relaxed one (02, W3).
ghost use Rattle.std.specs.Prelude.{◌≡◌, cond};
ghost use Rattle.rules.specs.declared.answers.Answer.TheVariants as ans;
ghost use Rattle.rules.specs.declared.decisions.Effect.TheVariants as eff;
ghost use Rattle.rules.specs.Decide.{moved as moved_of, answers as answers_of};
ghost use Rattle.rules.specs.Decide.{walk_on, stamp_test, marking as marking_of, mark_test};
ghost use Rattle.rules.specs.Decide.{delete_step, relaxed_on, relaxed_step};

use crate::removal::removing;
use record::stages::at;
use record::{Delete, Job, Place, Relaxed, Removal, Stage};
use rules::moves::{answers, moved};
use rules::{Answer, Decision, Deed, Effect, ProcessorChange, StepView};

// W1 of any walk: on to the next node of level 1, with the stage `on`, or EMPTY at the end.
fn on_or_empty(s: StepView, on: Stage) -> Decision
    ensures { result
        ≡ cond s.next_is_tail (answers_of eff.Keep ans.Empty) (moved_of s eff.Keep on) }
{
    if s.next_is_tail {
        answers(Effect::Keep, Answer::Empty)
    } else {
        moved(s, Effect::Keep, on)
    }
}

// W1.
fn walk_on(s: StepView) -> Decision
    ensures { result ≡ walk_on s }
{
    on_or_empty(s, Stage::Delete(Delete::TestStamp(at(s.next, 1))))
}

// W2: a node whose stamp is older than the operation may be marked; any other is walked past.
fn stamp_test(s: StepView, a: Place) -> Decision
    ensures { result ≡ stamp_test s a }
{
    let on = if s.stamped {
        Delete::SetMark(a)
    } else {
        Delete::ReadNext(a)
    };
    moved(s, Effect::Keep, Stage::Delete(on))
}

// W3 where the mark was not set: the node is the operation's own from here on, and its removal, for
// this job, begins with the Search.
pub fn marking(s: StepView, job: Job, a: Place) -> Decision
    ensures { result ≡ marking_of job s a }
{
    Decision {
        effect: Effect::Mark(a.node),
        stage: removing(job, Removal::Search(at(0, s.level_count))),
        own: a.node,
        change: ProcessorChange::Keep,
        answer: Answer::Did(Deed::Marked, s.place_entry),
    }
}

// W3: a node that is marked already is walked past, to the stage `past`.
fn mark_test(s: StepView, a: Place, past: Stage) -> Decision
    ensures { result ≡ mark_test s a past }
{
    if s.marked {
        moved(s, Effect::Keep, past)
    } else {
        marking(s, Job::Deliver, a)
    }
}

pub fn delete_step(s: StepView, g: Delete) -> Decision
    ensures { result ≡ delete_step s g }
{
    match g {
        Delete::ReadNext(_) => walk_on(s),
        Delete::TestStamp(a) => stamp_test(s, a),
        Delete::SetMark(a) => mark_test(s, a, Stage::Delete(Delete::ReadNext(a))),
    }
}

// W1 of a Relaxed Delete_Min: straight on to the mark. The head has no mark: a walk that was led
// back there reads on from it.
fn relaxed_on(s: StepView) -> Decision
    ensures { result ≡ relaxed_on s }
{
    let b = at(s.next, 1);
    let on = if s.next == 0 {
        Relaxed::ReadNext(b)
    } else {
        Relaxed::SetMark(b)
    };
    on_or_empty(s, Stage::Relaxed(on))
}

pub fn relaxed_step(s: StepView, g: Relaxed) -> Decision
    ensures { result ≡ relaxed_step s g }
{
    match g {
        Relaxed::ReadNext(_) => relaxed_on(s),
        Relaxed::SetMark(a) => mark_test(s, a, Stage::Relaxed(Relaxed::ReadNext(a))),
    }
}
