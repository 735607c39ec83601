// The step of any stage.
ghost use Rattle.std.specs.Prelude.{◌≡◌};
ghost use Rattle.rules.specs.Decide.{decide as decide_of};

use crate::insert::insert_step;
use crate::removal::removal_step;
use crate::remove::remove_step;
use crate::walk::{delete_step, relaxed_step};
use record::Stage;
use rules::moves::moved;
use rules::{Decision, Effect, StepView};

// An idle processor has no step, and the call is refused before this.
pub fn decide(s: StepView, g: Stage) -> Decision
    ensures { result ≡ decide_of s g }
{
    match g {
        Stage::Idle => moved(s, Effect::Keep, Stage::Idle),
        Stage::Insert(i) => insert_step(s, i),
        Stage::Delete(d) => delete_step(s, d),
        Stage::Relaxed(x) => relaxed_step(s, x),
        Stage::Remove(w, x) => remove_step(s, w, x),
        Stage::Removal(job, r) => removal_step(s, job, r),
    }
}
