// Any call in place, on the image of a record that passes check 21; the image that it leaves is one
// again.
#![tactic(auto)]

ghost use Rattle.image.specs.Image.{Sound};
ghost use Rattle.image_parts.specs.Given.{Called};

use image_begin::{begin_delete_min_at, begin_insert_at, begin_relaxed_at, begin_remove_at};
use image_step::step_at;
use rules::{Answer, Call};

pub fn call_at(image: &mut [u8], c: Call) -> Answer
    requires { Sound image.old }
    ensures { Called image.old c image.new result }
{
    match c {
        Call::Insert(p, due, item, height) => begin_insert_at(image, p, due, item, height),
        Call::DeleteMin(p) => begin_delete_min_at(image, p),
        Call::Relaxed(p) => begin_relaxed_at(image, p),
        Call::Remove(p, due, ticket) => begin_remove_at(image, p, due, ticket),
        Call::Step(p) => step_at(image, p),
    }
}
