// The begins in place, on the image of a record that passes check 21; the image that they leave is
// one again.
ghost use Rattle.std.specs.Prelude.{◌≡◌, ◌+◌, ◌<◌, get_or};
ghost use Rattle.image.specs.Image.{Sound};
ghost use Rattle.image.specs.Layout.{processor_start};
ghost use Rattle.image.specs.Numbers.{number32};
ghost use Rattle.image.specs.Puts.{puts, four};
ghost use Rattle.image_begin.specs.Stores.{begun};
ghost use Rattle.image_parts.specs.Given.{Called};
ghost use Rattle.record.specs.Limits.{max_number};
ghost use Rattle.rules.specs.declared.answers.Answer.TheVariants as ans;
ghost use Rattle.rules.specs.declared.calls.Call.TheVariants as call;

use crate::choice::choose;
use crate::stores::{begin, fill};
use image::layout::{HEADER, NODE_BYTES, PROCESSOR_BYTES};
use image::numbers::{number_from, put_wanted, tick};
use image::{header, tag};
use image_parts::refused::refusal_at;
use record::Refusal;
use rules::{Answer, Call};

// An operation that takes no node begins at the head, on this level; `first` is its first stage's
// tag.
fn begin_walk(image: &mut [u8], processor: u32, first: u8, level: u8) -> Answer
    requires { Sound image.old × (processor < get_or image.old 0 0)
        × (number32 image.old 3 < max_number) }
    ensures value { result ≡ ans.Began (number32 image.old 3 + 1) }
    ensures image_after { image.new
        ≡ puts (puts image.old 0 (four 3 (number32 image.old 3 + 1)))
        (processor_start processor) (begun (number32 image.old 3 + 1) 0 first level) }
{
    let time = number_from(image, header::CLOCK) + 1;
    tick(image);
    begin(
        image,
        HEADER + PROCESSOR_BYTES * (processor as usize),
        time,
        0,
        first,
        level,
    );
    Answer::Began(time)
}

// The begin of a Delete_Min.
pub fn begin_delete_min_at(image: &mut [u8], processor: u32) -> Answer
    requires { Sound image.old }
    ensures { Called image.old (call.DeleteMin processor) image.new result }
{
    if let Some(refusal) = refusal_at(image, Call::DeleteMin(processor)) {
        return Answer::Refused(refusal.number());
    }
    begin_walk(image, processor, tag::READ_NEXT, 1)
}

// The begin of a Relaxed Delete_Min (02, W3).
pub fn begin_relaxed_at(image: &mut [u8], processor: u32) -> Answer
    requires { Sound image.old }
    ensures { Called image.old (call.Relaxed processor) image.new result }
{
    if let Some(refusal) = refusal_at(image, Call::Relaxed(processor)) {
        return Answer::Refused(refusal.number());
    }
    begin_walk(image, processor, tag::RELAXED_READ_NEXT, 1)
}

// The begin of a Remove (02, W5): its Search, with the key of the entry that it takes back.
pub fn begin_remove_at(image: &mut [u8], processor: u32, due: u32, ticket: u32) -> Answer
    requires { Sound image.old }
    ensures { Called image.old (call.Remove processor due ticket) image.new result }
{
    if let Some(refusal) = refusal_at(image, Call::Remove(processor, due, ticket)) {
        return Answer::Refused(refusal.number());
    }
    let l = image[header::LEVEL_COUNT];
    let began = begin_walk(image, processor, tag::REMOVE_SEARCH, l);
    let at = HEADER + PROCESSOR_BYTES * (processor as usize);
    put_wanted(image, at, due, ticket);
    began
}

// The begin of an Insert.
pub fn begin_insert_at(image: &mut [u8], processor: u32, due: u32, item: u32, height: u32) -> Answer
    requires { Sound image.old }
    ensures { Called image.old (call.Insert processor due item height)
        image.new result }
{
    if let Some(refusal) = refusal_at(image, Call::Insert(processor, due, item, height)) {
        return Answer::Refused(refusal.number());
    }
    let base = HEADER + PROCESSOR_BYTES * (image[header::PROCESSOR_COUNT] as usize);
    let Some(x) = choose(image, base) else {
        return Answer::Refused(Refusal::NoNode.number());
    };
    let l = image[header::LEVEL_COUNT];
    let tail = image[header::NODE_COUNT] + 1;
    let h = (processor as u8) + 1;
    let t = number_from(image, header::CLOCK) + 1;
    tick(image);
    fill(
        image,
        base + NODE_BYTES * (x as usize),
        l as usize,
        tail,
        h,
        t,
        due,
        item,
        height as u8,
    );
    begin(
        image,
        HEADER + PROCESSOR_BYTES * (processor as usize),
        t,
        x,
        tag::INSERT_SEARCH,
        l,
    );
    Answer::Began(t)
}
