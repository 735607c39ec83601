// A list of calls, lent as plain numbers, in place on the bytes of a record that passes check 21;
// the answers are written as plain numbers. specs/Plain.antt has the numbers.
ghost use Rattle.std.specs.Prelude.{◌≡◌, ◌+◌, ◌*◌, ◌/◌, ◌≤◌, ◌<◌, length};
ghost use Rattle.image.specs.Image.{image_of, queue_in, start_of, Sound};
ghost use Rattle.image_parts.specs.Given.{Called};
ghost use Rattle.rules.specs.Answers.{plain_of};
ghost use Rattle.image_list.specs.Plain.{call_from, put as put_of};
ghost use Rattle.image_list.specs.Plain.{record_to, written_to, turns};

use image::header;
use image::layout::{HEADER, PROCESSOR_BYTES};
use image::numbers::number_from;
use image_begin::{begin_delete_min_at, begin_insert_at, begin_relaxed_at, begin_remove_at};
use image_step::step_from;
use rules::answers::plain;
use rules::{Answer, PlainAnswer};

// The call whose five numbers begin at this place of the list: kind 1 begins an Insert, 2 a
// Delete_Min, 4 a Relaxed one, 5 a Remove; 3 and every other is a step. No `Call` is made of them:
// to store one and read it takes as long as a step. The kinds above 3 are apart, so that a step is
// found by three comparisons: four in a row are compiled into a jump by a table, which is slower.
fn turn(image: &mut [u8], base: usize, calls: &[u32], i: usize) -> Answer
    requires { Sound image.old × (base ≡ start_of image.old)
        × (i + 5 ≤ length calls.now) }
    ensures { Called image.old (call_from calls.now i) image.new result }
{
    let kind = calls[i];
    let p = calls[i + 1];
    if kind == 1 {
        return begin_insert_at(image, p, calls[i + 2], calls[i + 3], calls[i + 4]);
    }
    if kind == 2 {
        return begin_delete_min_at(image, p);
    }
    if 3 < kind {
        if kind == 4 {
            return begin_relaxed_at(image, p);
        }
        if kind == 5 {
            return begin_remove_at(image, p, calls[i + 2], calls[i + 3]);
        }
    }
    step_from(image, base, p)
}

// One by one, since every call of a list comes here.
fn put(answers: &mut [u32], i: usize, r: PlainAnswer, clock: u32)
    requires { i + 5 ≤ length answers.old }
    ensures { answers.new ≡ put_of answers.old i r clock }
{
    answers[i] = r.code;
    answers[i + 1] = r.first;
    answers[i + 2] = r.second;
    answers[i + 3] = r.third;
    answers[i + 4] = clock;
}

// The numbers of an answer. Most answers are that the processor moved: such a one is told apart
// first, and nothing of what the others hold is read.
fn put_answer(answers: &mut [u32], i: usize, a: Answer, clock: u32)
    requires { i + 5 ≤ length answers.old }
    ensures { answers.new ≡ put_of answers.old i (plain_of a) clock }
{
    match a {
        Answer::Moved => put(answers, i, plain(Answer::Moved), clock),
        _ => put(answers, i, plain(a), clock),
    }
}

// Every call of the list that both lists have five numbers for, one after the other.
pub fn run_calls(image: &mut [u8], calls: &[u32], answers: &mut [u32])
    requires { Sound image.old }
    ensures image_after { image.new
        ≡ image_of
        (record_to (queue_in image.old) calls.now
        (turns calls.now answers.old)) }
    ensures answers_after { answers.new
        ≡ written_to (queue_in image.old) calls.now answers.old
        (turns calls.now answers.old) }
{
    let end = (calls.len() / 5).min(answers.len() / 5);
    let base = HEADER + PROCESSOR_BYTES * (image[header::PROCESSOR_COUNT] as usize);
    for i in 0..end {
        let from = i * 5;
        let r = turn(image, base, calls, from);
        put_answer(answers, from, r, number_from(image, header::CLOCK));
    }
}
