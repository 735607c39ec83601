// A step in place: the stage's tag tells which function makes it.
ghost use Rattle.std.specs.Prelude.{◌≡◌, ◌+◌, ◌*◌, ◌≤◌, ◌<◌, get_or};
ghost use Rattle.image.specs.Image.{start_of, Sound};
ghost use Rattle.image.specs.Numbers.{number32};
ghost use Rattle.image_parts.specs.Given.{Called, Stepped};
ghost use Rattle.rules.specs.declared.calls.Call.TheVariants as call;
ghost use Rattle.image.specs.Layout.{tag_in};
ghost use Rattle.record.specs.Limits.{max_number};

use image::layout::{HEADER, PROCESSOR_BYTES};
use image::{header, processor, tag};
use image_delete::walk::{read_next, set_mark, test_stamp};
use image_insert::inserts::{copy, free_level as insert_free_level, link, stamp};
use image_parts::refused::refusal_at;
use image_removal::removals::{
    free_level, free_own, hold_node, hold_own, lead_back, retire, unlink,
};
use image_remove::finds::{
    read_next as remove_read_next, search as remove_search, set_mark as remove_set_mark,
    test_stamp as remove_test_stamp,
};
use image_walks::walks::{approach, confirm, free_node, release, search, take};
use rules::{Answer, Call};

// The tags behind those of `image::tag`: G2 to G4, I1 and L2.
const INSERT_TAKE: u8 = tag::INSERT_SEEK + 1;

const INSERT_CONFIRM: u8 = tag::INSERT_SEEK + 2;

const INSERT_RELEASE: u8 = tag::INSERT_SEEK + 3;

const COPY: u8 = tag::INSERT_SEEK + 4;

const REMOVAL_TAKE: u8 = tag::REMOVAL_SEEK + 1;

const REMOVAL_CONFIRM: u8 = tag::REMOVAL_SEEK + 2;

const REMOVAL_RELEASE: u8 = tag::REMOVAL_SEEK + 3;

const HOLD_OWN: u8 = tag::REMOVAL_SEEK + 4;

// The step of the stage that processor p is in, by the stage's tag.
fn stage_step(image: &mut [u8], base: usize, p: usize) -> Answer
    requires { Sound image.old × (base ≡ start_of image.old) × (p < get_or image.old 0 0)
        × (number32 image.old 3 < max_number) × (1 ≤ tag_in image.old p) }
    ensures { Stepped image.old p image.new result }
{
    // the stage is a byte of the image (docs/IMAGE.md), and each arm a direct call
    match image[HEADER + PROCESSOR_BYTES * p + processor::TAG] {
        tag::INSERT_SEARCH => search(image, base, p, false),
        tag::INSERT_SEEK => approach(image, base, p, false),
        INSERT_TAKE => take(image, base, p, false),
        INSERT_CONFIRM => confirm(image, base, p, false),
        INSERT_RELEASE => release(image, base, p, false),
        COPY => copy(image, base, p),
        tag::LINK => link(image, base, p),
        tag::INSERT_FREE_LEVEL => insert_free_level(image, base, p),
        tag::INSERT_FREE_NODE => free_node(image, base, p, false),
        tag::STAMP => stamp(image, base, p),
        tag::READ_NEXT => read_next(image, base, p, false),
        tag::TEST_STAMP => test_stamp(image, base, p),
        tag::SET_MARK => set_mark(image, base, p, false),
        tag::REMOVAL_SEARCH => search(image, base, p, true),
        tag::HOLD_NODE => hold_node(image, base, p),
        tag::REMOVAL_SEEK => approach(image, base, p, true),
        REMOVAL_TAKE => take(image, base, p, true),
        REMOVAL_CONFIRM => confirm(image, base, p, true),
        REMOVAL_RELEASE => release(image, base, p, true),
        HOLD_OWN => hold_own(image, base, p),
        tag::UNLINK => unlink(image, base, p),
        tag::LEAD_BACK => lead_back(image, base, p),
        tag::FREE_OWN => free_own(image, base, p),
        tag::REMOVAL_FREE_LEVEL => free_level(image, base, p),
        tag::REMOVAL_FREE_NODE => free_node(image, base, p, true),
        tag::RETIRE => retire(image, base, p),
        tag::RELAXED_READ_NEXT => read_next(image, base, p, true),
        tag::RELAXED_SET_MARK => set_mark(image, base, p, true),
        tag::REMOVE_SEARCH => remove_search(image, base, p),
        tag::REMOVE_READ_NEXT => remove_read_next(image, base, p),
        tag::REMOVE_TEST_STAMP => remove_test_stamp(image, base, p),
        tag::REMOVE_SET_MARK => remove_set_mark(image, base, p),
        _ => Answer::Moved,
    }
}

// A step of a processor, on the image of a record that passes check 21; the image that it leaves is
// one again. The nodes start at `base`, which stays where it is while calls are made: a list reads
// it once.
pub fn step_from(image: &mut [u8], base: usize, processor: u32) -> Answer
    requires { Sound image.old × (base ≡ start_of image.old) }
    ensures { Called image.old (call.Step processor) image.new result }
{
    match refusal_at(image, Call::Step(processor)) {
        Some(refusal) => Answer::Refused(refusal.number()),
        None => stage_step(image, base, processor as usize),
    }
}

// The same by itself.
pub fn step_at(image: &mut [u8], processor: u32) -> Answer
    requires { Sound image.old }
    ensures { Called image.old (call.Step processor) image.new result }
{
    let base = HEADER + PROCESSOR_BYTES * (image[header::PROCESSOR_COUNT] as usize);
    step_from(image, base, processor)
}
