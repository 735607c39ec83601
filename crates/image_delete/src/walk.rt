// The walk of a Delete_Min and of a Relaxed one (02, W3), in place: each stage reads what it reads,
// and stores what it changes. `relaxed` tells whose walk it is.
ghost use Rattle.std.specs.Prelude.{◌≡◌, cond, eqb};
ghost use Rattle.record.specs.declared.stages.Delete.TheVariants as del;
ghost use Rattle.record.specs.declared.stages.Relaxed.TheVariants as rlx;
ghost use Rattle.image.specs.Tags.{anywhere, delete_tag, relaxed_tag};
ghost use Rattle.image_parts.specs.Given.{Stepped};
ghost use Rattle.image_parts.specs.Ready.{Walked};

use image::layout::{HEADER, NODE_BYTES, PROCESSOR_BYTES};
use image::numbers::{clear, number_from, tick};
use image::{header, node, processor, tag};
use image_parts::reads::{entry_at, stamped_before};
use rules::{Answer, Deed};

// The tag of W1.
fn read_tag(relaxed: bool) -> u8
    ensures { result ≡ cond relaxed (relaxed_tag (rlx.ReadNext anywhere))
        (delete_tag (del.ReadNext anywhere)) }
{
    if relaxed {
        tag::RELAXED_READ_NEXT
    } else {
        tag::READ_NEXT
    }
}

// The tag of the stage that W1 goes on to at node x: W2; or W3, for a Relaxed walk tests no stamp,
// but on the head, which has no mark, W1 again.
fn next_tag(relaxed: bool, x: u8) -> u8
    ensures { result ≡ cond relaxed
        (cond (eqb x 0) (relaxed_tag (rlx.ReadNext anywhere)) (relaxed_tag (rlx.SetMark anywhere)))
        (delete_tag (del.TestStamp anywhere)) }
{
    if !relaxed {
        tag::TEST_STAMP
    } else if x == 0 {
        tag::RELAXED_READ_NEXT
    } else {
        tag::RELAXED_SET_MARK
    }
}

// W1.
pub fn read_next(image: &mut [u8], base: usize, p: usize, relaxed: bool) -> Answer
    requires { Walked image.old base p
        (cond relaxed (relaxed_tag (rlx.ReadNext anywhere)) (delete_tag (del.ReadNext anywhere))) }
    ensures { Stepped image.old p image.new result }
{
    let at = HEADER + PROCESSOR_BYTES * p;
    let a = image[at + processor::PLACE];
    let n = image[header::NODE_COUNT];
    let l = image[header::LEVEL_COUNT] as usize;
    let x = image[base + NODE_BYTES * (a as usize) + node::FORWARD];
    tick(image);
    if x == n + 1 {
        clear(image, at, l);
        return Answer::Empty;
    }
    image[at + processor::TAG] = next_tag(relaxed, x);
    image[at + processor::PLACE] = x;
    image[at + processor::LEVEL] = 1;
    Answer::Moved
}

// W2.
pub fn test_stamp(image: &mut [u8], base: usize, p: usize) -> Answer
    requires { Walked image.old base p (delete_tag (del.TestStamp anywhere)) }
    ensures { Stepped image.old p image.new result }
{
    let at = HEADER + PROCESSOR_BYTES * p;
    let a = image[at + processor::PLACE];
    let here = base + NODE_BYTES * (a as usize);
    let begin = number_from(image, at + processor::BEGIN);
    let stamped = stamped_before(image, here, begin);
    tick(image);
    image[at + processor::TAG] = if stamped {
        tag::SET_MARK
    } else {
        tag::READ_NEXT
    };
    Answer::Moved
}

// W3.
pub fn set_mark(image: &mut [u8], base: usize, p: usize, relaxed: bool) -> Answer
    requires { Walked image.old base p
        (cond relaxed (relaxed_tag (rlx.SetMark anywhere)) (delete_tag (del.SetMark anywhere))) }
    ensures { Stepped image.old p image.new result }
{
    let at = HEADER + PROCESSOR_BYTES * p;
    let a = image[at + processor::PLACE];
    let l = image[header::LEVEL_COUNT];
    let here = base + NODE_BYTES * (a as usize);
    let m = image[here + node::MARK];
    if m != node::UNMARKED {
        tick(image);
        image[at + processor::TAG] = read_tag(relaxed);
        return Answer::Moved;
    }
    let entry = entry_at(image, here);
    tick(image);
    image[here + node::MARK] = p as u8 + 1;
    image[at + processor::OWN] = a;
    image[at + processor::TAG] = tag::REMOVAL_SEARCH;
    image[at + processor::PLACE] = 0;
    image[at + processor::LEVEL] = l;
    Answer::Did(Deed::Marked, entry)
}
