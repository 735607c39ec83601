// A Remove before its mark (02, W5), in place: each stage reads what it reads, and stores what it
// changes. The key of the entry that it takes back stands in the processor's bytes.
ghost use Rattle.std.specs.Prelude.{◌≡◌, ◌++◌, ◌+◌, ◌≤◌, ◌<◌, length, get_or};
ghost use Rattle.record.specs.declared.stages.Remove.TheVariants as rmv;
ghost use Rattle.record.specs.Limits.{max_levels, max_number};
ghost use Rattle.record.specs.Stages.{wanted_of};
ghost use Rattle.rules.specs.declared.answers.Answer.TheVariants as ans;
ghost use Rattle.image.specs.Layout.{max_image_length, processor_bytes, processor_start};
ghost use Rattle.image.specs.Layout.{wanted_due_in, wanted_ticket_in};
ghost use Rattle.image.specs.Numbers.{number32};
ghost use Rattle.image.specs.Puts.{puts, four, clears, rests, wants};
ghost use Rattle.image.specs.Tags.{anywhere, remove_tag};
ghost use Rattle.image_parts.specs.Given.{Stepped};
ghost use Rattle.image_parts.specs.Ready.{Seeking};

use image::layout::{HEADER, NODE_BYTES, PROCESSOR_BYTES};
use image::numbers::{clear, number_from, put_wanted, tick};
use image::{header, node, processor, tag};
use image_parts::keys::{before_key, has_key};
use image_parts::reads::{entry_at, stamped_before, wanted_at};
use rules::{Answer, Deed};

// What processor p wants is not there: it is idle again, and the answer tells the key.
fn not_there(image: &mut [u8], p: usize) -> Answer
    requires { (processor_start p + processor_bytes ≤ length image.old)
        × (length image.old ≤ max_image_length) × (number32 image.old 3 < max_number)
        × (get_or image.old 2 0 ≤ max_levels) }
    ensures value { result ≡ ans.NotThere
        (wanted_of (wanted_due_in image.old p) (wanted_ticket_in image.old p)) }
    ensures image_after { image.new
        ≡ puts (puts image.old 0 (four 3 (number32 image.old 3 + 1)))
        (processor_start p) ((clears (get_or image.old 2 0) ++ rests) ++ wants 0 0) }
{
    let start = HEADER + PROCESSOR_BYTES * p;
    let l = image[header::LEVEL_COUNT] as usize;
    let wanted = wanted_at(image, start);
    tick(image);
    clear(image, start, l);
    put_wanted(image, start, 0, 0);
    Answer::NotThere(wanted)
}

// Search, by the key that is carried; those of image_walks have an own node with a key.
pub fn search(image: &mut [u8], base: usize, p: usize) -> Answer
    requires { Seeking image.old base p (remove_tag (rmv.Search anywhere)) }
    ensures { Stepped image.old p image.new result }
{
    let at = HEADER + PROCESSOR_BYTES * p;
    let a = image[at + processor::PLACE];
    let i = image[at + processor::LEVEL];
    let k = (i as usize) - 1;
    let x = image[base + NODE_BYTES * (a as usize) + k];
    let wanted = wanted_at(image, at);
    let ahead = before_key(image, base, x, wanted);
    tick(image);
    if ahead {
        image[at + processor::PLACE] = x;
        return Answer::Moved;
    }
    image[at + (processor::SAVED + k)] = a;
    if 1 < i {
        image[at + processor::LEVEL] = i - 1;
        return Answer::Moved;
    }
    image[at + processor::TAG] = tag::REMOVE_READ_NEXT;
    Answer::Moved
}

// On along level 1, to the node with the key.
pub fn read_next(image: &mut [u8], base: usize, p: usize) -> Answer
    requires { Seeking image.old base p (remove_tag (rmv.ReadNext anywhere)) }
    ensures { Stepped image.old p image.new result }
{
    let at = HEADER + PROCESSOR_BYTES * p;
    let a = image[at + processor::PLACE];
    let x = image[base + NODE_BYTES * (a as usize) + node::FORWARD];
    let wanted = wanted_at(image, at);
    if before_key(image, base, x, wanted) {
        tick(image);
        image[at + processor::PLACE] = x;
        image[at + processor::LEVEL] = 1;
        return Answer::Moved;
    }
    if has_key(image, base, x, wanted) {
        tick(image);
        image[at + processor::TAG] = tag::REMOVE_TEST_STAMP;
        image[at + processor::PLACE] = x;
        image[at + processor::LEVEL] = 1;
        return Answer::Moved;
    }
    not_there(image, p)
}

// As at W2: an entry that was not answered before this Remove began is not there for it.
pub fn test_stamp(image: &mut [u8], base: usize, p: usize) -> Answer
    requires { Seeking image.old base p (remove_tag (rmv.TestStamp anywhere)) }
    ensures { Stepped image.old p image.new result }
{
    let at = HEADER + PROCESSOR_BYTES * p;
    let a = image[at + processor::PLACE];
    let here = base + NODE_BYTES * (a as usize);
    let begin = number_from(image, at + processor::BEGIN);
    if !stamped_before(image, here, begin) {
        return not_there(image, p);
    }
    tick(image);
    image[at + processor::TAG] = tag::REMOVE_SET_MARK;
    Answer::Moved
}

// As at W3: an entry that is marked is not there; any other is this Remove's from here on, which
// has a job in the place of the key.
pub fn set_mark(image: &mut [u8], base: usize, p: usize) -> Answer
    requires { Seeking image.old base p (remove_tag (rmv.SetMark anywhere)) }
    ensures { Stepped image.old p image.new result }
{
    let at = HEADER + PROCESSOR_BYTES * p;
    let a = image[at + processor::PLACE];
    let l = image[header::LEVEL_COUNT];
    let here = base + NODE_BYTES * (a as usize);
    let m = image[here + node::MARK];
    if m != node::UNMARKED {
        return not_there(image, p);
    }
    let entry = entry_at(image, here);
    tick(image);
    image[here + node::MARK] = p as u8 + 1;
    image[at + processor::OWN] = a;
    image[at + processor::TAG] = tag::REMOVAL_SEARCH;
    image[at + processor::PLACE] = 0;
    image[at + processor::LEVEL] = l;
    image[at + processor::JOB] = processor::TAKE_BACK;
    put_wanted(image, at, 0, 0);
    Answer::Did(Deed::Marked, entry)
}
