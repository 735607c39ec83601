// The removal of a marked node, in place, but for its Search, its Lock-seek and L7, which an Insert
// has too (image_walks).
ghost use Rattle.std.specs.Prelude.{◌≡◌, cond, eqb};
ghost use Rattle.record.specs.declared.stages.Removal.TheVariants as rem;
ghost use Rattle.rules.specs.declared.answers.Deed.TheVariants as deed;
ghost use Rattle.image.specs.Tags.{anywhere, removal_tag};
ghost use Rattle.image_parts.specs.Given.{Stepped};
ghost use Rattle.image_parts.specs.Ready.{Placed, Owned};

use image::layout::{HEADER, NODE_BYTES, PROCESSOR_BYTES};
use image::numbers::{clear, number_from, put_number, tick};
use image::{header, node, processor, tag};
use image_parts::locks::try_lock;
use image_parts::reads::entry_at;
use rules::{Answer, Deed};

// L1.
pub fn hold_node(image: &mut [u8], base: usize, p: usize) -> Answer
    requires { Owned image.old base p (removal_tag rem.HoldNode) }
    ensures { Stepped image.old p image.new result }
{
    let at = HEADER + PROCESSOR_BYTES * p;
    let own = image[at + processor::OWN];
    let here = base + NODE_BYTES * (own as usize);
    let height = image[here + node::HEIGHT];
    let top = image[at + (processor::SAVED + ((height as usize) - 1))];
    tick(image);
    match try_lock(image, here + node::NODE_LOCK, p) {
        None => {
            image[at + processor::TAG] = tag::REMOVAL_SEEK;
            image[at + processor::PLACE] = top;
            image[at + processor::LEVEL] = height;
            Answer::Moved
        }
        Some(node_holder) => Answer::Waits(node_holder),
    }
}

// L2.
pub fn hold_own(image: &mut [u8], base: usize, p: usize) -> Answer
    requires { Placed image.old base p (removal_tag (rem.HoldOwn anywhere)) }
    ensures { Stepped image.old p image.new result }
{
    let at = HEADER + PROCESSOR_BYTES * p;
    let own = image[at + processor::OWN];
    let i = image[at + processor::LEVEL];
    let k = (i as usize) - 1;
    let lock = base + NODE_BYTES * (own as usize) + (node::LEVEL_LOCKS + k);
    tick(image);
    match try_lock(image, lock, p) {
        None => {
            image[at + processor::TAG] = tag::UNLINK;
            Answer::Moved
        }
        Some(level_holder) => Answer::Waits(level_holder),
    }
}

// L3.
pub fn unlink(image: &mut [u8], base: usize, p: usize) -> Answer
    requires { Placed image.old base p (removal_tag (rem.Unlink anywhere)) }
    ensures { Stepped image.old p image.new result }
{
    let at = HEADER + PROCESSOR_BYTES * p;
    let own = image[at + processor::OWN];
    let a = image[at + processor::PLACE];
    let i = image[at + processor::LEVEL];
    let k = (i as usize) - 1;
    let y = image[base + NODE_BYTES * (own as usize) + k];
    tick(image);
    image[base + NODE_BYTES * (a as usize) + k] = y;
    image[at + processor::TAG] = tag::LEAD_BACK;
    Answer::Moved
}

// L4.
pub fn lead_back(image: &mut [u8], base: usize, p: usize) -> Answer
    requires { Placed image.old base p (removal_tag (rem.LeadBack anywhere)) }
    ensures { Stepped image.old p image.new result }
{
    let at = HEADER + PROCESSOR_BYTES * p;
    let own = image[at + processor::OWN];
    let a = image[at + processor::PLACE];
    let i = image[at + processor::LEVEL];
    let k = (i as usize) - 1;
    tick(image);
    image[base + NODE_BYTES * (own as usize) + k] = a;
    image[at + processor::TAG] = tag::FREE_OWN;
    Answer::Moved
}

// L5.
pub fn free_own(image: &mut [u8], base: usize, p: usize) -> Answer
    requires { Placed image.old base p (removal_tag (rem.FreeOwn anywhere)) }
    ensures { Stepped image.old p image.new result }
{
    let at = HEADER + PROCESSOR_BYTES * p;
    let own = image[at + processor::OWN];
    let i = image[at + processor::LEVEL];
    let k = (i as usize) - 1;
    tick(image);
    image[base + NODE_BYTES * (own as usize) + (node::LEVEL_LOCKS + k)] = 0;
    image[at + processor::TAG] = tag::REMOVAL_FREE_LEVEL;
    Answer::Moved
}

// L6. It goes down, to level 1; I3 goes up, and so is a function of its own.
pub fn free_level(image: &mut [u8], base: usize, p: usize) -> Answer
    requires { Placed image.old base p (removal_tag (rem.FreeLevel anywhere)) }
    ensures { Stepped image.old p image.new result }
{
    let at = HEADER + PROCESSOR_BYTES * p;
    let a = image[at + processor::PLACE];
    let i = image[at + processor::LEVEL];
    let k = (i as usize) - 1;
    if i <= 1 {
        tick(image);
        image[base + NODE_BYTES * (a as usize) + (node::LEVEL_LOCKS + k)] = 0;
        image[at + processor::TAG] = tag::REMOVAL_FREE_NODE;
        image[at + processor::PLACE] = 0;
        image[at + processor::LEVEL] = 0;
        return Answer::Moved;
    }
    let down = image[at + (processor::SAVED + (k - 1))];
    tick(image);
    image[base + NODE_BYTES * (a as usize) + (node::LEVEL_LOCKS + k)] = 0;
    image[at + processor::TAG] = tag::REMOVAL_SEEK;
    image[at + processor::PLACE] = down;
    image[at + processor::LEVEL] = i - 1;
    Answer::Moved
}

// What L8 tells, by the job's number. No `From`: the byte and `Deed` are both of other crates.
fn deed_of(job: u8) -> Deed
    ensures { result ≡ cond (eqb job 0) deed.HandedOut deed.TakenBack }
{
    if job == processor::DELIVER {
        Deed::HandedOut
    } else {
        Deed::TakenBack
    }
}

// L8.
pub fn retire(image: &mut [u8], base: usize, p: usize) -> Answer
    requires { Owned image.old base p (removal_tag rem.Retire) }
    ensures { Stepped image.old p image.new result }
{
    let at = HEADER + PROCESSOR_BYTES * p;
    let own = image[at + processor::OWN];
    let done = deed_of(image[at + processor::JOB]);
    let l = image[header::LEVEL_COUNT] as usize;
    let here = base + NODE_BYTES * (own as usize);
    let entry = entry_at(image, here);
    let t = number_from(image, header::CLOCK) + 1;
    tick(image);
    image[here + node::USE] = node::RETIRED;
    put_number(image, here, node::USE_TIME, t);
    clear(image, at, l);
    image[at + processor::JOB] = 0;
    Answer::Did(done, entry)
}
