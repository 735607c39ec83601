// A function for each stage: it reads what this stage reads, and stores what it changes. `removal`
// tells whose walk it is. There is no struct of the own node, the place and the level that all read
// at once, since several stages need only some of them.
ghost use Rattle.std.specs.Prelude.{◌≡◌, ◌+◌, ◌≤◌};
ghost use Rattle.image_parts.specs.Given.{Stepped};
ghost use Rattle.image_parts.specs.Ready.{Owned, Placed};
ghost use Rattle.image_walks.specs.Walks.{free_node_tag, search_tag, seek_tag};

use image::layout::{HEADER, NODE_BYTES, PROCESSOR_BYTES};
use image::numbers::tick;
use image::{node, processor, tag};
use image_parts::keys::before;
use image_parts::locks::try_lock;
use rules::Answer;

// The tag of G1; G2, G3 and G4 have the next ones.
fn seek_tag(removal: bool) -> u8
    ensures { (result ≡ seek_tag removal) × (result ≤ 16) }
{
    if removal {
        tag::REMOVAL_SEEK
    } else {
        tag::INSERT_SEEK
    }
}

// Search.
pub fn search(image: &mut [u8], base: usize, p: usize, removal: bool) -> Answer
    requires { Placed image.old base p (search_tag removal) }
    ensures { Stepped image.old p image.new result }
{
    let at = HEADER + PROCESSOR_BYTES * p;
    let own = image[at + processor::OWN];
    let a = image[at + processor::PLACE];
    let i = image[at + processor::LEVEL];
    let k = (i as usize) - 1;
    let x = image[base + NODE_BYTES * (a as usize) + k];
    let ahead = before(image, base, x, own);
    tick(image);
    if ahead {
        image[at + processor::PLACE] = x;
        return Answer::Moved;
    }
    image[at + (processor::SAVED + k)] = a;
    if 1 < i {
        image[at + processor::LEVEL] = i - 1;
        return Answer::Moved;
    }
    if removal {
        image[at + processor::TAG] = tag::HOLD_NODE;
        image[at + processor::PLACE] = 0;
        image[at + processor::LEVEL] = 0;
        return Answer::Moved;
    }
    image[at + processor::TAG] = tag::INSERT_SEEK;
    Answer::Moved
}

// G1.
pub fn approach(image: &mut [u8], base: usize, p: usize, removal: bool) -> Answer
    requires { Placed image.old base p (seek_tag removal) }
    ensures { Stepped image.old p image.new result }
{
    let at = HEADER + PROCESSOR_BYTES * p;
    let own = image[at + processor::OWN];
    let a = image[at + processor::PLACE];
    let i = image[at + processor::LEVEL];
    let k = (i as usize) - 1;
    let x = image[base + NODE_BYTES * (a as usize) + k];
    let first = seek_tag(removal);
    let ahead = before(image, base, x, own);
    tick(image);
    if ahead {
        image[at + processor::PLACE] = x;
        return Answer::Moved;
    }
    image[at + processor::TAG] = first + 1;
    Answer::Moved
}

// G2.
pub fn take(image: &mut [u8], base: usize, p: usize, removal: bool) -> Answer
    requires { Placed image.old base p (seek_tag removal + 1) }
    ensures { Stepped image.old p image.new result }
{
    let at = HEADER + PROCESSOR_BYTES * p;
    let a = image[at + processor::PLACE];
    let i = image[at + processor::LEVEL];
    let k = (i as usize) - 1;
    let lock = base + NODE_BYTES * (a as usize) + (node::LEVEL_LOCKS + k);
    let first = seek_tag(removal);
    tick(image);
    match try_lock(image, lock, p) {
        None => {
            image[at + processor::TAG] = first + 2;
            Answer::Moved
        }
        Some(h) => Answer::Waits(h),
    }
}

// G3.
pub fn confirm(image: &mut [u8], base: usize, p: usize, removal: bool) -> Answer
    requires { Placed image.old base p (seek_tag removal + 2) }
    ensures { Stepped image.old p image.new result }
{
    let at = HEADER + PROCESSOR_BYTES * p;
    let own = image[at + processor::OWN];
    let a = image[at + processor::PLACE];
    let i = image[at + processor::LEVEL];
    let k = (i as usize) - 1;
    let x = image[base + NODE_BYTES * (a as usize) + k];
    let first = seek_tag(removal);
    let ahead = before(image, base, x, own);
    tick(image);
    if ahead {
        image[at + processor::TAG] = first + 3;
        image[at + processor::AHEAD] = x;
        return Answer::Moved;
    }
    image[at + processor::TAG] = first + 4;
    Answer::Moved
}

// G4.
pub fn release(image: &mut [u8], base: usize, p: usize, removal: bool) -> Answer
    requires { Placed image.old base p (seek_tag removal + 3) }
    ensures { Stepped image.old p image.new result }
{
    let at = HEADER + PROCESSOR_BYTES * p;
    let a = image[at + processor::PLACE];
    let i = image[at + processor::LEVEL];
    let k = (i as usize) - 1;
    let x = image[at + processor::AHEAD];
    let first = seek_tag(removal);
    tick(image);
    image[base + NODE_BYTES * (a as usize) + (node::LEVEL_LOCKS + k)] = 0;
    image[at + processor::TAG] = first + 1;
    image[at + processor::PLACE] = x;
    image[at + processor::AHEAD] = 0;
    Answer::Moved
}

// I4 and L7.
pub fn free_node(image: &mut [u8], base: usize, p: usize, removal: bool) -> Answer
    requires { Owned image.old base p (free_node_tag removal) }
    ensures { Stepped image.old p image.new result }
{
    let at = HEADER + PROCESSOR_BYTES * p;
    let own = image[at + processor::OWN];
    tick(image);
    image[base + NODE_BYTES * (own as usize) + node::NODE_LOCK] = 0;
    image[at + processor::TAG] = if removal { tag::RETIRE } else { tag::STAMP };
    Answer::Moved
}
