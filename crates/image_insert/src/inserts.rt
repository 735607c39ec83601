// The stages of an Insert after its Lock-seek, in place, but for I4, which a removal has too
// (image_walks): each reads what this stage reads, and stores what it changes.
ghost use Rattle.record.specs.declared.stages.Insert.TheVariants as ins;
ghost use Rattle.image.specs.Tags.{anywhere, insert_tag};
ghost use Rattle.image_parts.specs.Given.{Stepped};
ghost use Rattle.image_parts.specs.Ready.{Placed, Owned};

use image::layout::{HEADER, NODE_BYTES, PROCESSOR_BYTES};
use image::numbers::{clear, number_from, put_number, tick};
use image::{header, node, processor, tag};
use image_parts::reads::entry_at;
use rules::{Answer, Deed};

// I1.
pub fn copy(image: &mut [u8], base: usize, p: usize) -> Answer
    requires { Placed image.old base p (insert_tag (ins.Copy anywhere)) }
    ensures { Stepped image.old p image.new result }
{
    let at = HEADER + PROCESSOR_BYTES * p;
    let own = image[at + processor::OWN];
    let a = image[at + processor::PLACE];
    let i = image[at + processor::LEVEL];
    let k = (i as usize) - 1;
    let x = image[base + NODE_BYTES * (a as usize) + k];
    tick(image);
    image[base + NODE_BYTES * (own as usize) + k] = x;
    image[at + processor::TAG] = tag::LINK;
    Answer::Moved
}

// I2.
pub fn link(image: &mut [u8], base: usize, p: usize) -> Answer
    requires { Placed image.old base p (insert_tag (ins.Link anywhere)) }
    ensures { Stepped image.old p image.new result }
{
    let at = HEADER + PROCESSOR_BYTES * p;
    let own = image[at + processor::OWN];
    let a = image[at + processor::PLACE];
    let i = image[at + processor::LEVEL];
    tick(image);
    let k = (i as usize) - 1;
    image[base + NODE_BYTES * (a as usize) + k] = own;
    image[at + processor::TAG] = tag::INSERT_FREE_LEVEL;
    Answer::Moved
}

// I3. It goes up, to the height of its own node; L6 goes down, and so is a function of its own.
pub fn free_level(image: &mut [u8], base: usize, p: usize) -> Answer
    requires { Placed image.old base p (insert_tag (ins.FreeLevel anywhere)) }
    ensures { Stepped image.old p image.new result }
{
    let at = HEADER + PROCESSOR_BYTES * p;
    let own = image[at + processor::OWN];
    let a = image[at + processor::PLACE];
    let i = image[at + processor::LEVEL];
    let k = (i as usize) - 1;
    let height = image[base + NODE_BYTES * (own as usize) + node::HEIGHT];
    if i < height {
        let up = image[at + (processor::SAVED + (i as usize))];
        tick(image);
        image[base + NODE_BYTES * (a as usize) + (node::LEVEL_LOCKS + k)] = 0;
        image[at + processor::TAG] = tag::INSERT_SEEK;
        image[at + processor::PLACE] = up;
        image[at + processor::LEVEL] = i + 1;
        return Answer::Moved;
    }
    tick(image);
    image[base + NODE_BYTES * (a as usize) + (node::LEVEL_LOCKS + k)] = 0;
    image[at + processor::TAG] = tag::INSERT_FREE_NODE;
    image[at + processor::PLACE] = 0;
    image[at + processor::LEVEL] = 0;
    Answer::Moved
}

// I5.
pub fn stamp(image: &mut [u8], base: usize, p: usize) -> Answer
    requires { Owned image.old base p (insert_tag ins.Stamp) }
    ensures { Stepped image.old p image.new result }
{
    let at = HEADER + PROCESSOR_BYTES * p;
    let own = image[at + processor::OWN];
    let l = image[header::LEVEL_COUNT] as usize;
    let here = base + NODE_BYTES * (own as usize);
    let entry = entry_at(image, here);
    let t = number_from(image, header::CLOCK) + 1;
    tick(image);
    image[here + node::STAMP] = node::STAMPED;
    put_number(image, here, node::STAMP_TIME, t);
    clear(image, at, l);
    Answer::Did(Deed::Inserted, entry)
}
