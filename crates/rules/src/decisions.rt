// A step in three parts: what it reads, what it decides, what it changes. These are the values that
// pass between the parts.
use crate::answers::{Answer, Entry};
use record::{Place, Seek, Stage};

// What a step reads of the record: numbers and flags alone.
#[derive(Clone, Copy)]
pub struct StepView {
    // the operation's own node: its number, its height, and who holds its node lock
    pub own: u8,
    pub height: u8,
    pub own_node_lock: u8,
    // the node after the place at its level; whether its key is before the operation's; whether it
    // is the operation's, which a Remove alone asks; whether it is the tail
    pub next: u8,
    pub next_before_key: bool,
    pub next_has_key: bool,
    pub next_is_tail: bool,
    // who holds the place's lock at the level
    pub place_lock: u8,
    // the own node's forward number at the level, and who holds its lock there
    pub own_next: u8,
    pub own_lock: u8,
    // the queue's highest level
    pub level_count: u8,
    // the place's node: whether it is marked, and whether its stamp is before the operation's begin
    pub marked: bool,
    pub stamped: bool,
    // the saved nodes one level up, one level down, and at the own node's height
    pub saved_above: u8,
    pub saved_below: u8,
    pub saved_at_height: u8,
    // what the place's node and the own node hold
    pub place_entry: Entry,
    pub own_entry: Entry,
}

// A step of a Search: on along the level, one level down, or out of it.
#[derive(Clone, Copy)]
pub enum Searched {
    Ahead(Place),
    Down(Place),
    Done(Place),
}

// A step of a Lock-seek: on; waiting, with the lock's holder; or done with the place's lock held.
#[derive(Clone, Copy)]
pub enum Sought {
    Goes(Effect, Seek),
    Waits(Seek, u8),
    Done(Place),
}

// What a call does to one node.
#[derive(Clone, Copy)]
pub enum Effect {
    Keep,
    HoldLevel(Place),
    FreeLevel(Place),
    SetForward(Place, u8),
    HoldNode(u8),
    FreeNode(u8),
    Mark(u8),
    Stamp(u8),
    Retire(u8),
    // a node taken by an Insert: its number, due, item and height
    Fill(u8, u32, u32, u8),
}

// What becomes of the begin time and the saved nodes of the calling processor: both stay; the place
// is saved for its level; the answer clears both; a begin sets the begin time.
#[derive(Clone, Copy)]
pub enum ProcessorChange {
    Keep,
    Save(Place),
    Clear,
    Begin,
}

#[derive(Clone, Copy)]
pub struct Decision {
    pub effect: Effect,
    pub stage: Stage,
    pub own: u8,
    pub change: ProcessorChange,
    pub answer: Answer,
}
