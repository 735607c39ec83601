// The stages of an operation. Each case carries what its next step needs beside the processor's
// begin time, own node and saved nodes. The table in specs/Stages.antt ties each case to its line
// of document 01.
ghost use Rattle.std.specs.Prelude.{◌≡◌, true, false};
ghost use Rattle.record.specs.Stages.{seek_row, insert_row, delete_row, relaxed_row, removal_row};
ghost use Rattle.record.specs.Stages.{remove_row, for_key, none_wanted, carried_of, carried};
ghost use Rattle.record.specs.Stages.{place, is_idle};

// A node and a level, from 1.
#[derive(Clone, Copy)]
pub struct Place {
    pub node: u8,
    pub level: u8,
}

// Lock-seek: G1, G2, G3, and G4 with the node that G3 read.
#[derive(Clone, Copy)]
pub enum Seek {
    Approach(Place),
    Take(Place),
    Confirm(Place),
    Release(Place, u8),
}

// An Insert: its Search, its Lock-seeks, I1 to I5.
#[derive(Clone, Copy)]
pub enum Insert {
    Search(Place),
    Seek(Seek),
    Copy(Place),
    Link(Place),
    FreeLevel(Place),
    FreeNode,
    Stamp,
}

// What every operation does that has marked a node, from its Search on: L1, the Lock-seeks, L2 to
// L8.
#[derive(Clone, Copy)]
pub enum Removal {
    Search(Place),
    HoldNode,
    Seek(Seek),
    HoldOwn(Place),
    Unlink(Place),
    LeadBack(Place),
    FreeOwn(Place),
    FreeLevel(Place),
    FreeNode,
    Retire,
}

// What a marked node is removed for: it is handed out, or taken back (02, W5).
#[derive(Clone, Copy)]
pub enum Job {
    Deliver,
    TakeBack,
}

// A Delete_Min before its mark: W1, W2, W3.
#[derive(Clone, Copy)]
pub enum Delete {
    ReadNext(Place),
    TestStamp(Place),
    SetMark(Place),
}

// A Relaxed Delete_Min before its mark (02, W3): W1 and W3, with no test of the stamp between.
#[derive(Clone, Copy)]
pub enum Relaxed {
    ReadNext(Place),
    SetMark(Place),
}

// The key of the entry that a Remove is to take back.
#[derive(Clone, Copy)]
pub struct Wanted {
    pub due: u32,
    pub ticket: u32,
}

// A Remove before its mark (02, W5): its Search, the read of the node after the place, the test of
// its stamp, its mark.
#[derive(Clone, Copy)]
pub enum Remove {
    Search(Place),
    ReadNext(Place),
    TestStamp(Place),
    SetMark(Place),
}

#[derive(Clone, Copy)]
pub enum Stage {
    Idle,
    Insert(Insert),
    Delete(Delete),
    Relaxed(Relaxed),
    Remove(Wanted, Remove),
    Removal(Job, Removal),
}

// The numbers that a stage carries: whether the operation has an own node, the place (the head at
// level 1 where the stage has none), the node that G3 read (elsewhere the place's node), whether
// the place is to be marked next (W3), and the key of a Remove (elsewhere due 0 and ticket 1).
#[derive(Clone, Copy)]
pub struct Carried {
    pub own: bool,
    pub place: Place,
    pub ahead: u8,
    pub marking: bool,
    pub wanted: Wanted,
}

impl Place {
    pub const HEAD: Place = Place { node: 0, level: 1 };
}

impl Wanted {
    pub const NONE: Wanted = Wanted { due: 0, ticket: 1 };
}

pub fn at(node: u8, level: u8) -> Place
    ensures { result ≡ place node level }
{
    Place { node, level }
}

pub fn wanting(due: u32, ticket: u32) -> Wanted
    ensures { result ≡ record { due = due; ticket = ticket } }
{
    Wanted { due, ticket }
}

pub fn is_idle(g: Stage) -> bool
    ensures { result ≡ is_idle g }
{
    matches!(g, Stage::Idle)
}

fn carrying(own: bool, a: Place) -> Carried
    ensures { result ≡ record
        { own = own; place = a; ahead = a.node; marking = false; wanted = none_wanted } }
{
    Carried {
        own,
        place: a,
        ahead: a.node,
        marking: false,
        wanted: Wanted::NONE,
    }
}

// Without an own node: the key of a Remove, the place, and whether it is to be marked next.
fn seeking(w: Wanted, a: Place, marking: bool) -> Carried
    ensures { result ≡ record
        { own = false; place = a; ahead = a.node; marking = marking; wanted = w } }
{
    Carried {
        marking,
        wanted: w,
        ..carrying(false, a)
    }
}

fn seek_carried(g: Seek) -> Carried
    ensures { result ≡ carried_of (seek_row 0 g) }
{
    match g {
        Seek::Approach(a) | Seek::Take(a) | Seek::Confirm(a) => carrying(true, a),
        Seek::Release(a, b) => Carried {
            ahead: b,
            ..carrying(true, a)
        },
    }
}

fn insert_carried(g: Insert) -> Carried
    ensures { result ≡ carried_of (insert_row g) }
{
    match g {
        Insert::Seek(k) => seek_carried(k),
        Insert::Search(a) | Insert::Copy(a) | Insert::Link(a) | Insert::FreeLevel(a) => {
            carrying(true, a)
        }
        Insert::FreeNode | Insert::Stamp => carrying(true, Place::HEAD),
    }
}

fn removal_carried(g: Removal) -> Carried
    ensures { result ≡ carried_of (removal_row g) }
{
    match g {
        Removal::Seek(k) => seek_carried(k),
        Removal::Search(a)
        | Removal::HoldOwn(a)
        | Removal::Unlink(a)
        | Removal::LeadBack(a)
        | Removal::FreeOwn(a)
        | Removal::FreeLevel(a) => carrying(true, a),
        Removal::HoldNode | Removal::FreeNode | Removal::Retire => carrying(true, Place::HEAD),
    }
}

fn delete_carried(g: Delete) -> Carried
    ensures { result ≡ carried_of (delete_row g) }
{
    match g {
        Delete::ReadNext(a) | Delete::TestStamp(a) => carrying(false, a),
        Delete::SetMark(a) => seeking(Wanted::NONE, a, true),
    }
}

fn relaxed_carried(g: Relaxed) -> Carried
    ensures { result ≡ carried_of (relaxed_row g) }
{
    match g {
        Relaxed::ReadNext(a) => carrying(false, a),
        Relaxed::SetMark(a) => seeking(Wanted::NONE, a, true),
    }
}

fn remove_carried(w: Wanted, g: Remove) -> Carried
    ensures { result ≡ carried_of (for_key w (remove_row g)) }
{
    match g {
        Remove::Search(a) | Remove::ReadNext(a) | Remove::TestStamp(a) => seeking(w, a, false),
        Remove::SetMark(a) => seeking(w, a, true),
    }
}

pub fn carried_by(g: Stage) -> Carried
    ensures { result ≡ carried g }
{
    match g {
        Stage::Idle => carrying(false, Place::HEAD),
        Stage::Insert(i) => insert_carried(i),
        Stage::Delete(d) => delete_carried(d),
        Stage::Relaxed(x) => relaxed_carried(x),
        Stage::Remove(w, x) => remove_carried(w, x),
        Stage::Removal(_, r) => removal_carried(r),
    }
}
