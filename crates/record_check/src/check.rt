// Check 21: whether a record is one that the calls are defined for.
ghost use Rattle.std.specs.Prelude.{◌≡◌, ◌+◌, ◌≤◌, ◌<◌};
ghost use Rattle.record_check.specs.Check.{within as within_of, sizes_valid, stamp_valid};
ghost use Rattle.record_check.specs.Check.{use_valid, links_valid, entry_valid, node_valid};
ghost use Rattle.record_check.specs.Check.{place_valid, own_valid};
ghost use Rattle.record_check.specs.Check.{marking_valid, wanted_valid, carried_valid};
ghost use Rattle.record_check.specs.Check.{processor_valid};
ghost use Rattle.record_check.specs.Check.{valid as valid_of};
ghost use Rattle.record.specs.Limits.{max_nodes};

use record::levels::all_at_most;
use record::limits::{MAX_LEVELS, MAX_NODES, MAX_NUMBER, MAX_PROCESSORS};
use record::nodes::{Node, Use};
use record::queues::{Processor, Queue};
use record::stages::{Carried, Place, Wanted, carried_by};

// P, N, L and the clock of a record.
#[derive(Clone, Copy)]
pub struct Sizes {
    pub processor_count: u8,
    pub node_count: u8,
    pub level_count: u8,
    pub clock: u32,
}

// Whether x is one of 1 to top.
fn within(x: u8, top: u8) -> bool
    ensures { result ≡ within_of x top }
{
    1 <= x && x <= top
}

fn sizes_valid(s: Sizes) -> bool
    ensures { result ≡ sizes_valid s }
{
    within(s.processor_count, MAX_PROCESSORS)
        && within(s.node_count, MAX_NODES)
        && within(s.level_count, MAX_LEVELS)
        && s.clock <= MAX_NUMBER
}

// A stamp: none on the head and the tail, and no time after the clock.
fn stamp_valid(stamp: Option<u32>, entry: bool, clock: u32) -> bool
    ensures { result ≡ stamp_valid stamp entry clock }
{
    match stamp {
        None => true,
        Some(t) => entry && t <= clock,
    }
}

fn use_valid(state: Use, clock: u32) -> bool
    ensures { result ≡ use_valid state clock }
{
    match state {
        Use::Never | Use::InUse => true,
        Use::Retired(t) => t <= clock,
    }
}

// Forward numbers and holders of the levels 1 to L, the node lock's holder, and who set the mark.
fn links_valid(s: Sizes, n: Node) -> bool
    requires { s.node_count ≤ max_nodes }
    ensures { result ≡ links_valid s n }
{
    all_at_most(n.forward, s.level_count, s.node_count + 1)
        && all_at_most(n.level_locks, s.level_count, s.processor_count)
        && n.node_lock <= s.processor_count
        && n.mark <= s.processor_count
}

fn entry_valid(s: Sizes, n: Node) -> bool
    ensures { result ≡ entry_valid s n }
{
    n.due <= MAX_NUMBER
        && n.item <= MAX_NUMBER
        && n.ticket <= s.clock
        && within(n.height, s.level_count)
}

// Node x.
fn node_valid(s: Sizes, x: u8, n: Node) -> bool
    requires { s.node_count ≤ max_nodes }
    ensures { result ≡ node_valid s x n }
{
    links_valid(s, n)
        && entry_valid(s, n)
        && stamp_valid(n.stamp, within(x, s.node_count), s.clock)
        && use_valid(n.state, s.clock)
}

fn place_valid(s: Sizes, a: Place) -> bool
    requires { s.node_count ≤ max_nodes }
    ensures { result ≡ place_valid s a }
{
    a.node <= s.node_count + 1 && within(a.level, s.level_count)
}

// The own node: one of 1 to N where the stage has one.
fn own_valid(s: Sizes, has: bool, own: u8) -> bool
    requires { s.node_count ≤ max_nodes }
    ensures { result ≡ own_valid s has own }
{
    if has {
        within(own, s.node_count)
    } else {
        own <= s.node_count + 1
    }
}

// The place at W3: one of 1 to N.
fn marking_valid(s: Sizes, marking: bool, x: u8) -> bool
    ensures { result ≡ marking_valid s marking x }
{
    !marking || within(x, s.node_count)
}

// The key of a Remove, in the ranges of 38.
fn wanted_valid(w: Wanted) -> bool
    ensures { result ≡ wanted_valid w }
{
    w.due <= MAX_NUMBER && 1 <= w.ticket && w.ticket <= MAX_NUMBER
}

// What a stage carries.
fn carried_valid(s: Sizes, g: Carried, own: u8) -> bool
    requires { s.node_count ≤ max_nodes }
    ensures { result ≡ carried_valid s g own }
{
    own_valid(s, g.own, own)
        && place_valid(s, g.place)
        && g.ahead <= s.node_count + 1
        && marking_valid(s, g.marking, g.place.node)
        && wanted_valid(g.wanted)
}

fn processor_valid(s: Sizes, c: Processor) -> bool
    requires { s.node_count ≤ max_nodes }
    ensures { result ≡ processor_valid s c }
{
    c.begin <= s.clock
        && all_at_most(c.saved, s.level_count, s.node_count + 1)
        && carried_valid(s, carried_by(c.stage), c.own)
}

// Whether the record passes check 21.
pub fn valid(q: Queue) -> bool
    ensures { result ≡ valid_of q }
{
    let s = Sizes {
        processor_count: q.processor_count,
        node_count: q.node_count,
        level_count: q.level_count,
        clock: q.clock,
    };
    if !sizes_valid(s) {
        return false;
    }
    let nodes = (0..s.node_count + 2).all(|x| node_valid(s, x, q.nodes[x as usize]));
    let processors = (0..s.processor_count).all(|p| {
        processor_valid(s, q.processors[p as usize])
    });
    nodes && processors
}
