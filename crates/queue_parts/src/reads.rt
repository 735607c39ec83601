// What a step reads: the place that its stage carries, and from three nodes the numbers that a
// decision takes.
ghost use Rattle.std.specs.Prelude.{◌≡◌};
ghost use Rattle.rules.specs.Calls.{reading_place, key_for, at_key, entry_of, step_view_from};

use record::levels::number_at;
use record::nodes::stamped_before;
use record::stages::{at, carried_by};
use record::{Key, Node, Place, Processor, Remove, Stage};
use rules::{Entry, StepView};

// The place that a step of this stage reads at: its own, but a walk reads at level 1, whatever its
// place's level (01, W1), a Relaxed one too (02, W3), and a Remove from its Search on (02, W5).
pub fn reading_place(g: Stage) -> Place
    ensures { result ≡ reading_place g }
{
    let a = carried_by(g).place;
    match g {
        Stage::Delete(_) | Stage::Relaxed(_) => at(a.node, 1),
        Stage::Remove(_, Remove::Search(_)) => a,
        Stage::Remove(_, _) => at(a.node, 1),
        Stage::Idle | Stage::Insert(_) | Stage::Removal(_, _) => a,
    }
}

// The operation's key: the one that a Remove carries; elsewhere the own node's, which is k, at
// every stage that reads it.
fn key_for(g: Stage, k: Key) -> Key
    ensures { result ≡ key_for g k }
{
    match g {
        Stage::Remove(w, _) => Key::of_entry(w.due, w.ticket),
        _ => k,
    }
}

// Whether k is the key that a Remove carries (02, W5). No other stage asks, and none compares.
fn at_key(g: Stage, k: Key) -> bool
    ensures { result ≡ at_key g k }
{
    match g {
        Stage::Remove(w, _) => k == Key::of_entry(w.due, w.ticket),
        _ => false,
    }
}

// No `From`: both types are those of crates below.
pub fn entry_of(n: Node) -> Entry
    ensures { result ≡ entry_of n }
{
    Entry {
        due: n.due,
        item: n.item,
        ticket: n.ticket,
    }
}

// From the place's node, the own node, and the node after the place, which is number `next`.
pub fn step_view_from(
    here: Node,
    own: Node,
    ahead: Node,
    next: u8,
    c: Processor,
    a: Place,
    nodes: u8,
    levels: u8,
) -> StepView
    ensures { result ≡ step_view_from here own ahead next c a nodes levels }
{
    let ahead_key = ahead.key(next, nodes);
    let own_key = own.key(c.own, nodes);
    let goal = key_for(c.stage, own_key);
    StepView {
        own: c.own,
        height: own.height,
        own_node_lock: own.node_lock,
        next,
        // by name: with `<` a goal of this function is left that the search does not close
        next_before_key: ahead_key.before(goal),
        next_has_key: at_key(c.stage, ahead_key),
        next_is_tail: u32::from(next) == u32::from(nodes) + 1,
        place_lock: here.lock_at(a.level),
        own_next: own.forward_at(a.level),
        own_lock: own.lock_at(a.level),
        level_count: levels,
        marked: 0 < here.mark,
        stamped: stamped_before(here.stamp, c.begin),
        saved_above: number_at(c.saved, usize::from(a.level)),
        saved_below: c.saved_at(a.level.saturating_sub(1)),
        saved_at_height: c.saved_at(own.height),
        place_entry: entry_of(here),
        own_entry: entry_of(own),
    }
}
