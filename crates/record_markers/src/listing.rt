// Markers, by value (02, W6).
ghost use Rattle.std.specs.Prelude.{◌≡◌, ◌+◌, ◌*◌, ◌≤◌, length, set};
ghost use Rattle.laws.specs.Front.{at_front};
ghost use Rattle.record.specs.Limits.{max_nodes};
ghost use Rattle.record.specs.Nodes.{is_in_use};
ghost use Rattle.record_markers.specs.Markers.{marker_byte, pairs_to, used_count};
ghost use Rattle.record_markers.specs.Markers.{markers_of, area_after, reported_markers};

use record::nodes::Use;
use record::queues::Queue;
use record::refusals::Refusal;
use record_check::valid;

// The marker of a node that has no mark.
const NO_MARKER: u8 = 255;

// The byte for a node's mark: the processor that set it, or 255 where there is none.
pub fn marker_byte(mark: u8) -> u8
    ensures { result ≡ marker_byte mark }
{
    mark.checked_sub(1).unwrap_or(NO_MARKER)
}

// Whether a node is in use, by its state.
fn is_used(state: Use) -> bool
    ensures { result ≡ is_in_use state }
{
    matches!(state, Use::InUse)
}

// How many of the nodes 1 to N are in use.
fn used_count(q: Queue) -> u8
    requires { q.node_count ≤ max_nodes }
    ensures { (result ≡ used_count q) × (result ≤ max_nodes) }
{
    let mut count: u8 = 0;
    for i in 0..q.node_count as usize {
        if is_used(q.nodes[i + 1].state) {
            count += 1;
        }
    }
    count
}

// The two bytes of node x, which has this mark, from this place of the area on.
pub fn put_pair(area: &mut [u8], at: usize, x: u8, mark: u8)
    requires { at + 2 ≤ length area.old }
    ensures { area.new ≡ set (set area.old at x) (at + 1) (marker_byte mark) }
{
    area[at] = x;
    area[at + 1] = marker_byte(mark);
}

// The two bytes of each node of 1 to N that is in use, in node order, at the front of the area.
fn put_pairs(q: Queue, area: &mut [u8])
    requires { (q.node_count ≤ max_nodes) × (2 * used_count q ≤ length area.old) }
    ensures { area.new ≡ at_front (pairs_to q q.node_count) area.old }
{
    let mut at: usize = 0;
    for k in 0..q.node_count as usize {
        let x = k + 1;
        let n = q.nodes[x];
        if is_used(n.state) {
            put_pair(area, at, x as u8, n.mark);
            at += 2;
        }
    }
}

// Fills the area with the number and the marker of each node in use, and gives how many nodes these
// are; the rest of the area is as it was. 21 for a record that does not pass check 21, and then 43
// for an area that is too short: a refusal leaves the area.
pub fn markers(q: Queue, area: &mut [u8]) -> Result<u8, Refusal>
    ensures value { result ≡ markers_of q (length area.old) }
    ensures numbers { reported_markers result ≡ reported_markers (markers_of q (length area.old)) }
    ensures area_after { area.new ≡ area_after q area.old }
{
    if !valid(q) {
        return Err(Refusal::Invalid);
    }
    let count = used_count(q);
    if area.len() < count as usize * 2 {
        return Err(Refusal::Room);
    }
    put_pairs(q, area);
    Ok(count)
}
