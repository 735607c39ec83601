// Backlog and markers of a lent record, which they only read.
ghost use Rattle.std.specs.Prelude.{◌≡◌, length};
ghost use Rattle.record_check.specs.Backlog.{backlog_of, reported_count};
ghost use Rattle.record_markers.specs.Markers.{markers_of, area_after, reported_markers};

use record::{Queue, Refusal};

// How many entries are answered and not marked: of the nodes 1 to N those in use, stamped and
// unmarked. 21 for a record that does not pass check 21.
pub fn backlog(q: &Queue) -> Result<u8, Refusal>
    ensures { (result ≡ backlog_of q.now)
        × (reported_count result ≡ reported_count (backlog_of q.now)) }
{
    record_check::backlog(*q)
}

// Fills the lent area with the number and the marker of each node in use, and gives how many nodes
// these are; the rest of the area is as it was. 21 for a record that does not pass check 21, and
// then 43 for an area that is too short: a refusal leaves the area (02, W6).
pub fn markers(q: &Queue, area: &mut [u8]) -> Result<u8, Refusal>
    ensures { (result ≡ markers_of q.now (length area.old))
        × (reported_markers result
        ≡ reported_markers (markers_of q.now (length area.old)))
        × (area.new ≡ area_after q.now area.old) }
{
    record_markers::markers(*q, area)
}
