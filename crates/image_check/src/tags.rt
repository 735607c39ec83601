// The numbers of a stage, by its tag.
ghost use Rattle.std.specs.Prelude.{◌≡◌, cond, ◌+◌, ◌≤◌, ◌<◌, leb};
ghost use Rattle.image_check.specs.Bounds.{row_at, in_bounds, errand_in_bounds};
ghost use Rattle.record.specs.Limits.{max_nodes};
ghost use Rattle.record.specs.Stages.{tag_count};

use record::limits::MAX_NUMBER;

// A tag that the table of stages has.
#[derive(Clone, Copy)]
pub(crate) struct Tag {
    pub(crate) number: usize,
    ghost known: { number < tag_count },
}

// The columns of the table. They are no constant arrays, which would be copied for each look.
impl Tag {
    fn owns(self) -> bool
        ensures { result ≡ (row_at self.number).owns }
    {
        !matches!(self.number, 0 | 11..=13 | 27..=32)
    }

    fn is_placed(self) -> bool
        ensures { result ≡ (row_at self.number).placed }
    {
        !matches!(self.number, 0 | 9 | 10 | 15 | 25 | 26)
    }

    fn releases(self) -> bool
        ensures { result ≡ (row_at self.number).releases }
    {
        matches!(self.number, 5 | 19)
    }

    fn marks(self) -> bool
        ensures { result ≡ (row_at self.number).marks }
    {
        matches!(self.number, 13 | 28 | 32)
    }

    fn removes(self) -> bool
        ensures { result ≡ (row_at self.number).removes }
    {
        matches!(self.number, 14..=26)
    }

    fn seeks(self) -> bool
        ensures { result ≡ (row_at self.number).seeks }
    {
        29 <= self.number
    }
}

// A bound of a number, by a column.
fn pick(c: bool, a: u8, b: u8) -> u8
    ensures { result ≡ cond c a b }
{
    if c { a } else { b }
}

// The node x that G3 read is in its bounds. It is 0 but at G4, so that this is asked first.
fn ahead_passes(tag: Tag, x: u8, n: u8) -> bool
    requires { n ≤ max_nodes }
    ensures { result ≡ leb x (cond (row_at tag.number).releases (n + 1) 0) }
{
    x == 0 || x <= pick(tag.releases(), n + 1, 0)
}

// The place's node a and level i, the node x that G3 read and the own node are in their bounds.
pub(crate) fn stage_passes(tag: Tag, a: u8, i: u8, x: u8, own: u8, n: u8, l: u8) -> bool
    requires { n ≤ max_nodes }
    ensures { result ≡ in_bounds (row_at tag.number) a i x own n l }
{
    let placed = tag.is_placed();
    let marked = tag.marks();
    let owned = tag.owns();
    pick(placed, 1, 0) <= i
        && i <= pick(placed, l, 0)
        && ahead_passes(tag, x, n)
        && pick(marked, 1, 0) <= a
        && a <= pick(marked, n, pick(placed, n + 1, 0))
        && pick(owned, 1, 0) <= own
        && own <= pick(owned, n, n + 1)
}

// The job, and the due minute and the ticket of a Remove are in their bounds. Where no Remove looks
// for its key, which is nearly everywhere, due minute and ticket are only compared with 0.
pub(crate) fn errand_passes(tag: Tag, job: u8, due: u32, ticket: u32) -> bool
    ensures { result ≡ errand_in_bounds (row_at tag.number) job due ticket }
{
    job <= pick(tag.removes(), 1, 0)
        && if tag.seeks() {
            due <= MAX_NUMBER && 1 <= ticket && ticket <= MAX_NUMBER
        } else {
            due == 0 && ticket == 0
        }
}
