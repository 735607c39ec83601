// Making a queue in a lent record.
ghost use Rattle.std.specs.Prelude.{◌≡◌};
ghost use Rattle.record_check.specs.Making.{made};
ghost use Rattle.queue_lent.specs.Lent.{remade, told};

use record::{Queue, Refusal};

// Makes a queue for p processors (1 to 16; else refused with 11), n nodes (1 to 200; else 12) and l
// levels (1 to 8; else 13) in the lent record, whatever it was. A refusal leaves the record as it
// was.
pub fn make(q: &mut Queue, p: u32, n: u32, l: u32) -> Result<(), Refusal>
    ensures stored { q.new ≡ remade q.old (made p n l) }
    ensures told { result ≡ told (made p n l) }
{
    match record_check::make(p, n, l) {
        Ok(made) => {
            *q = made;
            Ok(())
        }
        Err(e) => Err(e.refusal),
    }
}
