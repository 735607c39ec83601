// The calls that a host makes of a processor.

// The begin of an Insert, with its due minute, item and height; the begin of a Delete_Min, and of a
// Relaxed one (02, W3); the begin of a Remove, with its due minute and ticket (02, W5); a step. The
// first number is the processor's.
#[derive(Clone, Copy)]
pub enum Call {
    Insert(u32, u32, u32, u32),
    DeleteMin(u32),
    Relaxed(u32),
    Remove(u32, u32, u32),
    Step(u32),
}
