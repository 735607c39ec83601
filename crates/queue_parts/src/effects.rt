// What a decision changes: one node and the calling processor.
ghost use Rattle.std.specs.Prelude.{◌≡◌};
ghost use Rattle.rules.specs.Effects.{node_of, changed as changed_of, begin_after, saved_after};
ghost use Rattle.rules.specs.Effects.{processor_after};

use record::levels::{slot, with_levels, with_number};
use record::{Node, Processor};
use rules::{Decision, Effect, ProcessorChange};

// The node that an effect changes; Keep writes the head as it is.
pub fn node_of(e: Effect) -> u8
    ensures { result ≡ node_of e }
{
    match e {
        Effect::Keep => 0,
        Effect::HoldLevel(a) | Effect::FreeLevel(a) | Effect::SetForward(a, _) => a.node,
        Effect::HoldNode(x) | Effect::FreeNode(x) => x,
        Effect::Mark(x) | Effect::Stamp(x) | Effect::Retire(x) | Effect::Fill(x, _, _, _) => x,
    }
}

// The node n after an effect: in a queue of these levels and this tail, by the processor whose
// locks and marks bear the number h, at the time t.
pub fn changed(levels: u8, tail: u8, h: u8, t: u32, e: Effect, n: Node) -> Node
    ensures { result ≡ changed_of levels tail h t e n }
{
    match e {
        Effect::Keep => n,
        Effect::HoldLevel(a) => n.with_lock(a.level, h),
        Effect::FreeLevel(a) => n.with_lock(a.level, 0),
        Effect::SetForward(a, x) => n.with_forward(a.level, x),
        Effect::HoldNode(_) => n.with_node_lock(h),
        Effect::FreeNode(_) => n.with_node_lock(0),
        Effect::Mark(_) => n.with_mark(h),
        Effect::Stamp(_) => n.with_stamp(t),
        Effect::Retire(_) => n.retired_at(t),
        Effect::Fill(_, due, item, height) => n.filled(levels, tail, h, t, due, item, height),
    }
}

// The begin time after a call at the time t.
fn begin_after(t: u32, begin: u32, k: ProcessorChange) -> u32
    ensures { result ≡ begin_after t begin k }
{
    match k {
        ProcessorChange::Keep | ProcessorChange::Save(_) => begin,
        ProcessorChange::Clear => 0,
        ProcessorChange::Begin => t,
    }
}

// The saved nodes after a call: an answer sets those of the levels 1 to L to the head.
fn saved_after(levels: u8, saved: [u8; 8], k: ProcessorChange) -> [u8; 8]
    ensures { result ≡ saved_after levels saved k }
{
    match k {
        ProcessorChange::Keep | ProcessorChange::Begin => saved,
        ProcessorChange::Save(a) => with_number(saved, slot(a.level), a.node),
        ProcessorChange::Clear => with_levels(saved, levels, 0),
    }
}

pub fn processor_after(levels: u8, t: u32, c: Processor, d: Decision) -> Processor
    ensures { result ≡ processor_after levels t c d }
{
    Processor {
        begin: begin_after(t, c.begin, d.change),
        own: d.own,
        stage: d.stage,
        saved: saved_after(levels, c.saved, d.change),
    }
}
