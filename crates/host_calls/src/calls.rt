// The calls on lent bytes, in place. The record is the one that the bytes are the image of; an
// accepted call leaves the image of the defined record in their place, and a refused one leaves
// every byte as it was. Bytes that are the image of no record are refused with 21.
ghost use Rattle.std.specs.Prelude.{◌≡◌};
ghost use Rattle.rules.specs.Calls.{called, begin_insert, begin_delete_min, begin_relaxed};
ghost use Rattle.rules.specs.Calls.{begin_remove, step as step_of};
ghost use Rattle.host_calls.specs.Entries.{plain_outcome, on_bytes, bytes_after};

use crate::replies::reply;
use image_call::call_at;
use image_check::passes;
use record::Refusal;
use rules::answers::plain;
use rules::{Call, PlainAnswer};

// Any call.
fn call_on(image: &mut [u8], c: Call) -> PlainAnswer
    ensures value { result ≡ plain_outcome (on_bytes image.old (λ q. called q c)) }
    ensures image_after { image.new
        ≡ bytes_after image.old (on_bytes image.old (λ q. called q c)) }
{
    if !passes(image) {
        return reply(Err(Refusal::Invalid));
    }
    plain(call_at(image, c))
}

// The begin of an Insert by a processor.
#[unsafe(no_mangle)]
pub extern "C" fn darthog_begin_insert(
    image: &mut [u8],
    processor: u32,
    due: u32,
    item: u32,
    height: u32,
) -> PlainAnswer
    ensures value { result ≡ plain_outcome
        (on_bytes image.old (λ q. begin_insert q processor due item height)) }
    ensures image_after { image.new
        ≡ bytes_after image.old
        (on_bytes image.old (λ q. begin_insert q processor due item height)) }
{
    call_on(image, Call::Insert(processor, due, item, height))
}

// The begin of a Delete_Min by a processor.
#[unsafe(no_mangle)]
pub extern "C" fn darthog_begin_delete_min(image: &mut [u8], processor: u32) -> PlainAnswer
    ensures value { result ≡ plain_outcome
        (on_bytes image.old (λ q. begin_delete_min q processor)) }
    ensures image_after { image.new
        ≡ bytes_after image.old
        (on_bytes image.old (λ q. begin_delete_min q processor)) }
{
    call_on(image, Call::DeleteMin(processor))
}

// The begin of a Relaxed Delete_Min by a processor (02, W3).
#[unsafe(no_mangle)]
pub extern "C" fn darthog_begin_relaxed(image: &mut [u8], processor: u32) -> PlainAnswer
    ensures value { result ≡ plain_outcome
        (on_bytes image.old (λ q. begin_relaxed q processor)) }
    ensures image_after { image.new
        ≡ bytes_after image.old
        (on_bytes image.old (λ q. begin_relaxed q processor)) }
{
    call_on(image, Call::Relaxed(processor))
}

// The begin of a Remove by a processor (02, W5).
#[unsafe(no_mangle)]
pub extern "C" fn darthog_begin_remove(
    image: &mut [u8],
    processor: u32,
    due: u32,
    ticket: u32,
) -> PlainAnswer
    ensures value { result ≡ plain_outcome
        (on_bytes image.old (λ q. begin_remove q processor due ticket)) }
    ensures image_after { image.new
        ≡ bytes_after image.old
        (on_bytes image.old (λ q. begin_remove q processor due ticket)) }
{
    call_on(image, Call::Remove(processor, due, ticket))
}

// A step of a processor.
#[unsafe(no_mangle)]
pub extern "C" fn darthog_step(image: &mut [u8], processor: u32) -> PlainAnswer
    ensures value { result ≡ plain_outcome (on_bytes image.old (λ q. step_of q processor)) }
    ensures image_after { image.new
        ≡ bytes_after image.old
        (on_bytes image.old (λ q. step_of q processor)) }
{
    call_on(image, Call::Step(processor))
}
