// A list of calls on lent bytes in one entry.
ghost use Rattle.std.specs.Prelude.{◌≡◌};
ghost use Rattle.image_list.specs.InPlace.{list_code, bytes_after_list, answers_after_list, ListAgrees};

use image_check::passes;
use image_list::runs::run_calls;
use record::Refusal;

// Five numbers for each call and for each answer (image_list/specs/Plain); it stops at the end of
// either list. 21, and nothing is changed, where the bytes are not the image of a record that
// passes check 21; else 0. The answers agree with the book.
#[unsafe(no_mangle)]
pub extern "C" fn darthog_calls(image: &mut [u8], calls: &[u32], answers: &mut [u32]) -> u32
    ensures value { result ≡ list_code image.old }
    ensures image_after { image.new
        ≡ bytes_after_list image.old calls.now answers.old }
    ensures answers_after { answers.new
        ≡ answers_after_list image.old calls.now answers.old }
    ensures list_agrees { ListAgrees image.old calls.now answers.old }
{
    if !passes(image) {
        return Refusal::Invalid.number() as u32;
    }
    run_calls(image, calls, answers);
    0
}
