// The refusal of a whole burst, by the lengths of its two lists.
ghost use Rattle.std.specs.Prelude.{◌≡◌, ◌*◌, ◌/◌};
ghost use Rattle.store.specs.Refused.{told};
ghost use Rattle.demand.specs.Bursts.{event_bytes, event_words, burst_refusal};

use crate::results::EVENT_WORDS;
use store::Refusal;

// "firmware hands over up to 256 of them together, each as the 9 bytes of its command": its kind and 8 operand bytes.
const MOST_EVENTS: usize = 256;

pub const EVENT_BYTES: usize = 9;

// How many words the results of so many bytes take.
fn words_needed(bytes: usize) -> usize
    ensures { result ≡ event_words * (bytes / event_bytes) }
{
    EVENT_WORDS * (bytes / EVENT_BYTES)
}

// 31 for a burst too long, one that ends inside an event, or too few words for the results.
pub fn burst_refusal(bytes: &[u8], words: usize) -> Result<(), Refusal>
    ensures { told result ≡ burst_refusal bytes.now words }
{
    if MOST_EVENTS * EVENT_BYTES < bytes.len() {
        return Err(Refusal::NoBurst);
    }
    if 0 < bytes.len() % EVENT_BYTES {
        return Err(Refusal::NoBurst);
    }
    if words < words_needed(bytes.len()) {
        return Err(Refusal::NoBurst);
    }
    Ok(())
}
