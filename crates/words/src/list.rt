ghost use Rattle.std.specs.Prelude.{◌≡◌};
ghost use Rattle.words.specs.Summaries.{checked, Justified, told_check};

use crate::reader::Reader;
use crate::refusal::ListRefusal;

// The most bytes that a list may have.
pub const LONGEST_LIST: usize = 16384;

// What a list that is taken holds.
#[derive(Clone, Copy, PartialEq, Eq, Debug)]
pub struct ListSummary {
    pub requests: u16,
    pub waits: u32,
}

// Reads a list to its end: the number of its requests and the sum of their waits, or why it is not taken.
pub fn check_list(list: &[u8]) -> Result<ListSummary, ListRefusal>
    ensures value { told_check result ≡ checked list.now }
    ensures law { Justified list.now result }
{
    let length = list.len();
    if length == 0 || length > LONGEST_LIST || length % 4 != 0 {
        return Err(ListRefusal::Size);
    }
    // No `try_fold`: that the counts fit is known of what is left of the list, which a closure does not see. The requests
    // are counted, since after the loop there is no word to ask for its place.
    let mut requests = 0;
    let mut waits = 0;
    for word in Reader::new(list) {
        if !word.is_request() {
            return Err(ListRefusal::Layout { word: word.place });
        }
        requests += 1;
        waits += u32::from(word.wait().clocks());
    }
    Ok(ListSummary { requests, waits })
}
