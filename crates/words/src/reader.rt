ghost use Rattle.std.specs.Prelude.{◌≡◌, ◌+◌, ◌^◌, ◌<◌, length};
ghost use Rattle.words.specs.Lists.{Steps};
ghost use Rattle.std.specs.Iterator.{at_most};

use crate::request::Word;

// Goes through a list word by word, and tells each word's place.
// By a rule of the project it holds the rest of the list and a place, and takes a word off as four named bytes.
#[derive(Drop)]
pub struct Reader<'a> {
    rest: &'a [u8],
    place: usize,
    ghost within: { place + length rest.now < 2 ^ 64 },
}

impl<'a> Reader<'a> {
    // A reader at the beginning of a list.
    pub fn new(list: &'a [u8]) -> Reader<'a>
        ensures rest { result.rest.now ≡ list.now }
        ensures place { result.place ≡ 0 }
    {
        Reader {
            rest: list,
            place: 0,
        }
    }
}

impl<'a> Iterator for Reader<'a> {
    type Item = Word;

    ghost next_gives = { λ s r t. Steps s.rest.now s.place r t.rest.now t.place };

    ghost remaining = { λ s. at_most (length s.rest.now) };

    // The next four bytes; a zero word, or fewer than four bytes, ends the reading. The bytes have names already, so each
    // is compared with 0, and no array is made for it.
    fn next(&mut self) -> Option<Word> {
        match self.rest {
            [a, b, c, d, rest @ ..] if *a > 0 || *b > 0 || *c > 0 || *d > 0 => {
                let bytes = [*a, *b, *c, *d];
                let place = self.place + 1;
                self.rest = rest;
                self.place = place;
                Some(Word { place, bytes })
            }
            _ => None,
        }
    }
}
