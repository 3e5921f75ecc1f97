// The byte reader: goes over an image from its front, one entry after another.
ghost use Rattle.images.specs.Image.{count_at};
ghost use Rattle.images.specs.Reading.{Passed};
ghost use Rattle.std.specs.Prelude.{◌≡◌, ◌≤◌, length, ◌==◌, slice_index, MatchResult, true, false};

use crate::faults::EndsEarly;
use std::marker::Model;

// A number that stands in an image, and its place.
#[derive(Clone, Copy)]
pub struct Number {
    place: usize,
    value: usize,
}

impl Number {
    // The number itself, if it is right; or else the fault, which lies at its place.
    pub(crate) fn judge<E, R: FnOnce(usize) -> bool, F: FnOnce(usize) -> E>(
        self,
        is_right: R,
        fault: F,
    ) -> Result<usize, E>
        requires is_right { R.pre is_right self.value }
        requires fault { F.pre fault self.place }
        ensures { MatchResult result (λ n. (n ≡ self.value) × R.post is_right n true) (λ f. R.post is_right self.value false × F.post fault self.place f) }
    {
        if is_right(self.value) {
            Ok(self.value)
        } else {
            Err(fault(self.place))
        }
    }
}

// The whole image and a place in it, rather than the bytes that are left: a number and a fault tell their places.
#[derive(Drop)]
pub struct Reader<'a> {
    image: &'a [u8],
    place: usize,
}

impl<'a> Model for Reader<'a> {
    ghost use Rattle.images.specs.Reading.{Reading};
    ghost use Rattle.std.specs.Prelude.{◌≤◌, length};

    ghost Value = { Reading };

    ghost view = { λ r. record { image = r.image.now; place = r.place } };

    ghost invariant = { λ r. r.place ≤ length r.image.now };
}

impl<'a> Reader<'a> {
    // At the front of `image`.
    pub(crate) fn new(image: &'a [u8]) -> Reader<'a>
        ensures { result ≡ record { image = image.now; place = 0 } }
    {
        Reader { image, place: 0 }
    }

    // The place of the next entry: at most the image's end.
    pub(crate) fn place(&self) -> usize
        ensures value { result ≡ self.now.place }
        ensures within { result ≤ length self.now.image }
    {
        self.place
    }

    // Whether all bytes are read.
    pub(crate) fn at_end(&self) -> bool
        ensures { result ≡ (length self.now.image == self.now.place) }
    {
        self.image.len() == self.place
    }

    // Goes over `size` bytes, and answers the place of the first.
    fn pass(&mut self, size: usize) -> Result<usize, EndsEarly>
        ensures { Passed self.old size result self.new (λ p. p ≡ self.old.place) }
    {
        let place = self.place;
        let length = self.image.len();
        if length - place < size {
            return Err(EndsEarly { length });
        }
        self.place = place + size;
        Ok(place)
    }

    // Goes over `entries` entries of one byte, whatever they are.
    pub(crate) fn skip(&mut self, entries: usize) -> Result<(), EndsEarly>
        ensures { Passed self.old entries result self.new (λ _. Unit {0}) }
    {
        self.pass(entries)?;
        Ok(())
    }

    // An entry of one byte.
    pub(crate) fn byte(&mut self) -> Result<Number, EndsEarly>
        ensures { Passed self.old 1 result self.new (λ n. n ≡ record { place = self.old.place; value = slice_index self.old.image self.old.place }) }
    {
        let place = self.pass(1)?;
        let value = self.image[place] as usize;
        Ok(Number { place, value })
    }

    // A count: two bytes, the high byte first, joined by the numbers' own method, which no function of one byte has.
    pub(crate) fn count(&mut self) -> Result<Number, EndsEarly>
        ensures { Passed self.old 2 result self.new (λ n. n ≡ record { place = self.old.place; value = count_at self.old.image self.old.place }) }
    {
        let place = self.pass(2)?;
        let value = u16::from_be_bytes([self.image[place], self.image[place + 1]]) as usize;
        Ok(Number { place, value })
    }
}
