//! Where a walk reads the words of an image.

ghost use Rattle.std.specs.Prelude.{◌≡◌, ℕ, List, slice_index};

/// A source of the words of an image. What is read between two changes of the seat are words of one image.
pub trait WordSource {
    /// What a reader shows when it reads.
    type Seat;

    ghost may: { Self → Self.Seat → Type 0 };

    ghost image: { Self → Self.Seat → List ℕ };

    /// The word of the image, and 0 outside it.
    fn word(&self, seat: &mut Self::Seat, at: usize) -> u64
        requires { may self.now seat.old }
        ensures word { result ≡ slice_index (image self.now seat.old) at }
        ensures same { seat.new ≡ seat.old };
}

/// An image that lies in a slice.
#[derive(Clone, Copy, Debug)]
pub struct SliceWords<'a> {
    pub words: &'a [u64],
}

impl<'a> WordSource for SliceWords<'a> {
    type Seat = ();

    ghost may = { λ from seat. Unit {0} };

    ghost image = { λ from seat. from.words.now };

    #[inline(always)]
    fn word(&self, _seat: &mut (), at: usize) -> u64 {
        self.words.get(at).copied().unwrap_or(0)
    }
}
