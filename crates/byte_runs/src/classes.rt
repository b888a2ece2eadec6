// Classes of bytes that a run goes over, each by a test of the byte that ends the run.
ghost use Rattle.std.specs.Prelude.{◌≡◌, ℕ, Bool, not};
ghost use Rattle.byte_runs.specs.Runs.{other, apart, plain, blank};

use crate::runs::ASCII_END;

// A class of bytes. Its test makes no branch, hence `|` and `&`, and finds what is not of the class: so the tests of a block are put together
// by `|` alone.
pub trait ByteClass: Copy {
    ghost passes: { Self → ℕ → Bool };

    // Whether a byte ends a run of the class.
    fn ends(self, c: u8) -> bool
        ensures { result ≡ not (passes self c) };
}

// The bytes that are not this one.
#[derive(Clone, Copy)]
pub struct Other(pub u8);

impl ByteClass for Other {
    ghost passes = { λ s c. other s.0 c };

    fn ends(self, c: u8) -> bool {
        c == self.0
    }
}

// The bytes that are neither of two.
#[derive(Clone, Copy)]
pub struct Apart(pub u8, pub u8);

impl ByteClass for Apart {
    ghost passes = { λ s c. apart s.0 s.1 c };

    fn ends(self, c: u8) -> bool {
        (c == self.0) | (c == self.1)
    }
}

// The characters of ASCII that are neither of two.
#[derive(Clone, Copy)]
pub struct Plain(pub u8, pub u8);

impl ByteClass for Plain {
    ghost passes = { λ s c. plain s.0 s.1 c };

    fn ends(self, c: u8) -> bool {
        (ASCII_END <= c) | (c == self.0) | (c == self.1)
    }
}

// The blanks of ASCII.
#[derive(Clone, Copy)]
pub struct Blank;

impl ByteClass for Blank {
    ghost passes = { λ s c. blank c };

    fn ends(self, c: u8) -> bool {
        !((c == b' ') | ((b'\t' <= c) & (c <= b'\r')))
    }
}
