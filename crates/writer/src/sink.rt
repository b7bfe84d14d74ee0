// Where bytes are put one behind the other: they are counted, or written to the front of a lent buffer. So one function measures what is to be written, and
// writes it.
ghost use Rattle.std.specs.Prelude.{List, [], ◌∷◌, ◌++◌, ℕ, ◌+◌, ◌-◌, ◌≤◌, length, ◌≡◌};
ghost use Rattle.std.proofs.Common.{refl, ◌∙◌};
ghost use Rattle.spelling.specs.Sinks.{Counted, Written, most};
ghost use Rattle.spelling.proofs.Sinks.{count_left, count_more, count_nothing, write_left, write_more, write_nothing};

pub trait Sink {
    // How many more bytes it takes.
    ghost room: { Self → ℕ };

    // What it is before and after these bytes are put.
    ghost puts: { Self → List ℕ → Self → Type 0 };

    fn put(&mut self, byte: u8)
        requires { 1 ≤ room self.old }
        ensures { puts self.old (byte ∷ []) self.new };

    ghost nothing: { (s : Self) → puts s [] s };

    ghost more: { (s t u : Self) (v w : List ℕ) → puts s v t → puts t w u → puts s (v ++ w) u };

    ghost left: { (s t : Self) (w : List ℕ) → puts s w t → room s ≡ length w + room t };
}

// How many bytes were put.
#[derive(Drop)]
pub struct Count {
    pub bytes: usize,
}

impl Sink for Count {
    ghost room = { λ s. most - s.bytes };

    ghost puts = { λ s w t. Counted s.bytes w t.bytes };

    fn put(&mut self, _byte: u8) {
        self.bytes += 1;
    }

    ghost nothing = { λ s. count_nothing s.bytes };

    ghost more = { λ s t u v w. count_more };

    ghost left = { λ s t w. count_left };
}

// The front of a buffer, and the place up to which it is written.
#[derive(Drop)]
pub struct Front<'a> {
    pub out: &'a mut [u8],
    pub at: usize,
}

impl<'a> Sink for Front<'a> {
    ghost room = { λ s. length s.out.now - s.at };

    ghost puts = { λ s w t. Written s.out.now s.at w t.out.now t.at × (t.out.ghost_name ≡ s.out.ghost_name) };

    fn put(&mut self, byte: u8) {
        self.out[self.at] = byte;
        self.at += 1;
    }

    ghost nothing = { λ s. (write_nothing s.out.now s.at, refl) };

    ghost more = { λ s t u v w p q. (write_more p.0 q.0, q.1 ∙ p.1) };

    ghost left = { λ s t w p. write_left p.0 };
}
