// A number as an entry of a column: read from its bytes, the lowest first, and put into them, for each type of entry.
ghost use Rattle.std.specs.Prelude.{◌≡◌, List, [], ◌∷◌, ℕ, ◌+◌, ◌≤◌, length};
ghost use Rattle.meaning.specs.Bytes.{byte, two, four, signed, pair, quad, bits};
ghost use Rattle.numbers.specs.Put.{Put};

pub trait Field: Copy {
    // How many bytes it takes.
    ghost width: { ℕ };

    // The number that the bytes from a place on spell.
    ghost spelled: { List ℕ → ℕ → Self };

    // The bytes of a number.
    ghost bytes: { Self → List ℕ };

    // The number that stands at a place.
    fn read(s: &[u8], at: usize) -> Self
        requires { at + width ≤ length s.now }
        ensures { result ≡ spelled s.now at };

    // The number put at a place.
    fn put(self, s: &mut [u8], at: usize)
        requires { at + width ≤ length s.old }
        ensures { Put s.old at (bytes self) s.new };
}

impl Field for u8 {
    ghost width = { 1 };

    ghost spelled = { byte };

    ghost bytes = { λ x. x ∷ [] };

    fn read(s: &[u8], at: usize) -> u8 {
        s[at]
    }

    fn put(self, s: &mut [u8], at: usize) {
        s[at] = self;
    }
}

impl Field for u16 {
    ghost width = { 2 };

    ghost spelled = { two };

    ghost bytes = { pair };

    fn read(s: &[u8], at: usize) -> u16 {
        crate::two_at(s, at)
    }

    fn put(self, s: &mut [u8], at: usize) {
        s[at..at + 2].copy_from_slice(&self.to_le_bytes());
    }
}

impl Field for u32 {
    ghost width = { 4 };

    ghost spelled = { four };

    ghost bytes = { quad };

    fn read(s: &[u8], at: usize) -> u32 {
        crate::four_at(s, at)
    }

    #[tactic(auto, using(crate::proofs::Stores::copied))]
    fn put(self, s: &mut [u8], at: usize) {
        s[at..at + 4].copy_from_slice(&self.to_le_bytes());
    }
}

impl Field for i32 {
    ghost width = { 4 };

    ghost spelled = { λ s at. signed (four s at) };

    ghost bytes = { λ z. quad (bits z) };

    fn read(s: &[u8], at: usize) -> i32 {
        crate::signed_at(s, at)
    }

    fn put(self, s: &mut [u8], at: usize) {
        crate::bits_of(self).put(s, at);
    }
}
