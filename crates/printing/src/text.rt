// Text that is written into a lent slice.
ghost use Rattle.std.specs.Prelude.{◌≡◌, [], ◌∷◌, ◌+◌, ◌-◌, ◌<◌, ◌≤◌, length, take};
ghost use Rattle.machine.specs.Text.{decimal};
ghost use Rattle.printing.specs.Writing.{Adds, HasRoom};

// What is written stands in the first bytes, so many as `filled` says. No invariant: each function asks for the room that its
// text takes, and so for that of no text where it writes none.
#[derive(Drop)]
pub struct Text<'a> {
    bytes: &'a mut [u8],
    filled: usize,
}

impl<'a> Text<'a> {
    // Nothing is written yet.
    pub fn new(bytes: &'a mut [u8]) -> Text<'a>
        ensures same_slice { result.bytes.ghost_name ≡ bytes.entry.ghost_name }
        ensures bytes { result.bytes.now ≡ bytes.old }
        ensures filled { result.filled ≡ 0 }
    {
        Text { bytes, filled: 0 }
    }

    pub fn written(&self) -> &[u8]
        requires { HasRoom 0 self.now }
        ensures { result.now ≡ take self.now.filled self.now.bytes.now }
    {
        &self.bytes[..self.filled]
    }

    // How many more bytes fit.
    pub fn room(&self) -> usize
        requires { HasRoom 0 self.now }
        ensures { result ≡ length self.now.bytes.now - self.now.filled }
    {
        self.bytes.len() - self.filled
    }

    pub(crate) fn put(&mut self, character: u8)
        requires { HasRoom 1 self.old }
        ensures { Adds (character ∷ []) self.old self.new }
    {
        self.bytes[self.filled] = character;
        self.filled += 1;
    }

    pub(crate) fn put_text(&mut self, text: &[u8])
        requires { HasRoom (length text.now) self.old }
        ensures { Adds text.now self.old self.new }
    {
        let end = self.filled + text.len();
        self.bytes[self.filled..end].copy_from_slice(text);
        self.filled = end;
    }

    // The decimal digits of a number, byte by byte as `Text.decimal` has them. Not by `Display`: `fmt` promises what it wrote only where it
    // answers Ok, and nothing says that it does, while this cannot fail; nor by another library, since the crates use `std` alone (README).
    pub(crate) fn put_decimal(&mut self, n: u64)
        requires { HasRoom (length (decimal n)) self.old }
        ensures { Adds (decimal n) self.old self.new }
    {
        if n >= 10 {
            self.put_decimal(n / 10);
        }
        self.put(digit(n % 10));
    }

    // A character, and the decimal digits of a number.
    pub(crate) fn put_number(&mut self, character: u8, n: u64)
        requires { HasRoom (1 + length (decimal n)) self.old }
        ensures { Adds (character ∷ decimal n) self.old self.new }
    {
        self.put(character);
        self.put_decimal(n);
    }
}

// A number below 10 fits a byte, and is cast: `try_from` would give a Result that cannot fail here, to be unwrapped by the same fact.
fn digit(n: u64) -> u8
    requires { n < 10 }
    ensures { result ≡ 48 + n }
{
    b'0' + n as u8
}
