// Text in a lent output. What lies past the output's end is not written and still counts, so that the same walk measures a
// listing and writes it. Not `write!`: its Result would have to be handled where nothing fails.
ghost use Rattle.std.specs.Prelude.{◌≡◌, [], ◌∷◌, ◌+◌, ◌≤◌, ◌<◌, ◌^◌, length};
ghost use Rattle.io.specs.Digits as digits;
ghost use Rattle.replay.specs.Text as spec;

// A lent output, and the place where the next text goes. Each `requires` leaves the place the room that its own text needs, so that no
// one fact of the type would do for all. So it is with the lengths below 2 ^ 32 of file, bytes and text in event.rt, lent.rt and walk.rt.
#[derive(Drop)]
pub(crate) struct Writer<'a> {
    pub(crate) out: &'a mut [u8],
    pub(crate) at: usize,
}

impl<'a> Writer<'a> {
    // A writer of this output, from a place on.
    pub(crate) fn new(out: &'a mut [u8], at: usize) -> Writer<'a>
        ensures same_output { result.out.ghost_name ≡ out.entry.ghost_name }
        ensures held { spec.held_by result ≡ spec.output at out.old }
    {
        Writer { out, at }
    }

    // A byte.
    pub(crate) fn put(&mut self, byte: u8)
        requires { self.old.at < 2 ^ 63 }
        ensures text { spec.Writes self.old self.new (byte ∷ []) }
        ensures at { self.new.at ≡ self.old.at + 1 }
    {
        if self.at < self.out.len() {
            self.out[self.at] = byte;
        }
        self.at += 1;
    }

    // Some bytes.
    pub(crate) fn put_some(&mut self, text: &[u8])
        requires { self.old.at + length text.now < 2 ^ 63 }
        ensures text { spec.Writes self.old self.new text.now }
        ensures at { self.new.at ≡ self.old.at + length text.now }
    {
        for byte in text {
            self.put(*byte);
        }
    }

    // A space and a byte.
    pub(crate) fn put_letter(&mut self, letter: u8)
        requires { self.old.at < 2 ^ 62 }
        ensures text { spec.Writes self.old self.new (spec.spaced (letter ∷ [])) }
        ensures at { self.new.at ≤ self.old.at + 2 }
    {
        self.put(b' ');
        self.put(letter);
    }

    // A number in decimal.
    pub(crate) fn put_decimal(&mut self, n: u64)
        requires { self.old.at < 2 ^ 62 }
        ensures text { spec.Writes self.old self.new (spec.decimal n) }
        ensures at { self.new.at ≤ self.old.at + 20 }
    {
        let mut digits = [0u8; 20];
        let k = io::decimal(n, &mut digits);
        self.put_some(&digits[..k]);
    }

    // A space and a number in decimal.
    pub(crate) fn put_number(&mut self, n: u64)
        requires { self.old.at < 2 ^ 61 }
        ensures text { spec.Writes self.old self.new (spec.spaced (spec.decimal n)) }
        ensures at { self.new.at ≤ self.old.at + 21 }
    {
        self.put(b' ');
        self.put_decimal(n);
    }

    // A space and a byte in two hexadecimal digits.
    pub(crate) fn put_hex(&mut self, byte: u8)
        requires { self.old.at < 2 ^ 62 }
        ensures text { spec.Writes self.old self.new (spec.spaced (spec.hex byte)) }
        ensures at { self.new.at ≤ self.old.at + 3 }
    {
        self.put_letter(hex_digit(byte / 16));
        self.put(hex_digit(byte % 16));
    }
}

// A hexadecimal digit, in lower case.
fn hex_digit(d: u8) -> u8
    requires { d < 16 }
    ensures { result ≡ digits.hex_digit_ascii d }
{
    if d < 10 { b'0' + d } else { b'a' - 10 + d }
}
