// Text in a lent buffer: bytes as they are, numbers in decimal, the line of a refusal and bytes in base sixteen (document 01, section
// Worked table). A page is the buffer with how far it is written. Each call writes its piece there, where there is room for it.
#![tactic(auto)]

ghost use Rattle.std.specs.Prelude.{[], ◌∷◌, ◌≡◌, ◌+◌, ◌*◌, ◌≤◌, ◌<◌, length};
ghost use Rattle.text.specs.Page.{Writes, WritesWithin};
ghost use Rattle.text.specs.Text.{digit, decimal, signed, named, refusal, hex_digit, hex, hexes};

// A lent text that is written up to `end`, where the next piece goes.
#[derive(Drop)]
pub struct Page<'a> {
    pub text: &'a mut [u8],
    pub end: usize,
}

// A decimal digit.
fn digit(d: usize) -> u8
    requires { d < 10 }
    ensures { result ≡ digit d }
{
    b'0' + d as u8
}

// A digit of base sixteen, with the letters in upper case.
#[tactic(auto, unfolding(crate::specs::Text::hex_digit))]
fn hex_digit(d: u8) -> u8
    requires { d < 16 }
    ensures { result ≡ hex_digit d }
{
    if d < 10 { b'0' + d } else { b'A' - 10 + d }
}

impl Page<'_> {
    // Writes the bytes of a piece.
    pub fn put(&mut self, piece: &[u8])
        requires { self.old.end + length piece.now ≤ length self.old.text.now }
        ensures { Writes piece.now self.old self.new }
    {
        let end = self.end + piece.len();
        self.text[self.end..end].copy_from_slice(piece);
        self.end = end;
    }

    // Writes one byte.
    pub fn put_byte(&mut self, byte: u8)
        requires { self.old.end < length self.old.text.now }
        ensures { Writes (byte ∷ []) self.old self.new }
    {
        self.text[self.end] = byte;
        self.end += 1;
    }

    // Writes a number in decimal, without leading zeros: what stands before its last digit, and that digit.
    pub fn put_decimal(&mut self, n: usize)
        requires { self.old.end + length (decimal n) ≤ length self.old.text.now }
        ensures { Writes (decimal n) self.old self.new }
    {
        if n >= 10 {
            self.put_decimal(n / 10);
        }
        self.put_byte(digit(n % 10));
    }

    // Writes a signed number of 32 bits, which is lent as its bits, with a minus sign where it is negative.
    pub fn put_signed(&mut self, n: u32)
        requires { self.old.end + length (signed n) ≤ length self.old.text.now }
        ensures { Writes (signed n) self.old self.new }
    {
        let size = n as usize;
        if size < 2147483648 {
            self.put_decimal(size);
            return;
        }
        self.put_byte(b'-');
        self.put_decimal(4294967296 - size);
    }

    // Writes what a number below 100,000 is, and the number.
    pub fn put_named(&mut self, name: &[u8], n: usize)
        requires { (n < 100000) × (self.old.end + length name.now + 5 ≤ length self.old.text.now) }
        ensures { WritesWithin (length name.now + 5) (named name.now n) self.old self.new }
    {
        self.put(name);
        self.put_decimal(n);
    }

    // Writes the line of a refusal by its number, which is what is written: the text knows no reasons.
    #[tactic(auto, using(crate::specs::Page::writes_then), unfolding(crate::specs::Text::refusal))]
    pub fn put_refusal(&mut self, number: u8)
        requires { self.old.end + 14 ≤ length self.old.text.now }
        ensures { Writes (refusal number) self.old self.new }
    {
        self.put_named(b"refused ", usize::from(number));
        self.put_byte(b'\n');
    }

    // Writes a byte as two digits of base sixteen.
    #[tactic(auto, using(crate::specs::Page::writes_then), unfolding(crate::specs::Text::hex))]
    fn put_hex(&mut self, byte: u8)
        requires { self.old.end + 2 ≤ length self.old.text.now }
        ensures { Writes (hex byte) self.old self.new }
    {
        self.put_byte(hex_digit(byte / 16));
        self.put_byte(hex_digit(byte % 16));
    }

    // Writes each byte so, on a page of its own: stored through `self`, each digit would wait until `end` is stored for the one before it.
    pub fn put_hexes(&mut self, bytes: &[u8])
        requires { self.old.end + 2 * length bytes.now ≤ length self.old.text.now }
        ensures { WritesWithin (2 * length bytes.now) (hexes bytes.now) self.old self.new }
    {
        let mut page = Page {
            text: self.text,
            end: self.end,
        };
        for byte in bytes {
            page.put_hex(*byte);
        }
        self.end = page.end;
    }
}
