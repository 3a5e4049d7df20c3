// Text into a lent buffer: bytes, decimal numbers and the two kinds of line that a played session prints.

#![tactic(auto)]

ghost use Rattle.std.specs.Prelude.{◌<◌, ◌≡◌, [], ◌∷◌};
ghost use Rattle.session_text.specs.Text.{digits, line, word_line};

// A lent buffer, and the place where the next byte goes. It is counted past the buffer's end too, as C's snprintf does. So nothing bounds
// the place, and a bound stays a clause: each method puts another number of bytes.
#[derive(Drop)]
pub struct Out<'a> {
    pub buffer: &'a mut [u8],
    pub at: usize,
}

impl<'a> Out<'a> {
    ghost use Rattle.session_text.specs.Out.{Puts};

    // Stores a byte, if the buffer reaches so far.
    pub fn put_byte(&mut self, b: u8)
        requires { self.old.at < 4000000000 }
        ensures { Puts 1 self.old self.new (b ∷ []) }
    {
        if self.at < self.buffer.len() {
            self.buffer[self.at] = b;
        }
        self.at += 1;
    }

    // Stores a number in decimal, without leading zeros: first all digits but the last, then the last. It stays by hand: it counts on
    // past the buffer's end, as snprintf does, and there is no heap.
    pub fn put_number(&mut self, n: u32)
        requires { self.old.at < 2000000000 }
        ensures { Puts 10 self.old self.new (digits n) }
    {
        if n < 10 {
            self.put_byte((48 + n) as u8);
        } else {
            self.put_number(n / 10);
            self.put_byte((48 + n % 10) as u8);
        }
    }

    // §12.3: stores the line of a record.
    pub fn put_line(&mut self, index: u32, number: u32, value: u32)
        requires { self.old.at < 1500000000 }
        ensures { Puts 33 self.old self.new (line index number value) }
    {
        self.put_number(index);
        self.put_byte(b' ');
        self.put_number(number);
        self.put_byte(b' ');
        self.put_number(value);
        self.put_byte(b'\n');
    }

    // §12.6: stores the line of an address.
    pub fn put_word_line(&mut self, address: u32, value: u32, version: u32)
        requires { self.old.at < 1000000000 }
        ensures { Puts 35 self.old self.new (word_line address value version) }
    {
        self.put_byte(b'w');
        self.put_byte(b' ');
        self.put_line(address, value, version);
    }
}
