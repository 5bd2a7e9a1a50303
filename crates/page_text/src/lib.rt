// Text into a lent buffer: a page is the buffer and the place where its text ends so far. Each method puts its text there and leaves the rest of the buffer
// as it was. The caller sees that there is room.
#![tactic(auto)]

ghost use Rattle.std.specs.Prelude.{◌≡◌, [], ◌∷◌, ◌++◌, ◌+◌, ◌≤◌, ◌<◌, length};
ghost use Rattle.page_text.specs.Decimal.{decimal};
ghost use Rattle.page_text.specs.Put.{Put};

// (Each method says that the buffer is the same one: it is lent to the struct, and another could stand there after a call.)
#[derive(Drop)]
pub struct Page<'a> {
    pub out: &'a mut [u8],
    pub at: usize,
}

impl<'a> Page<'a> {
    // One byte.
    pub fn put_byte(&mut self, b: u8)
        requires { self.old.at < length self.old.out.now }
        ensures same_buffer { self.new.out.ghost_name ≡ self.old.out.ghost_name }
        ensures put { Put self.old.out.now self.new.out.now self.old.at (b ∷ []) self.new.at }
    {
        self.out[self.at] = b;
        self.at += 1;
    }

    // The bytes of a word, as b"profit ".
    pub fn put_word(&mut self, word: &[u8])
        requires { self.old.at + length word.now ≤ length self.old.out.now }
        ensures same_buffer { self.new.out.ghost_name ≡ self.old.out.ghost_name }
        ensures put { Put self.old.out.now self.new.out.now self.old.at word.now self.new.at }
    {
        let next = self.at + word.len();
        self.out[self.at..next].copy_from_slice(word);
        self.at = next;
    }

    // A number in decimal, with no leading zero. (No Display: each byte's place in the buffer is promised.)
    pub fn put_decimal(&mut self, n: usize)
        requires { self.old.at + length (decimal n) ≤ length self.old.out.now }
        ensures same_buffer { self.new.out.ghost_name ≡ self.old.out.ghost_name }
        ensures put { Put self.old.out.now self.new.out.now self.old.at (decimal n) self.new.at }
    {
        if n < 10 {
            self.put_byte(48 + n as u8);
            return;
        }
        self.put_decimal(n / 10);
        self.put_byte(48 + (n % 10) as u8);
    }

    // A number and the byte that ends it, as a space or a line feed.
    pub fn put_number(&mut self, n: usize, end: u8)
        requires { self.old.at + length (decimal n) < length self.old.out.now }
        ensures same_buffer { self.new.out.ghost_name ≡ self.old.out.ghost_name }
        ensures put { Put self.old.out.now self.new.out.now self.old.at (decimal n ++ (end ∷ [])) self.new.at }
    {
        self.put_decimal(n);
        self.put_byte(end);
    }
}
