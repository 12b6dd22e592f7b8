// INNER: a page, and the parts that are put to it: a byte, a word, a number, labels, a field, a path.
ghost use Rattle.std.specs.Prelude.{◌≡◌, true, [], ◌∷◌, ℕ, suc, ◌+◌, ◌≤◌, ◌<◌, ◌^◌, length};
ghost use Rattle.cells.specs.Cell.{proper};
ghost use Rattle.text.specs.Text.{digits, labels, field};
ghost use Rattle.text.specs.Inner.{Puts, longest_number, longest_labels, longest_path, Labelled, path_line};

// Text put to a lent buffer, and the place after it. A byte past the buffer's end is counted and not written, so a text is counted by putting it to the empty part
// of a buffer.
#[derive(Drop)]
pub struct Page<'a> {
    bytes: &'a mut [u8],
    at: usize,
}

impl<'a> Page<'a> {
    // The front of a buffer, with nothing put.
    pub fn new(bytes: &'a mut [u8]) -> Page<'a>
        ensures same { result.bytes.ghost_name ≡ bytes.entry.ghost_name }
        ensures bytes { result.bytes.now ≡ bytes.old }
        ensures place { result.at ≡ 0 }
    {
        Page { bytes, at: 0 }
    }

    // The place after the text.
    pub fn place(&self) -> usize
        ensures { result ≡ self.now.at }
    {
        self.at
    }

    // A byte.
    pub fn put(&mut self, byte: u8)
        requires { self.old.at + 1 < 2 ^ 64 }
        ensures same { self.new.bytes.ghost_name ≡ self.old.bytes.ghost_name }
        ensures text { Puts self.old (byte ∷ []) self.new }
    {
        let at = self.at;
        if at < self.bytes.len() {
            self.bytes[at] = byte;
        }
        self.at = at + 1;
    }

    // A word.
    pub fn put_word(&mut self, word: &[u8])
        requires { self.old.at + length word.now < 2 ^ 64 }
        ensures same { self.new.bytes.ghost_name ≡ self.old.bytes.ghost_name }
        ensures text { Puts self.old word.now self.new }
    {
        for byte in word {
            self.put(*byte);
        }
    }

    // A number in decimal.
    pub fn put_decimal(&mut self, n: u64)
        requires { self.old.at + longest_number < 2 ^ 64 }
        ensures same { self.new.bytes.ghost_name ≡ self.old.bytes.ghost_name }
        ensures text { (f : ℕ) → n < 10 ^ suc f → Puts self.old (digits 10 f n) self.new }
    {
        if n < 10 {
            self.put(b'0' + n as u8);
            return;
        }
        self.put_decimal(n / 10);
        self.put(b'0' + (n % 10) as u8);
    }

    // The labels of a code, outermost first.
    pub fn put_labels(&mut self, code: u32)
        requires { self.old.at + longest_labels < 2 ^ 64 }
        ensures same { self.new.bytes.ghost_name ≡ self.old.bytes.ghost_name }
        ensures text { (k i : ℕ) → Labelled code k i → Puts self.old (labels k i) self.new }
        ensures near { (f : ℕ) → code < 8 ^ suc f → self.new.at ≤ self.old.at + f }
    {
        if code < 8 {
            return;
        }
        self.put_labels(code / 8);
        self.put(b'0' + (code % 8) as u8);
    }

    // A word and a number.
    pub fn put_field(&mut self, word: &[u8], n: u64)
        requires { self.old.at + length word.now + longest_number < 2 ^ 64 }
        ensures same { self.new.bytes.ghost_name ≡ self.old.bytes.ghost_name }
        ensures text { Puts self.old (field word.now n) self.new }
        ensures near { self.new.at ≤ self.old.at + length word.now + longest_number }
    {
        self.put_word(word);
        self.put_decimal(n);
    }

    // The line of a code's path.
    pub fn put_path(&mut self, code: u32)
        requires { self.old.at + longest_path < 2 ^ 64 }
        ensures same { self.new.bytes.ghost_name ≡ self.old.bytes.ghost_name }
        ensures text { (D : ℕ) → proper D code ≡ true → Puts self.old (path_line D code) self.new }
        ensures near { self.new.at ≤ self.old.at + longest_path }
    {
        self.put(b'r');
        self.put_labels(code);
        self.put(b'\n');
    }
}
