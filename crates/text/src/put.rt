// Texts and numbers put into lent buffers.
ghost use Rattle.std.specs.Prelude.{◌++◌, ◌∷◌, [], ◌+◌, ◌≤◌, length};
ghost use Rattle.text.specs.Bytes.{decimal};
ghost use Rattle.text.specs.Buffers.{Put, HasRoom, Wrote};

// A lent buffer, and where in it the next text is put.
#[derive(Drop)]
pub struct Writer<'a> {
    pub out: &'a mut [u8],
    pub at: usize,
}

impl Writer<'_> {
    pub fn put(&mut self, text: &[u8])
        requires { HasRoom self.old text.now }
        ensures { Wrote self.old text.now self.new }
    {
        let end = self.at + text.len();
        self.out[self.at..end].copy_from_slice(text);
        self.at = end;
    }

    // A number's digits.
    pub fn put_number(&mut self, n: u64)
        requires { HasRoom self.old (decimal n) }
        ensures { Wrote self.old (decimal n) self.new }
    {
        let mut digits = [0u8; 20];
        let k = io::decimal(n, &mut digits);
        self.put(&digits[..k]);
    }

    // A line of one number; the key comes with its `=`.
    pub fn put_number_line(&mut self, key: &[u8], n: u64)
        requires { HasRoom self.old (key.now ++ (decimal n ++ (10 ∷ []))) }
        ensures { Wrote self.old (key.now ++ (decimal n ++ (10 ∷ []))) self.new }
    {
        self.put(key);
        self.put_number(n);
        self.put(b"\n");
    }
}

// Puts a text at `at` into out, and answers where it ends.
pub fn put(out: &mut [u8], at: usize, text: &[u8]) -> usize
    requires { at + length text.now ≤ length out.old }
    ensures { Put out.old at text.now out.new result }
{
    let mut w = Writer { out, at };
    w.put(text);
    w.at
}
