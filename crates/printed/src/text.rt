// Text into an output, from the front and as far as the output goes.
ghost use Rattle.std.specs.Prelude.{◌≡◌, ◌∷◌, ◌++◌, ◌+◌, min};
ghost use Rattle.printed.specs.Placing.{last_place};
ghost use Rattle.printed.specs.Text.{decimal};

// The output, and the place after what was put: past the output's end too, so that an output of no bytes measures a text.
#[derive(Drop)]
pub(crate) struct Text<'a> {
    pub(crate) out: &'a mut [u8],
    pub(crate) at: usize,
}

impl<'a> Text<'a> {
    ghost use Rattle.printed.specs.Writing.{Puts};

    // A word.
    pub(crate) fn put(&mut self, word: &[u8])
        ensures { Puts self.old self.new word.now }
    {
        let start = self.at;
        self.at = start.saturating_add(word.len());
        if start <= self.out.len() {
            octets::copy(word, &mut self.out[start..]);
        }
    }

    // A word, and right after it a number in decimal. By hand: the contract says each digit.
    pub(crate) fn put_number(&mut self, word: &[u8], n: u8)
        ensures { Puts self.old self.new (word.now ++ decimal n) }
    {
        self.put(word);
        let digits = [48 + n / 100, 48 + n / 10 % 10, 48 + n % 10];
        if n < 10 {
            self.put(&digits[2..]);
        } else if n < 100 {
            self.put(&digits[1..]);
        } else {
            self.put(&digits);
        }
    }

    // Two numbers in decimal, each after a space.
    pub(crate) fn put_two(&mut self, a: u8, b: u8)
        ensures { Puts self.old self.new (32 ∷ (decimal a ++ (32 ∷ decimal b))) }
    {
        self.put_number(b" ", a);
        self.put_number(b" ", b);
    }
}
