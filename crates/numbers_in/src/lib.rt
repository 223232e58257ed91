// The numbers that a program is given as text, one a line: `n=` and the number. The demos of rows and of batches read them.
#![tactic(auto)]

ghost use Rattle.std.specs.Prelude.{◌≡◌};
ghost use Rattle.numbers_in.specs.Numbers.{number_at, past_of};

// A text, and the place of the line that is read next.
#[derive(Drop)]
pub struct Numbers<'a> {
    text: &'a [u8],
    at: usize,
}

impl<'a> Numbers<'a> {
    pub fn new(text: &'a [u8]) -> Numbers<'a>
        ensures { result ≡ record { text = text.entry; at = 0 } }
    {
        Numbers { text, at: 0 }
    }

    // The next number. Where no line of a number stands, it is 0, and so is every later one.
    pub fn next_number(&mut self) -> u64
        ensures value { result ≡ number_at self.old.text.now self.old.at }
        ensures after { self.new ≡ record { text = self.old.text; at = past_of self.old.text.now self.old.at } }
    {
        // No `Option`: who asks takes none as 0.
        let Some((number, past)) = text::field_at(self.text, self.at, b"n=", u64::MAX) else {
            return 0;
        };
        self.at = past;
        number
    }
}
