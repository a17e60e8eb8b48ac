// Text written into lent bytes at growing places: a writer holds the bytes, and the place where the next text goes. Read next: specs/Lib.antt.
#![tactic(auto)]

ghost use Rattle.std.specs.Prelude.{◌≡◌, ◌∷◌, [], ◌<◌};
ghost use Rattle.text.specs.Decimal.{digit, decimal};
ghost use Rattle.text.specs.Pieces.{labelled, spaced, name, names};
ghost use Rattle.text.specs.Writing.{Fits, with_text};

// Lent bytes, and the place in them where the next text goes.
#[derive(Drop)]
pub struct Writer<'a> {
    room: &'a mut [u8],
    place: usize,
}

impl<'a> Writer<'a> {
    // A writer whose first text goes to the place.
    pub fn new(room: &'a mut [u8], place: usize) -> Writer<'a>
        ensures room { result.room ≡ room.entry }
        ensures place { result.place ≡ place }
    {
        Writer { room, place }
    }

    // The place after all that was written.
    pub fn place(&self) -> usize
        ensures { result ≡ self.now.place }
    {
        self.place
    }

    // A word.
    pub fn word(&mut self, word: &[u8])
        requires { Fits self.old word.now }
        ensures { self.new ≡ with_text self.old word.now }
    {
        let end = self.place + word.len();
        self.room[self.place..end].copy_from_slice(word);
        self.place = end;
    }

    // One digit.
    #[tactic(auto, unfolding(crate::specs::Writing::with_text))]
    fn digit(&mut self, d: usize)
        requires d_bound { d < 10 }
        requires fits { Fits self.old (digit d ∷ []) }
        ensures { self.new ≡ with_text self.old (digit d ∷ []) }
    {
        self.room[self.place] = b'0' + d as u8;
        self.place += 1;
    }

    // A number in decimal.
    pub fn number(&mut self, n: usize)
        requires { Fits self.old (decimal n) }
        ensures { self.new ≡ with_text self.old (decimal n) }
    {
        if n < 10 {
            self.digit(n);
            return;
        }
        self.number(n / 10);
        self.digit(n % 10);
    }

    // A word and a number in decimal after it.
    #[tactic(auto, using(crate::proofs::Writing::parts))]
    pub fn labelled(&mut self, word: &[u8], n: usize)
        requires { Fits self.old (labelled word.now n) }
        ensures { self.new ≡ with_text self.old (labelled word.now n) }
    {
        self.word(word);
        self.number(n);
    }

    // Numbers in decimal, each after one blank.
    pub fn numbers(&mut self, numbers: &[u16])
        requires { Fits self.old (spaced numbers.now) }
        ensures { self.new ≡ with_text self.old (spaced numbers.now) }
    {
        for &number in numbers {
            self.labelled(b" ", number as usize);
        }
    }

    // The name of the variable of an index.
    fn name(&mut self, index: u16)
        requires { Fits self.old (name index) }
        ensures { self.new ≡ with_text self.old (name index) }
    {
        self.labelled(b"x", index as usize);
    }

    // The names of variables, by their indices, with a text between two.
    pub fn names(&mut self, between: &[u8], indices: &[u16])
        requires { Fits self.old (names between.now indices.now) }
        ensures { self.new ≡ with_text self.old (names between.now indices.now) }
    {
        let Some((&first, rest)) = indices.split_first() else {
            return;
        };
        self.name(first);
        for &index in rest {
            self.word(between);
            self.name(index);
        }
    }
}
