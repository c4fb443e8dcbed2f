ghost use Rattle.std.specs.Prelude.{◌≡◌, ◌+◌, ◌≤◌, ◌==◌, ◌||◌, false, leb};
ghost use Rattle.std.specs.List.{fold};

// The identities of a message: those given, in order, and those ended, in order. Memory is fixed: a message has at most 64.
#[derive(Drop)]
pub struct Identities {
    given: [u32; 64],
    ended: [u32; 64],
    given_count: usize,
    ended_count: usize,
    ghost few: { given_count ≤ 64 },
    ghost some: { ended_count ≤ given_count },
}

// Whether x is among the numbers. No branch out of the loop: `contains`, which has some, takes longer over at most 64.
fn among(numbers: &[u32], x: u32) -> bool
    ensures { result ≡ fold (λ found y. found || (y == x)) false numbers.now }
{
    numbers.iter().fold(false, |found, y| found | (*y == x))
}

impl Identities {
    ghost use Rattle.format.specs.Values.{has};
    ghost use Rattle.measure.specs.Identities.{one, listed, Begun, Closed};

    // None yet.
    pub fn new() -> Self
        ensures given { result.given_count ≡ 0 }
        ensures ended { result.ended_count ≡ 0 }
    {
        Identities {
            given: [0; 64],
            ended: [0; 64],
            given_count: 0,
            ended_count: 0,
        }
    }

    // An identity is given, if a value gives one.
    pub fn open(&mut self, id: Option<u32>)
        requires { self.old.given_count + one id ≤ 64 }
        ensures { Begun self.old id self.new }
    {
        if let Some(x) = id {
            self.given[self.given_count] = x;
            self.given_count += 1;
        }
    }

    // The value of an identity has ended, if it is one.
    pub fn close(&mut self, id: Option<u32>)
        requires { self.old.ended_count + one id ≤ self.old.given_count }
        ensures { Closed self.old id self.new }
    {
        if let Some(x) = id {
            self.ended[self.ended_count] = x;
            self.ended_count += 1;
        }
    }

    // Whether x was given.
    pub fn knows(&self, x: u32) -> bool
        ensures { result ≡ has x (listed self.now.given self.now.given_count) }
    {
        among(&self.given[..self.given_count], x)
    }

    // Whether the value of x has ended.
    pub fn ended(&self, x: u32) -> bool
        ensures { result ≡ has x (listed self.now.ended self.now.ended_count) }
    {
        among(&self.ended[..self.ended_count], x)
    }

    // Whether no more can be given.
    pub fn is_full(&self) -> bool
        ensures { result ≡ leb 64 self.now.given_count }
    {
        64 <= self.given_count
    }
}
