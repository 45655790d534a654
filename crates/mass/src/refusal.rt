// Refusals: document 01, section "Refused". Each has a number; 0 says that nothing is refused.
ghost use Rattle.std.specs.Prelude.{◌≡◌};
ghost use Rattle.mass.specs.Refusal.{refuse, number, number_in};

// Why a call refuses. The order is that of the numbers.
#[derive(Clone, Copy, Debug, PartialEq, Eq)]
pub enum Refusal {
    BytesEnd = 1,
    Mark = 2,
    Version = 3,
    Counts = 4,
    Threshold = 5,
    Cap = 6,
    LinkEnds = 7,
    Probability = 8,
    Order = 9,
    Member = 10,
    BytesLeft = 11,
    Room = 12,
    Pair = 13,
    NoWitness = 14,
    ListFull = 15,
    Mass = 16,
    Product = 17,
    Lines = 18,
    Quota = 19,
    Terms = 20,
    Window = 21,
    Minute = 22,
    Thresholds = 23,
}

impl Refusal {
    // This refusal where a test finds something wrong.
    pub fn when(self, wrong: bool) -> Result<(), Refusal>
        ensures { number_in result ≡ refuse wrong (number self) }
    {
        if wrong { Err(self) } else { Ok(()) }
    }
}

impl From<Refusal> for u32 {
    ghost from_gives = { λ r n. n ≡ number r };

    fn from(r: Refusal) -> u32 {
        r as u32
    }
}

// The number of an answer: that of the refusal, or 0.
pub fn number_in<T>(answer: &Result<T, Refusal>) -> u32
    ensures { result ≡ number_in answer.now }
{
    match answer {
        Ok(_) => 0,
        Err(r) => u32::from(*r),
    }
}
