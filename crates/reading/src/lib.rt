#![tactic(auto)]

ghost use Rattle.std.specs.Prelude.{◌≡◌};
ghost use Rattle.reading.specs.Reading.{number_of};

// Why something is refused, with the number that document 01 lists it by, and after the colon the place of the fault.
#[derive(Clone, Copy)]
pub enum Reason {
    // Octets end too soon: their count.
    Ended = 1,
    // Over 65,535 octets: 0.
    TooLong = 2,
    // Integer not shortest or not fitting: its first octet.
    BadInteger = 3,
    // Type unknown, not carried, not allowed here: the identifier.
    BadType = 4,
    // Negative size, length, version, identity or reference number; index below -1, not rising or not below size: that integer.
    BadNumber = 5,
    // Character misspelt or cut by its string's end: its first octet.
    BadChar = 6,
    // Date or time outside its ranges: its first data octet.
    BadTime = 7,
    // Level 17: the value's start.
    TooDeep = 8,
    // Identity given twice or a 65th: the number; identity of identity: the inner identifier.
    BadIdentity = 9,
    // Reference to no ended identity: the number.
    BadReference = 10,
    // Octets left over: the first of them.
    LeftOver = 11,
    // Fewer rows lent than needed: 0.
    FewRows = 12,
    // Output shorter than the result: 0.
    ShortOutput = 13,
    // Rows that no accepted octets have: 0.
    BadRow = 14,
    // Row can't be had as that type: 0.
    OtherType = 15,
    // No such property or label, or the frame's message isn't a user type: 0.
    Missing = 16,
    // Desk line isn't hexadecimal pairs: 0.
    BadLine = 17,
}

impl Reason {
    // The number in document 01.
    pub fn number(self) -> u8
        ensures { result ≡ number_of self }
    {
        self as u8
    }
}

// A refusal: its reason, and the place of its fault in the octets given to the entry:
// a frame place from a frame, a message place from a message. An entry with one input names input 1.
// (The place comes first: answers that hold a refusal are then laid out as those that hold a place.)
#[derive(Clone, Copy)]
pub struct Refusal {
    pub place: usize,
    pub reason: Reason,
}
