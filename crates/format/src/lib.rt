#![tactic(auto)]

use reading::{Reason, Refusal};

// A row: what is told of one value of a message. The columns of a table have these types, in this order.
#[derive(Clone, Copy, Default)]
pub struct Row {
    // The type identifier.
    pub ty: i32,
    // 1 if the identifier stands in the octets, 0 if the value is bare: a column of octets, as C has it.
    pub own: u8,
    // Position from 0, pair position in a map, index or property index; 0 for the outermost value and under an identity.
    pub label: u32,
    // The integer, float bits (float64's as signed 64-bit), octet, code, contents length, size, version, identity or
    // reference number; 0 and 1 for -33 and -34; 0 for -35 to -40, and for a date or time.
    pub number: i64,
    // The element types of a uniform form, 0 where none.
    pub first: i32,
    pub second: i32,
    // The place of string contents, 0 for the others.
    pub place: u32,
    // The rows below it: all rows of the values inside.
    pub below: u32,
    // The identifier, or the first data octet if bare; and just past the value. Message places.
    pub start: u32,
    pub end: u32,
}

// What a row may be asked for as.
#[derive(Clone, Copy)]
pub enum As {
    Int16,
    Int32,
    Int64,
    Octet,
    Char,
    Boolean,
}

// A type by its number, as C has it: 0 to 5, in the order above. With any other number no row can be had.
impl TryFrom<u8> for As {
    ghost use Rattle.std.specs.Prelude.{◌≡◌};
    ghost use Rattle.format.specs.Numbers.{as_numbered};

    type Error = Refusal;

    ghost try_from_gives = { λ n r. r ≡ as_numbered n };

    fn try_from(number: u8) -> Result<As, Refusal> {
        match number {
            0 => Ok(As::Int16),
            1 => Ok(As::Int32),
            2 => Ok(As::Int64),
            3 => Ok(As::Octet),
            4 => Ok(As::Char),
            5 => Ok(As::Boolean),
            _ => Err(Refusal {
                place: 0,
                reason: Reason::OtherType,
            }),
        }
    }
}
