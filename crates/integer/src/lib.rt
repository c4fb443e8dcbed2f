#![tactic(auto)]

ghost use Rattle.std.specs.Prelude.{◌≡◌, ℕ, ℤ, suc, ◌+◌, ◌-◌, ◌*◌, ◌/◌, ◌%◌, ◌^◌, ◌≤◌, ◌<◌, length};
ghost use Rattle.std.specs.Int.Signed.{mag};
ghost use Rattle.std.specs.Int.Count.{count_trailing_zeros};
ghost use Rattle.integer.specs.Packed.{sign, width, Packable, groups, spell_with, sign_bit, spell_int};
ghost use Rattle.integer.specs.Writes.{Room, Wrote};
ghost use Rattle.integer.specs.Windows.{little, ends, lead, folded, sevens};
ghost use Rattle.integer.specs.Answers.{joined_of, Tail, Reads, ReadsSigned, Knows64};
ghost use Rattle.integer.specs.Widths.{packable16, packable32, packable64};

use reading::{Reason, Refusal};

// ---- Eight octets at once ----

// Eight octets from a place on as one number, the first lowest: one load when compiled.
fn word_at(src: &[u8], at: usize) -> u64
    requires { at + 8 ≤ length src.now }
    ensures { result ≡ little 8 src.now at }
{
    // One by one: an array made of a slice comes as a Result, with a refusal that can't be.
    u64::from_le_bytes([
        src[at],
        src[at + 1],
        src[at + 2],
        src[at + 3],
        src[at + 4],
        src[at + 5],
        src[at + 6],
        src[at + 7],
    ])
}

// 128 in the place of each of a word's octets that isn't continued, 0 in the places of the others.
fn ends_of(w: u64) -> u64
    ensures { result ≡ ends 8 w }
{
    0x8080808080808080 - (w & 0x8080808080808080)
}

// The ends of the eight octets from a place on.
pub fn ends_at(src: &[u8], at: usize) -> u64
    requires { at + 8 ≤ length src.now }
    ensures { result ≡ ends 8 (little 8 src.now at) }
{
    ends_of(word_at(src, at))
}

// How many octets are continued before the first that isn't, by their ends, of which there is at least one.
pub fn first_end(e: u64) -> usize
    requires { 0 < e }
    ensures { (result ≡ count_trailing_zeros 64 e / 8) × (result < 8) }
{
    (u64::trailing_zeros(e) / 8) as usize
}

// The ends of eight octets past the first that isn't continued, by those of the eight and of the eight after them; its end has z zeros below it.
pub fn ends_on(near: u64, far: u64, z: u32) -> u64
    requires { z < 64 }
    ensures { result ≡ near / 2 ^ (z + 1) + far % 2 ^ (z + 1) * 2 ^ (63 - z) }
{
    ((near >> z) >> 1) + (far << (63 - z))
}

// The bits of a mask as they are, and the others moved down: divided by `by`.
fn fold(x: u64, mask: u64, by: u64) -> u64
    requires { 0 < by }
    ensures { result ≡ folded mask by x }
{
    let low = x & mask;
    low + (x - low) / by
}

// The bits of a word's octets up to the first that isn't continued, seven of each: moved together in pairs, in fours, and all eight.
fn held(w: u64, e: u64) -> u64
    requires { (e ≡ ends 8 w) × (0 < e) }
    ensures { result ≡ sevens (suc (lead 8 w)) w }
{
    let x = w & (e ^ (e - 1)) & 0x7F7F7F7F7F7F7F7F;
    let pairs = fold(x, 0x007F007F007F007F, 2);
    let fours = fold(pairs, 0x00003FFF00003FFF, 4);
    fold(fours, 0x0FFFFFFF, 16)
}

// ---- Reading ----

// Octets and a place are passed as two: a refusal names any place of the same octets, and a reader that fails leaves nothing moved, so a cursor is no plainer.

// An integer as messages pack it: a width has a bound, below which its n is (of n, or of -1 - n), and at most so many octets follow its first.
pub trait Packed: Copy {
    ghost number: { Self → ℤ };

    ghost BOUND: { ℕ };

    const BOUND: u64;

    ghost MORE: { ℕ };

    const MORE: usize;

    // n, or -1 - n.
    fn signed(positive: bool, n: u64) -> Self
        requires { n < BOUND }
        ensures { number result ≡ sign positive n };

    ghost packable: { Packable BOUND MORE };
}

// An impl for each width: they differ in the type and two numbers, and no macro may write one.
impl Packed for i16 {
    ghost number = { λ z. z };

    ghost BOUND = { 2 ^ 15 };

    const BOUND: u64 = 32768;

    ghost MORE = { 4 };

    const MORE: usize = 4;

    ghost packable = { packable16 };

    fn signed(positive: bool, n: u64) -> i16 {
        let v = n as i16;
        if positive { v } else { !v }
    }
}

impl Packed for i32 {
    ghost number = { λ z. z };

    ghost BOUND = { 2 ^ 31 };

    const BOUND: u64 = 2147483648;

    ghost MORE = { 4 };

    const MORE: usize = 4;

    ghost packable = { packable32 };

    fn signed(positive: bool, n: u64) -> i32 {
        let v = n as i32;
        if positive { v } else { !v }
    }
}

impl Packed for i64 {
    ghost number = { λ z. z };

    ghost BOUND = { 2 ^ 63 };

    const BOUND: u64 = 9223372036854775808;

    ghost MORE = { 9 };

    const MORE: usize = 9;

    ghost packable = { packable64 };

    fn signed(positive: bool, n: u64) -> i64 {
        let v = n as i64;
        if positive { v } else { !v }
    }
}

// A 32-bit integer by its sign, as n of n or of -1 - n.
#[derive(Clone, Copy)]
pub enum Signed {
    Positive(u32),
    Negative(u32),
}

// The place past the integer at `at`, and its n: from its first octet, and the bits of the octets after it, of which `last` is the last.
fn joined(
    at: usize,
    first: u8,
    bits: u64,
    last: u8,
    next: usize,
    bound: u64,
) -> Result<(usize, u64), Refusal>
    requires { bound % 64 ≡ 0 }
    ensures { result ≡ joined_of at first bits last next bound }
{
    if last == 0 {
        return Err(Refusal {
            place: at,
            reason: Reason::BadInteger,
        });
    }
    if bits < bound / 64 {
        return Ok((next, ((first % 64) as u64) + 64 * bits));
    }
    Err(Refusal {
        place: at,
        reason: Reason::BadInteger,
    })
}

// The integer at `at`, whose first octet is continued, octet by octet.
fn long_at(
    src: &[u8],
    at: usize,
    first: u8,
    more: usize,
    bound: u64,
) -> Result<(usize, u64), Refusal>
    requires { (at < length src.now) × (more ≤ 9) × (bound % 64 ≡ 0) }
    ensures { Tail more bound src.now at first result }
{
    let mut bits: u64 = 0;
    let mut scale: u64 = 1;
    for next in at + 1..at + 1 + more {
        if src.len() <= next {
            return Err(Refusal {
                place: next,
                reason: Reason::Ended,
            });
        }
        let b = src[next];
        if b < 128 {
            return joined(at, first, bits + scale * b as u64, b, next + 1, bound);
        }
        bits += scale * (b % 128) as u64;
        scale *= 128;
    }
    Err(Refusal {
        place: at,
        reason: Reason::BadInteger,
    })
}

// The same, at once where eight octets more are there and hold it.
fn tail_at(
    src: &[u8],
    at: usize,
    first: u8,
    more: usize,
    bound: u64,
) -> Result<(usize, u64), Refusal>
    requires { (at < length src.now) × (more ≤ 9) × (bound % 64 ≡ 0) }
    ensures { Tail more bound src.now at first result }
{
    if 9 <= src.len() - at {
        let next = at + 1;
        let w = word_at(src, next);
        let e = ends_of(w);
        if e != 0 {
            let k = first_end(e);
            if k < more {
                return joined(at, first, held(w, e), src[next + k], next + k + 1, bound);
            }
        }
    }
    long_at(src, at, first, more, bound)
}

// The integer of a width at a place, and the place past it.
pub fn int_at<T: Packed>(src: &[u8], at: usize) -> Result<(usize, T), Refusal>
    ensures { Reads T.number (width T.BOUND T.MORE) src.now at result }
{
    if src.len() <= at {
        return Err(Refusal {
            place: at,
            reason: Reason::Ended,
        });
    }
    let b = src[at];
    if b < 128 {
        return Ok((at + 1, T::signed(b % 128 < 64, (b % 64) as u64)));
    }
    let (next, n) = tail_at(&*src, at, b, T::MORE, T::BOUND)?;
    Ok((next, T::signed(b % 128 < 64, n)))
}

// The 32-bit integer at a place by its sign, and the place past it.
pub fn signed_at(src: &[u8], at: usize) -> Result<(usize, Signed), Refusal>
    ensures { ReadsSigned src.now at result }
{
    if src.len() <= at {
        return Err(Refusal {
            place: at,
            reason: Reason::Ended,
        });
    }
    let b = src[at];
    if b < 64 {
        return Ok((at + 1, Signed::Positive(b as u32)));
    }
    if b < 128 {
        return Ok((at + 1, Signed::Negative((b - 64) as u32)));
    }
    let (next, n) = tail_at(&*src, at, b, 4, 2147483648)?;
    if b < 192 {
        return Ok((next, Signed::Positive(n as u32)));
    }
    Ok((next, Signed::Negative(n as u32)))
}

// The 64-bit integer at a place of octets that hold such an integer there, and the place past it: what was judged before is not judged again.
pub fn known64_at(src: &[u8], at: usize) -> Result<(usize, i64), Refusal>
    ensures { Knows64 src.now at result }
{
    if src.len() <= at {
        return Err(Refusal {
            place: at,
            reason: Reason::Ended,
        });
    }
    if 8 <= src.len() - at {
        let w = word_at(src, at);
        let e = ends_of(w);
        let positive = w % 128 < 64;
        // None of the eight octets is continued.
        if e == 0x8080808080808080 {
            return Ok((at + 1, i64::signed(positive, w % 64)));
        }
        if e != 0 {
            let bits = held(w, e);
            return Ok((
                at + first_end(e) + 1,
                i64::signed(positive, bits % 64 + bits / 128 * 64),
            ));
        }
    }
    int_at::<i64>(src, at)
}

// ---- Writing ----

// A slice and a place are passed as two: `Wrote` says the whole of what the slice holds in one clause, and a struct of both would add that its loan is the same.

// n of an integer, both of n and of -1 - n.
fn magnitude_of(v: i64) -> u64
    ensures { result ≡ mag v }
{
    if v < 0 {
        return (!v) as u64;
    }
    v as u64
}

// The sign bit of an integer's first octet.
fn sign_bit(v: i64) -> u8
    ensures { result ≡ sign_bit v }
{
    if v < 0 {
        return 64;
    }
    0
}

// How many octets an integer takes.
pub fn octets_of(v: i64) -> usize
    ensures { result ≡ length (spell_int v) }
{
    let n = magnitude_of(v);
    if n < 64 {
        return 1;
    }
    // Seven bits at a time: a loop over the number, which no iterator goes over.
    let mut m = n / 64;
    let mut count: usize = 2;
    while 128 <= m {
        m /= 128;
        count += 1;
    }
    count
}

// Writes the octets after the first from a place on: seven bits, and the rest the same way.
fn put_rest(out: &mut [u8], at: usize, n: u64) -> usize
    requires { Room (groups n) at out.old }
    ensures { Wrote (groups n) at out.old result out.new }
{
    if n < 128 {
        out[at] = n as u8;
        return at + 1;
    }
    out[at] = (n % 128 + 128) as u8;
    put_rest(out, at + 1, n / 128)
}

// Writes n with a sign bit from a place on.
fn put(out: &mut [u8], at: usize, bit: u8, n: u64) -> usize
    requires { (bit ≤ 64) × (Room (spell_with bit n) at out.old) }
    ensures { Wrote (spell_with bit n) at out.old result out.new }
{
    if n < 64 {
        out[at] = bit + n as u8;
        return at + 1;
    }
    out[at] = bit + 128 + (n % 64) as u8;
    put_rest(out, at + 1, n / 64)
}

// Writes an integer from a place on, and gives the place past it.
pub fn put_int(out: &mut [u8], at: usize, v: i64) -> usize
    requires { Room (spell_int v) at out.old }
    ensures { Wrote (spell_int v) at out.old result out.new }
{
    put(out, at, sign_bit(v), magnitude_of(v))
}
