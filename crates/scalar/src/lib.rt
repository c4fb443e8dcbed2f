#![tactic(auto)]

ghost use Rattle.std.specs.Prelude.{◌≡◌, true, cond, ◌&&◌, ◌||◌, [], ◌∷◌, ◌+◌, ◌^◌, ◌≤◌, ◌<◌, length, get_or, leb, pos};
ghost use Rattle.integer.specs.Packed.{integer, width, wide32};
ghost use Rattle.integer.specs.Answers.{Reads};
ghost use Rattle.integer.specs.Windows.{little, ends};
ghost use Rattle.format.specs.Types.{octets, characters, date, dateTime};
ghost use Rattle.format.specs.Data.{within, run, bits, followers, code_of, is_char, character, contents, leap, days, date_fits};
ghost use Rattle.scalar.specs.Answers.{width_of, most_of, fitting, Passes, Passing, Size, big_at, Codes, Ahead, Runs};
ghost use Rattle.scalar.specs.Parts.{Spells, Plain, Reached, Told};
ghost use Rattle.scalar.specs.Moments.{ReadsInts, clock_fits, count_of, offsets, clock, parts_of};

use integer::Packed;
use reading::{Reason, Refusal};

// ---- Tests ----

// Both, without a branch between them.
fn both(a: bool, b: bool) -> bool
    ensures { result ≡ a && b }
{
    a && b
}

// Either, likewise.
fn either(a: bool, b: bool) -> bool
    ensures { result ≡ a || b }
{
    a || b
}

// ---- Integers ----

// The width of an integer.
#[derive(Clone, Copy)]
pub enum Bits {
    Bits16,
    Bits32,
    Bits64,
}

// k octets after the first, the last of them b, fit where k * 256 + b is at most this; of integers of at most eight octets.
pub fn most_of(w: Bits) -> usize
    ensures { result ≡ most_of w }
{
    match w {
        Bits::Bits16 => 515,
        Bits::Bits32 => 1039,
        Bits::Bits64 => 1919,
    }
}

// Whether an integer is in its shortest form and fits: k octets after its first, of which `last` is the last. (Where k is 0, it is the first octet.)
fn fits_in(w: Bits, k: usize, last: u8) -> bool
    requires { k < 8 }
    ensures { result ≡ fitting w k last }
{
    both(
        either(k == 0, last != 0),
        k * 256 + last as usize <= most_of(w),
    )
}

// Whether a number lies between two.
fn between(n: i32, low: i32, high: i32) -> bool
    ensures { result ≡ within low high n }
{
    low <= n && n <= high
}

// Passes the integer of a width at a place, by reading it.
fn past<T: Packed>(src: &[u8], at: usize) -> Result<usize, Refusal>
    ensures { Passes 1 src.now at (integer (width T.BOUND T.MORE)) result }
{
    let (next, _) = integer::int_at::<T>(src, at)?;
    Ok(next)
}

// The same for each width.
fn long_past(src: &[u8], at: usize, w: Bits) -> Result<usize, Refusal>
    ensures { Passes 1 src.now at (integer (width_of w)) result }
{
    match w {
        Bits::Bits16 => past::<i16>(src, at),
        Bits::Bits32 => past::<i32>(src, at),
        Bits::Bits64 => past::<i64>(src, at),
    }
}

// Passes the integer at a place.
pub fn int_past(src: &[u8], at: usize, w: Bits) -> Result<usize, Refusal>
    ensures { Passes 1 src.now at (integer (width_of w)) result }
{
    if src.len() <= at {
        return Err(Refusal {
            place: at,
            reason: Reason::Ended,
        });
    }
    if 8 <= src.len() - at {
        let e = integer::ends_at(src, at);
        let next = at + 1;
        // None of the eight octets is continued.
        if e == 0x8080808080808080 {
            return Ok(next);
        }
        if e != 0 {
            let k = integer::first_end(e);
            if fits_in(w, k, src[at + k]) {
                return Ok(next + k);
            }
        }
    }
    long_past(src, at, w)
}

// ---- Integers, one after another ----

// The ends of the eight octets `by` octets on from a place, where sixteen are there; else 0.
fn window_at(src: &[u8], at: usize, by: usize) -> u64
    requires { (at ≤ length src.now) × (length src.now ≤ 65535) × (by ≤ 8) }
    ensures { result ≡ cond (leb (at + 16) (length src.now)) (ends 8 (little 8 src.now (at + by))) 0 }
{
    if at + 16 <= src.len() {
        return integer::ends_at(src, at + by);
    }
    0
}

// Passes the integer at a place, where nothing is known of what lies ahead: the place past it, the ends of the eight octets there, and those of the
// eight after them, or 0.
fn long_run(src: &[u8], at: usize, w: Bits) -> Result<(usize, u64, u64), Refusal>
    requires { (at ≤ length src.now) × (length src.now ≤ 65535) }
    ensures { Runs w src.now at result }
{
    let next = long_past(src, at, w)?;
    Ok((next, window_at(src, next, 0), window_at(src, next, 8)))
}

// Passes the integer at a place, by what is known of the octets ahead; likewise.
pub fn int_ahead(
    src: &[u8],
    at: usize,
    w: Bits,
    most: usize,
    near: u64,
    far: u64,
) -> Result<(usize, u64, u64), Refusal>
    requires { (at ≤ length src.now) × (length src.now ≤ 65535) × (most ≡ most_of w) × Ahead src.now at near far }
    ensures { Runs w src.now at result }
{
    if near != 0 {
        if at + 24 <= src.len() {
            let z = u64::trailing_zeros(near);
            let k = (z / 8) as usize;
            let last = src[at + k] as usize;
            // Shortest form: `last` is 0 only where k is; k is below 8. And fitting, as in `fits_in`.
            if k <= last * 8 && k * 256 + last <= most {
                return Ok((
                    at + k + 1,
                    integer::ends_on(near, far, z),
                    integer::ends_at(src, at + k + 9),
                ));
            }
        }
    }
    long_run(&*src, at, w)
}

// ---- Octets ----

// Passes n octets from a place on.
pub fn octets_past(src: &[u8], at: usize, n: usize) -> Result<usize, Refusal>
    requires { at ≤ length src.now }
    ensures { Passes n src.now at (run n) result }
{
    if src.len() - at < n {
        return Err(Refusal {
            place: src.len(),
            reason: Reason::Ended,
        });
    }
    Ok(at + n)
}

// ---- Characters ----

// Whether an octet is a character by itself.
fn is_single(a: u8) -> bool
    requires { a < 128 }
    ensures { result ≡ is_char (a ∷ []) }
{
    0 < a
}

// Whether two octets are a character.
fn is_couple(a: u8, b: u8) -> bool
    requires { (192 ≤ a) × (a < 224) }
    ensures { result ≡ is_char (a ∷ b ∷ []) }
{
    if b / 64 != 2 {
        return false;
    }
    if 193 < a {
        return true;
    }
    if a == 193 {
        return false;
    }
    b == 128
}

// Whether three octets are a character.
fn is_triple(a: u8, b: u8, c: u8) -> bool
    requires { (224 ≤ a) × (a < 240) }
    ensures { result ≡ is_char (a ∷ b ∷ c ∷ []) }
{
    if b / 64 != 2 {
        return false;
    }
    if c / 64 != 2 {
        return false;
    }
    if 224 < a {
        return true;
    }
    160 <= b
}

// How many octets the character at `at` has, before `end`: 1 to 3, if it is well spelt and not cut.
fn spelling(src: &[u8], at: usize, end: usize) -> Option<usize>
    requires { (at < end) × (end ≤ length src.now) }
    ensures { Spells src.now at end result }
{
    let a = src[at];
    if a < 128 {
        return is_single(a).then_some(1);
    }
    if a < 192 {
        return None;
    }
    if 239 < a {
        return None;
    }
    if a < 224 {
        if end - at < 2 {
            return None;
        }
        return is_couple(a, src[at + 1]).then_some(2);
    }
    if end - at < 3 {
        return None;
    }
    is_triple(a, src[at + 1], src[at + 2]).then_some(3)
}

// Whether a character of more than one octet can begin so.
fn begins(a: u8) -> bool
    ensures { result ≡ leb 0xC0 a && leb a 0xEF }
{
    192 <= a && a <= 239
}

// How many octets a character has that begins so.
fn size_of(a: u8) -> usize
    requires { 128 ≤ a }
    ensures { result ≡ 1 + followers a }
{
    if a < 224 {
        return 2;
    }
    3
}

// Passes the character at a place, if it has more than one octet.
fn long_char(src: &[u8], at: usize) -> Result<usize, Refusal>
    requires { (at < length src.now) × (128 ≤ get_or src.now at 0) }
    ensures { Passes 1 src.now at character result }
{
    let a = src[at];
    if !begins(a) {
        return Err(Refusal {
            place: at,
            reason: Reason::BadChar,
        });
    }
    if src.len() - at < size_of(a) {
        return Err(Refusal {
            place: src.len(),
            reason: Reason::Ended,
        });
    }
    let Some(n) = spelling(src, at, src.len()) else {
        return Err(Refusal {
            place: at,
            reason: Reason::BadChar,
        });
    };
    Ok(at + n)
}

// Passes the character at a place.
pub fn char_past(src: &[u8], at: usize) -> Result<usize, Refusal>
    ensures { Passes 1 src.now at character result }
{
    if src.len() <= at {
        return Err(Refusal {
            place: at,
            reason: Reason::Ended,
        });
    }
    let a = src[at];
    if a < 128 {
        if a == 0 {
            return Err(Refusal {
                place: at,
                reason: Reason::BadChar,
            });
        }
        return Ok(at + 1);
    }
    long_char(src, at)
}

// ---- Strings ----

// The place of the first misspelt character from `from` to `end`, or `end`: character by character. A place either way, as both callers go on from it.
fn spelt(src: &[u8], from: usize, end: usize) -> usize
    requires { (from ≤ end) × (end ≤ length src.now) }
    ensures { Told src.now from end result }
{
    // A step is as long as the character there, so no range or iterator of the library steps so.
    let mut at = from;
    while at < end {
        let Some(n) = spelling(src, at, end) else {
            return at;
        };
        at += n;
    }
    at
}

// Whether the sixteen octets from a place on are each a character. One comparison of sixteen octets when compiled.
fn plain16(src: &[u8], at: usize) -> bool
    requires { at + 16 ≤ length src.now }
    ensures { result ≡ true → Plain src.now at 16 }
{
    let mut ok = true;
    for k in 0..16 {
        let b = src[at + k];
        if b == 0 || 127 < b {
            ok = false;
        }
    }
    ok
}

// How far from a place the octets are plain characters, by sixteens.
fn plain_run(src: &[u8], from: usize, end: usize) -> usize
    requires { (from ≤ end) × (end ≤ length src.now) }
    ensures { Reached src.now from end result }
{
    // Counted, and not stepped: `step_by` took a third of the time more.
    let sixteens = (end - from) / 16;
    for i in 0..sixteens {
        let at = from + 16 * i;
        if !plain16(src, at) {
            return at;
        }
    }
    from + 16 * sixteens
}

// The place of the first misspelt character from `from` to `end`, or `end`: by sixteens first. Octets past the end may be looked at.
fn text_at(src: &[u8], from: usize, end: usize) -> usize
    requires { (from ≤ end) × (end ≤ length src.now) }
    ensures { Told src.now from end result }
{
    let at = plain_run(src, from, end);
    if 16 <= src.len() - at && end - at < 16 {
        if plain16(src, at) {
            return end;
        }
    }
    spelt(src, at, end)
}

// Passes a string's contents of n octets from a place on.
pub fn text_past(src: &[u8], at: usize, n: usize, chars: bool) -> Result<usize, Refusal>
    requires { at ≤ length src.now }
    ensures { Passes n src.now at (contents (cond chars characters octets) (pos n)) result }
{
    let left = src.len() - at;
    if left < n {
        return Err(Refusal {
            place: src.len(),
            reason: Reason::Ended,
        });
    }
    let end = at + n;
    if !chars {
        return Ok(end);
    }
    let p = text_at(src, at, end);
    if p < end {
        return Err(Refusal {
            place: p,
            reason: Reason::BadChar,
        });
    }
    Ok(end)
}

// ---- Dates and times ----

// The 32-bit integer at a place: one or two octets at once, as those of dates and times are.
fn int_at(src: &[u8], at: usize) -> Result<(usize, i32), Refusal>
    ensures { Reads (λ z. z) wide32 src.now at result }
{
    if at < src.len() {
        let b = src[at];
        let low = (b % 64) as u64;
        if b < 128 {
            return Ok((at + 1, i32::signed(b % 128 < 64, low)));
        }
        if 2 <= src.len() - at {
            let c = src[at + 1];
            if 0 < c && c < 128 {
                return Ok((at + 2, i32::signed(b % 128 < 64, low + 64 * c as u64)));
            }
        }
    }
    integer::int_at::<i32>(src, at)
}

// N 32-bit integers from a place on, and the place past them.
fn ints_at<const N: usize>(src: &[u8], at: usize) -> Result<(usize, [i32; N]), Refusal>
    requires { 0 < N }
    ensures { ReadsInts N src.now at result }
{
    let mut values = [0; N];
    let mut next = at;
    for k in 0..N {
        let (past, v) = int_at(src, next)?;
        values[k] = v;
        next = past;
    }
    Ok((next, values))
}

// Whether hour, minute, second and fraction are in range.
fn clock_fits(h: i32, m: i32, s: i32, f: i32) -> bool
    ensures { result ≡ clock_fits h m s f }
{
    let hm = both(between(h, 0, 23), between(m, 0, 59));
    both(both(hm, between(s, 0, 59)), between(f, -999999999, 999))
}

// By the Gregorian rule.
fn leap_year(y: u32) -> bool
    ensures { result ≡ leap y }
{
    if y % 4 != 0 {
        return false;
    }
    if y % 100 != 0 {
        return true;
    }
    y % 400 == 0
}

// The days of a month.
fn days_in(y: u32, m: u32) -> u32
    ensures { (result ≡ days y m) × (result ≤ 31) }
{
    match m {
        2 => {
            if leap_year(y) {
                return 29;
            }
            28
        }
        4 | 6 | 9 | 11 => 30,
        _ => 31,
    }
}

// Whether year, month and day are in range.
fn date_fits(y: i32, m: i32, d: i32) -> bool
    ensures { result ≡ date_fits (y ∷ m ∷ d ∷ []) }
{
    if !between(y, 0, 9999) {
        return false;
    }
    if !between(m, 1, 12) {
        return false;
    }
    // Every month has these, so most dates are settled without a look at the month.
    if between(d, 1, 28) {
        return true;
    }
    between(d, 1, days_in(y as u32, m as u32) as i32)
}

// Which of the three it is.
#[derive(Clone, Copy)]
pub enum Which {
    Date,
    Time,
    DateTime,
}

// Passes an offset's two integers, which end a date or time of n integers that starts at `from`; those before them fit or not.
fn offset_past(
    src: &[u8],
    at: usize,
    fits: bool,
    from: usize,
    n: usize,
) -> Result<(usize, usize), Refusal>
    ensures { Passing src.now at n (offsets fits from n) result }
{
    let (next, [h, m]) = ints_at::<2>(src, at)?;
    if both(both(fits, between(h, -18, 18)), between(m, 0, 59)) {
        return Ok((next, n));
    }
    Err(Refusal {
        place: from,
        reason: Reason::BadTime,
    })
}

// Passes a time, after n integers of a date that fits or not. All of them start at `from`.
fn clock_past(
    src: &[u8],
    at: usize,
    fits: bool,
    from: usize,
    n: usize,
) -> Result<(usize, usize), Refusal>
    requires { n ≤ 3 }
    ensures { Passing src.now at (n + 7) (clock fits from n) result }
{
    let (next, [h, m, s, f, zone]) = ints_at::<5>(src, at)?;
    let good = both(fits, clock_fits(h, m, s, f));
    if between(zone, 2, 2) {
        return offset_past(src, next, good, from, n + 7);
    }
    if both(good, between(zone, 0, 1)) {
        return Ok((next, n + 5));
    }
    Err(Refusal {
        place: from,
        reason: Reason::BadTime,
    })
}

// Passes a date, and a time after it if there is one.
fn dated_past(src: &[u8], at: usize, clocked: bool) -> Result<(usize, usize), Refusal>
    ensures { Passing src.now at 10 (count_of (cond clocked dateTime date)) result }
{
    let (next, [y, m, d]) = ints_at::<3>(src, at)?;
    let fits = date_fits(y, m, d);
    if clocked {
        return clock_past(src, next, fits, at, 3);
    }
    if fits {
        return Ok((next, 3));
    }
    Err(Refusal {
        place: at,
        reason: Reason::BadTime,
    })
}

// Passes a date or time: the place past it and the count of its integers.
pub fn moment_past(src: &[u8], at: usize, d: Which) -> Result<(usize, usize), Refusal>
    ensures { Passing src.now at 10 (count_of (parts_of d)) result }
{
    match d {
        Which::Date => dated_past(src, at, false),
        Which::Time => clock_past(src, at, true, at, 0),
        Which::DateTime => dated_past(src, at, true),
    }
}

// ---- Values of octets that are accepted ----

// The number that eight octets hold, most significant first.
fn eight_at(src: &[u8], at: usize) -> i64
    requires { at + 8 ≤ length src.now }
    ensures { result ≡ bits (big_at src.now at 8) }
{
    // One by one: an array made of a slice comes as a Result, with a refusal that can't be.
    i64::from_be_bytes([
        src[at],
        src[at + 1],
        src[at + 2],
        src[at + 3],
        src[at + 4],
        src[at + 5],
        src[at + 6],
        src[at + 7],
    ])
}

// The number that one, four or eight octets hold, likewise.
pub fn bits_at(src: &[u8], at: usize, n: usize) -> i64
    requires { (Size n) × (at + n ≤ length src.now) }
    ensures { result ≡ bits (big_at src.now at n) }
{
    if n == 1 {
        return src[at] as i64;
    }
    if n == 4 {
        return u32::from_be_bytes([src[at], src[at + 1], src[at + 2], src[at + 3]]) as i64;
    }
    eight_at(src, at)
}

fn code_of_two(a: u8, b: u8) -> u32
    ensures { result ≡ code_of (a ∷ b ∷ []) }
{
    (a % 32) as u32 * 64 + (b % 64) as u32
}

fn code_of_three(a: u8, b: u8, c: u8) -> u32
    ensures { result ≡ code_of (a ∷ b ∷ c ∷ []) }
{
    (a % 16) as u32 * 4096 + (b % 64) as u32 * 64 + (c % 64) as u32
}

// The place past the character at a place and its code, if it is accepted.
pub fn code_at(src: &[u8], at: usize) -> Option<(usize, u32)>
    ensures { Codes src.now at result }
{
    if src.len() <= at {
        return None;
    }
    let a = src[at];
    if a < 128 {
        return Some((at + 1, a as u32));
    }
    if a < 224 {
        if src.len() - at < 2 {
            return None;
        }
        return Some((at + 2, code_of_two(a, src[at + 1])));
    }
    if src.len() - at < 3 {
        return None;
    }
    Some((at + 3, code_of_three(a, src[at + 1], src[at + 2])))
}
