// What a row of a type is to the asking.
#[derive(Clone, Copy)]
pub enum Sort {
    Integer,
    Octet,
    Char,
    Boolean,
    Null,
    Other,
}

// The rows of a type: their sort, and the least and the greatest number that one can have.
#[derive(Clone, Copy)]
pub struct Kind(pub Sort, pub i64, pub i64);

// The types -1 to -40, by -1 - identifier; None for those that are not carried.
pub static KINDS: [Option<Kind>; 40] = [
    Some(Kind(Sort::Integer, -32768, 32767)), // int16
    Some(Kind(Sort::Integer, -2147483648, 2147483647)), // int32
    Some(Kind(Sort::Integer, i64::MIN, i64::MAX)), // int64
    None, // int128
    Some(Kind(Sort::Other, 0, 4294967295)), // float32
    Some(Kind(Sort::Other, i64::MIN, i64::MAX)), // float64
    None, // float128
    None, // decimal32
    None, // decimal64
    None, // decimal128
    Some(Kind(Sort::Boolean, -2147483648, 2147483647)), // boolean
    Some(Kind(Sort::Octet, 0, 255)), // octet
    Some(Kind(Sort::Other, 0, 2147483647)), // octet string
    Some(Kind(Sort::Char, 0, 65535)), // char
    Some(Kind(Sort::Other, 0, 2147483647)), // char string
    Some(Kind(Sort::Other, 0, 0)), // date
    None, // year-month interval
    Some(Kind(Sort::Other, 0, 0)), // time
    None, // time interval
    Some(Kind(Sort::Other, 0, 0)), // date-time
    None, // day-time interval
    Some(Kind(Sort::Other, 0, 2147483647)), // collection
    Some(Kind(Sort::Other, 0, 2147483647)), // uniform collection
    Some(Kind(Sort::Other, 0, 2147483647)), // array
    Some(Kind(Sort::Other, 0, 2147483647)), // uniform array
    Some(Kind(Sort::Other, 0, 2147483647)), // sparse array
    Some(Kind(Sort::Other, 0, 2147483647)), // uniform sparse array
    Some(Kind(Sort::Other, 0, 2147483647)), // map
    Some(Kind(Sort::Other, 0, 2147483647)), // map with uniform keys
    Some(Kind(Sort::Other, 0, 2147483647)), // uniform map
    Some(Kind(Sort::Other, 0, 2147483647)), // identity
    Some(Kind(Sort::Other, 0, 2147483647)), // reference
    Some(Kind(Sort::Boolean, 0, 0)), // false
    Some(Kind(Sort::Boolean, 1, 1)), // true
    Some(Kind(Sort::Other, 0, 0)), // empty string
    Some(Kind(Sort::Other, 0, 0)), // empty collection
    Some(Kind(Sort::Null, 0, 0)), // null
    Some(Kind(Sort::Other, 0, 0)), // +infinity
    Some(Kind(Sort::Other, 0, 0)), // -infinity
    Some(Kind(Sort::Other, 0, 0)), // NaN
];
