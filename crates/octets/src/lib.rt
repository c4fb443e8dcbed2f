#![tactic(auto)]

ghost use Rattle.std.specs.Prelude.{◌≤◌, length};
ghost use Rattle.octets.specs.Octets.{slice, index_of, Found};

// The place of the first octet `b` from `from` up to `to`, if there is one.
pub fn find(src: &[u8], from: usize, to: usize, b: u8) -> Option<usize>
    requires { (from ≤ to) × (to ≤ length src.now) }
    ensures { Found from to (index_of b (slice from to src.now)) result }
{
    // An arm for none, not `map`: an edit turns it.
    match memchr::memchr(b, &src[from..to]) {
        Some(k) => Some(from + k),
        None => None,
    }
}
