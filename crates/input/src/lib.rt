#![tactic(auto)]

ghost use Rattle.std.specs.Prelude.{◌≡◌, ◌≤◌, length, take, drop, IfOk, OnErr};
ghost use Rattle.std.specs.Io.KnownBytes.{ReadConsumes};
ghost use Rattle.input.specs.Input.{Came, Moved, Shortened};

use std::io;
use std::io::Read;

// Reads the input once, to after the octets that are held, and gives how many came; 0 at its end. An error leaves what is held.
pub fn read_more<R: Read>(input: &mut R, src: &mut [u8], held: usize) -> io::Result<usize>
    requires { held ≤ length src.old }
    ensures ok { IfOk result (λ n. Came src.old held n src.new) }
    ensures err { OnErr result (take held src.new ≡ take held src.old) }
    ensures len { length src.new ≡ length src.old }
    ensures bytes { ReadConsumes (R.remaining input.old) (R.remaining input.new) result (drop held src.new) }
{
    input.read(&mut src[held..])
}

// Moves what stands from `from` to `end` to the front, and gives how many octets that is.
pub fn keep(src: &mut [u8], from: usize, end: usize) -> usize
    requires { (from ≤ end) × (end ≤ length src.old) }
    ensures { Moved src.old from end result src.new }
{
    src.copy_within(from..end, 0);
    end - from
}

// A line too long for the room is held as one octet, which begins no line that is taken: it is refused where it ends.
pub fn shorten(src: &mut [u8], held: usize) -> usize
    requires { (held ≤ length src.old) × (2 ≤ length src.old) }
    ensures { Shortened src.old held result src.new }
{
    if held < src.len() {
        return held;
    }
    src[0] = b'?';
    1
}
