// What the programs share: standard input read in pieces, and a line of text printed.
#![tactic(auto)]

ghost use Rattle.std.specs.Prelude.{◌≡◌, ◌+◌, ◌-◌, ◌≤◌, ◌<◌, length, take, drop};
ghost use Rattle.lines.specs.Line.{line_writes};

// The numbers of the three streams that every program has.
// Stays: numbers and no enum, since `io::read_full` and `io::write_all` take them.
pub const STANDARD_INPUT: i32 = 0;

pub const STANDARD_OUTPUT: i32 = 1;

pub const STANDARD_ERROR: i32 = 2;

// Fills a part that lies within the bytes: reads until it is full, the input ends or a read fails.
fn fill_part(bytes: &mut [u8], at: usize, end: usize) -> usize
    requires { (at ≤ end) × (end ≤ length bytes.old) }
    ensures within { (at ≤ result) × (result ≤ end) }
    ensures front { take at bytes.new ≡ take at bytes.old }
    ensures back { drop end bytes.new ≡ drop end bytes.old }
{
    at + io::read_full(STANDARD_INPUT, &mut bytes[at..end])
}

// Reads until the part of the bytes from a place to an end is full or the input ends, and gives the place behind the
// last byte that came. What lies before and behind the part stays. Where the bytes have no such part, nothing is
// read. Which bytes come in, and how many, is left open: no contract can say what stands on standard input.
// Stays: a test and no `get_mut`, since std says nothing of what the slice ends as that `get_mut` lends a part of; a
// place and an end beside the bytes, since docs/SCOPE.md names the call `inout::fill(bytes, at, end)`.
pub fn fill(bytes: &mut [u8], at: usize, end: usize) -> usize
    ensures within { (at ≤ result) × (result ≤ at + (end - at)) }
    ensures front { take at bytes.new ≡ take at bytes.old }
    ensures back { drop end bytes.new ≡ drop end bytes.old }
    ensures no_part { length bytes.old < end → (result ≡ at) × (bytes.new ≡ bytes.old) }
{
    if end < at || bytes.len() < end {
        return at;
    }
    fill_part(bytes, at, end)
}

// Prints one line, put together in the text, in one write.
// Stays: a word and numbers beside it, since docs/SCOPE.md names the call so, as `lines::write_line`.
pub fn print_line(text: &mut [u8], word: &[u8], numbers: &[u64])
    ensures { text.new ≡ line_writes word.now numbers.now text.old }
{
    let size = lines::write_line(text, word, numbers).size;
    io::write_all(STANDARD_OUTPUT, &text[..size]);
}
