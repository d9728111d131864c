// The lines of text: a word and numbers in decimal, written at the front of a lent slice, and read.
#![tactic(auto)]

ghost use Rattle.std.specs.Prelude.{◌≡◌, true, false, ◌+◌, ◌≤◌, ◌++◌, ltb, min};
ghost use Rattle.std.specs.Prelude.{length, take, drop, MatchOption};
ghost use Rattle.lines.specs.Line.{
  decimal,
  field,
  fields,
  placed,
  too_short,
  line_reply,
  line_writes,
  put_reply,
  put_writes,
  read_on,
};
ghost use Rattle.lines.specs.Read.{
  bare,
  piece,
  is_small,
  word_in,
  is_line,
  numbers_in,
  read_reply,
  read_writes,
};
ghost use Rattle.lines.specs.Inside.{with_digit, takes};

// The reply of a line: the refusal's number, or 0 with the number of bytes written.
// Stays: a number and no Result, since docs/SCOPE.md's replies carry 0 where nothing is refused; a type beside
// `runfile::Wrote`, since docs/SCOPE.md names both and neither crate lies above the other (crates.txt).
#[derive(Clone, Copy)]
pub struct Written {
    pub refusal: u8,
    pub size: usize,
}

// Whether the numbers, each as a space and its digits, are longer than the room, which they use up one by one.
fn numbers_exceed(numbers: &[u64], room: usize) -> bool
    ensures { result ≡ ltb room (length (fields numbers.now (length numbers.now))) }
{
    let mut left = room;
    for number in numbers {
        let mut digits = [0u8; 20];
        let more = 1 + io::decimal(*number, &mut digits);
        if left < more {
            return true;
        }
        left -= more;
    }
    false
}

// Whether the line is longer than the room. A number takes at most 21 bytes, so the numbers are measured only where
// the room is scant.
// Stays: a word and the numbers one by one, here and below, since docs/SCOPE.md names `lines::put_line` so.
fn too_short(word: &[u8], numbers: &[u64], room: usize) -> bool
    ensures { result ≡ too_short word.now numbers.now room }
{
    if room <= word.len() {
        return true;
    }
    let left = room - word.len() - 1;
    if numbers.len() <= left / 21 {
        return false;
    }
    numbers_exceed(numbers, left)
}

// Writes the digits of n at a place of the slice, and gives the place behind them. Most numbers have one digit or two,
// which are written at once.
// Stays: a slice and a place beside it, here, in `put_number` and in `put_numbers`. Where each writes to the front of
// what is lent, showing a file of 13 boxes takes 2,087,874 instructions, and 1,938,302 so.
// Stays: one digit and two by hand, for which docs/DECISIONS.md, Code, has the figures: with the older kit a line took
// 191 instructions so, and 341 by `io::decimal` alone. `as u8`, as `try_from` would have a failure nothing reaches.
fn put_digits(out: &mut [u8], at: usize, n: u64) -> usize
    requires { at + length (decimal n) ≤ length out.old }
    ensures value { result ≡ at + length (decimal n) }
    ensures out_after { out.new ≡ placed out.old at (decimal n) }
{
    if n < 10 {
        out[at] = b'0' + n as u8;
        return at + 1;
    }
    if n < 100 {
        out[at] = b'0' + (n / 10) as u8;
        out[at + 1] = b'0' + (n % 10) as u8;
        return at + 2;
    }
    let mut digits = [0u8; 20];
    let size = io::decimal(n, &mut digits);
    at + copy(&digits[..size], &mut out[at..])
}

// Copies bytes to the front of a slice, as many as have room, and gives their number. The rest of the slice stays.
pub fn copy(bytes: &[u8], out: &mut [u8]) -> usize
    ensures value { result ≡ min (length bytes.now) (length out.old) }
    ensures out_after { out.new ≡ take result bytes.now ++ drop result out.old }
{
    let size = bytes.len().min(out.len());
    out[..size].copy_from_slice(&bytes[..size]);
    size
}

// Writes a space and the digits of n at a place of the slice, and gives the place behind them.
fn put_number(out: &mut [u8], at: usize, n: u64) -> usize
    requires { at + length (field n) ≤ length out.old }
    ensures value { result ≡ at + length (field n) }
    ensures out_after { out.new ≡ placed out.old at (field n) }
{
    out[at] = b' ';
    put_digits(out, at + 1, n)
}

// Writes the numbers at a place of the slice, each as a space and its digits, and gives the place behind them.
fn put_numbers(out: &mut [u8], at: usize, numbers: &[u64]) -> usize
    requires { at + length (fields numbers.now (length numbers.now)) ≤ length out.old }
    ensures value { result ≡ at + length (fields numbers.now (length numbers.now)) }
    ensures out_after { out.new ≡
        placed out.old at (fields numbers.now (length numbers.now)) }
{
    let mut end = at;
    for number in numbers {
        end = put_number(out, end, *number);
    }
    end
}

// Writes a line: the word, for each number one space and its decimal digits, and a newline. Refusal 10.
// Stays: 10 as a number, here and in `read_line`, since `sizes`, which has the enum, does not lie below (crates.txt).
pub fn write_line(out: &mut [u8], word: &[u8], numbers: &[u64]) -> Written
    ensures value { result ≡ line_reply word.now numbers.now (length out.old) }
    ensures out_after { out.new ≡ line_writes word.now numbers.now out.old }
{
    if too_short(word, numbers, out.len()) {
        return Written {
            refusal: 10,
            size: 0,
        };
    }
    let place = copy(word, out);
    let end = put_numbers(out, place, numbers);
    out[end] = b'\n';
    let size = end + 1;
    Written { refusal: 0, size }
}

// Puts a line at a place that lies within the text.
// Stays: a text and a place beside it, since docs/SCOPE.md names the call `lines::put_line(text, at, word, numbers)`.
fn put_within(text: &mut [u8], at: usize, word: &[u8], numbers: &[u64]) -> usize
    requires { at ≤ length text.old }
    ensures value { result ≡ put_reply word.now numbers.now (length text.old) at }
    ensures text_after { text.new ≡
        put_writes word.now numbers.now text.old at }
{
    at + write_line(&mut text[at..], word, numbers).size
}

// Puts a line at a place of the text and gives the place behind it. A line that does not fit is left out.
pub fn put_line(text: &mut [u8], at: usize, word: &[u8], numbers: &[u64]) -> usize
    ensures value { result ≡ put_reply word.now numbers.now (length text.old) at }
    ensures text_after { text.new ≡
        put_writes word.now numbers.now text.old at }
{
    let behind = text.len() < at;
    if behind {
        return at;
    }
    put_within(text, at, word, numbers)
}

// The reply of a line that is read: the refusal's number, or 0 with the length of the word and how many numbers there
// are.
// Stays: a number and no Result, since docs/SCOPE.md's replies carry 0 where nothing is refused.
#[derive(Clone, Copy)]
pub struct Words {
    pub refusal: u8,
    pub word: usize,
    pub count: usize,
}

// The reply where there is no word.
const NO_WORDS: Words = Words {
    refusal: 0,
    word: 0,
    count: 0,
};

// The line without a carriage return at its very end.
fn bare(line: &[u8]) -> &[u8]
    ensures { result.now ≡ bare line.now }
{
    line.strip_suffix(b"\r").unwrap_or(line)
}

// The number with one more digit behind it, where the byte is a digit and the number stays below 2⁶⁴.
// Stays: a reader of digits beside `why::read_number`, which takes 20 of them at most and gives 256 for all above 255.
fn add_digit(value: u64, byte: u8) -> Option<u64>
    ensures { MatchOption result (takes value byte ≡ false)
        (λ more. (takes value byte ≡ true) × (more ≡ with_digit value byte)) }
{
    let is_digit = byte.is_ascii_digit();
    if !is_digit {
        return None;
    }
    value.checked_mul(10)?.checked_add(u64::from(byte - b'0'))
}

// What stands at the front of a text, up to the first space or the end: how many bytes, and the value of these digits.
#[derive(Clone, Copy)]
struct Piece {
    size: usize,
    value: u64,
}

// Reads the digits at the front of a text, where the number that they stand for is below 2⁶⁴. None at all are read as
// 0. The first byte that is wrong ends the walk, however long the text is. Hence no `split`, which would look for the
// end of a part first.
fn read_piece(text: &[u8]) -> Option<Piece>
    ensures { MatchOption result (is_small (piece text.now) ≡ false)
        (λ found. (is_small (piece text.now) ≡ true) × (found.size ≡ length (piece text.now)) ×
        (found.value ≡ read_on 0 (piece text.now))) }
{
    let mut value: u64 = 0;
    for (size, byte) in text.iter().enumerate() {
        if *byte == b' ' {
            return Some(Piece { size, value });
        }
        value = add_digit(value, *byte)?;
    }
    Some(Piece {
        size: text.len(),
        value,
    })
}

// How many numbers a line has, where it is a word and numbers. What is left of the line begins with a space, or is
// empty.
// Stays: a `while`, here and below, which counts no index: each turn takes a part off what is left.
fn find_numbers(line: &[u8], word: usize) -> Option<usize>
    requires { word ≡ length (word_in line.now) }
    ensures { MatchOption result (is_line line.now ≡ false)
        (λ count. (is_line line.now ≡ true) × (count ≡ length (numbers_in line.now))) }
{
    if word == 0 {
        return None;
    }
    let mut count: usize = 0;
    let mut left = &line[word..];
    while let [_space, text @ ..] = left {
        let part = read_piece(text)?;
        if part.size != 0 {
            count += 1;
        }
        left = &text[part.size..];
    }
    Some(count)
}

// Writes the numbers of a line at the front of the slice.
// Stays: the walk of `find_numbers` again, since `read_writes`, which `read_line` promises, leaves the slice as it was
// where a part is no number.
fn take_numbers(line: &[u8], word: usize, numbers: &mut [u64])
    requires word_value { word ≡ length (word_in line.now) }
    requires line_value { is_line line.now ≡ true }
    requires line_in_bounds { length (numbers_in line.now) ≤ length numbers.old }
    ensures { numbers.new ≡ placed numbers.old 0 (numbers_in line.now) }
{
    let mut count: usize = 0;
    let mut left = &line[word..];
    while let [_space, text @ ..] = left {
        let Some(part) = read_piece(text) else {
            unreachable!()
        };
        if part.size != 0 {
            numbers[count] = part.value;
            count += 1;
        }
        left = &text[part.size..];
    }
}

// Where the first piece of a line ends: at its first space, or where the line ends.
fn word_size(line: &[u8]) -> usize
    ensures { result ≡ length (word_in line.now) }
{
    line.iter()
        .position(|byte| *byte == b' ')
        .unwrap_or(line.len())
}

// Reads a line that is given without its newline: a word, and numbers behind spaces, which are written at the front of
// the slice. Refusal 10.
pub fn read_line(line: &[u8], numbers: &mut [u64]) -> Words
    ensures value { result ≡ read_reply line.now (length numbers.old) }
    ensures numbers_after { numbers.new ≡ read_writes line.now numbers.old }
{
    let text = bare(line);
    let word = word_size(text);
    let Some(count) = find_numbers(text, word) else {
        return NO_WORDS;
    };
    if numbers.len() < count {
        return Words {
            refusal: 10,
            ..NO_WORDS
        };
    }
    take_numbers(text, word, numbers);
    Words {
        refusal: 0,
        word,
        count,
    }
}
