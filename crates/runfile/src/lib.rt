// The run file: the heading reader, the table reader and the reader of a part of a table. All numbers stand most
// significant byte first. The writer is in write.rt.
#![tactic(auto)]

mod write;

ghost use Rattle.std.specs.Prelude.{◌≡◌, false, not, ◌&&◌, ◌+◌, ◌*◌, ◌≤◌, eqb, length};
ghost use Rattle.std.specs.Prelude.{true, IfOk, MatchResult};
ghost use Rattle.counting.specs.Count.{build, front};
ghost use Rattle.sizes.specs.Numbers.{number_of, refusal_in};
ghost use Rattle.sizes.specs.Sizes.{outside, too_many, sound_zero, table_rows};
ghost use Rattle.runfile.specs.File.{number, n_of, t_of, heading_bytes, row_from, heading_row};
ghost use Rattle.runfile.specs.Reply.{
  heading_refusal,
  heading_of,
  heading_reply,
  heading_writes,
  table_refusal,
  table_writes,
  part_refusal,
  part_writes,
};

use sizes::Refusal;
pub use write::{Wrote, write_heading, write_row, write_table};

// The mark that a heading begins with.
const MARK: [u8; 3] = [b'H', b'N', b'B'];

// The reply of the heading reader: the refusal's number, or 0 with what the heading says.
// Stays: a number and no Result, since docs/SCOPE.md's replies carry 0 where nothing is refused.
#[derive(Clone, Copy)]
pub struct Heading {
    pub refusal: u8,
    pub version: u16,
    pub n: u8,
    pub t: u8,
    pub faulty: u16,
}

// The reply where no heading is read.
const NO_HEADING: Heading = Heading {
    refusal: 0,
    version: 0,
    n: 0,
    t: 0,
    faulty: 0,
};

// The number in the 2 bytes from a place on.
// Stays: a slice and a place beside it, since the definition `number` has them so.
fn number2(bytes: &[u8], at: usize) -> u16
    requires { at + 2 ≤ length bytes.now }
    ensures { result ≡ number bytes.now at 2 }
{
    u16::from_be_bytes([bytes[at], bytes[at + 1]])
}

// The number in the 8 bytes from a place on.
// Stays: a function beside `number2`, since `from_be_bytes` is a method of each type and of no trait.
fn number8(bytes: &[u8], at: usize) -> u64
    requires { at + 8 ≤ length bytes.now }
    ensures { result ≡ number bytes.now at 8 }
{
    u64::from_be_bytes(bytes[at..at + 8].try_into().unwrap())
}

// Refusal 4: is n outside 1 to 13?
fn is_outside(n: u8) -> bool
    ensures { result ≡ outside n }
{
    match n {
        1..=13 => false,
        _ => true,
    }
}

// A number of boxes that a run may have: 1 to 13.
#[derive(Clone, Copy)]
struct Boxes {
    n: u8,
    ghost inside: { outside n ≡ false },
}

impl Boxes {
    // Refusal 4.
    fn new(n: u8) -> Result<Boxes, Refusal>
        ensures { MatchResult result (λ boxes. boxes.n ≡ n)
            (λ refusal. (outside n ≡ true) × (number_of refusal ≡ 4)) }
    {
        if is_outside(n) {
            return Err(Refusal::Outside);
        }
        Ok(Boxes { n })
    }

    // The t that a heading's byte stands for: 255 is the largest, 0 to 4 are held against n, and every other number is
    // refused. Refusal 5.
    fn t_of(self, byte: u8) -> Result<u8, Refusal>
        ensures { MatchResult result
            (λ t. ((not (eqb byte 255) && too_many self.n byte) ≡ false) × (t ≡ t_of self.n byte))
            (λ refusal. ((not (eqb byte 255) && too_many self.n byte) ≡ true) × (number_of refusal ≡ 5)) }
    {
        match byte {
            255 => Ok(sizes::largest_t(self.n)),
            0..=4 if 3 * byte < self.n => Ok(byte),
            _ => Err(Refusal::TooMany),
        }
    }

    // The rows in one iteration's table.
    fn table_rows(self) -> usize
        ensures { result ≡ table_rows self.n }
    {
        sizes::table_rows(self.n)
    }
}

// Refusal 9: is some sound box's row 0 in the heading?
// Stays: a loop of its own beside `sizes::has_sound_zero`, since the rows lie in bytes, and rows made of them first
// would be a copy.
fn has_sound_zero(bytes: &[u8], n: usize, faulty: u16) -> bool
    requires { heading_bytes n ≤ length bytes.now }
    ensures { result ≡ sound_zero n faulty (build n (heading_row bytes.now)) }
{
    for k in 0..n {
        if sizes::is_sound_zero(faulty, k, number8(bytes, 9 + 8 * k)) {
            return true;
        }
    }
    false
}

// What a heading says, for a slice of so many rows. Refusals 1, 2, 3, 4, 5, 6, 8, 9 and 10.
fn check_heading(bytes: &[u8], room: usize) -> Result<Heading, Refusal>
    ensures refusal { refusal_in result ≡ heading_refusal bytes.now room }
    ensures heading { IfOk result (λ heading. heading ≡ heading_of bytes.now) }
{
    if bytes.len() < 9 {
        return Err(Refusal::ShortHeading);
    }
    if !bytes.starts_with(&MARK) {
        return Err(Refusal::NoMark);
    }
    let version = number2(bytes, 3);
    if version != 1 {
        return Err(Refusal::OtherVersion);
    }
    let n = bytes[5];
    let boxes = Boxes::new(n)?;
    let t = boxes.t_of(bytes[6])?;
    let faulty = number2(bytes, 7);
    if sizes::is_stray(n, faulty) {
        return Err(Refusal::Stray);
    }
    // Stays: `as`, here and below, since `from` is no plainer for a length or a place.
    if bytes.len() < 9 + 8 * (n as usize) {
        return Err(Refusal::WrongBytes);
    }
    if has_sound_zero(bytes, n as usize, faulty) {
        return Err(Refusal::SoundZero);
    }
    if room < n as usize {
        return Err(Refusal::ShortSlice);
    }
    Ok(Heading {
        refusal: 0,
        version,
        n,
        t,
        faulty,
    })
}

// Writes so many rows, which begin at a place of the bytes, at the front of the slice. The loop compiles to one that
// turns four rows at once.
// Stays: a slice with a place or a count beside it, here and in `number8`, since `row_from` of specs/File.antt, which
// the readers promise, says at which place of the whole bytes a row stands, and parts cut off would move it.
fn write_rows(bytes: &[u8], at: usize, count: usize, rows: &mut [u64])
    requires { (at + 8 * count ≤ length bytes.now) × (count ≤ length rows.old) }
    ensures { rows.new ≡ front count (row_from at bytes.now) rows.old }
{
    for k in 0..count {
        rows[k] = number8(bytes, at + 8 * k);
    }
}

// The heading reader: version, n, t and the faulty set, and the n rows at the front of the slice. Refusals 1, 2, 3,
// 4, 5, 6, 8, 9, 10.
pub fn read_heading(bytes: &[u8], rows: &mut [u64]) -> Heading
    ensures value { result ≡ heading_reply bytes.now (length rows.old) }
    ensures rows_after { rows.new ≡ heading_writes bytes.now rows.old }
{
    match check_heading(bytes, rows.len()) {
        Ok(heading) => {
            write_rows(bytes, 9, heading.n as usize, rows);
            heading
        }
        Err(refusal) => Heading {
            refusal: u8::from(refusal),
            ..NO_HEADING
        },
    }
}

// The rows of a table that is read into a slice of so many. Refusals 4, 8 and 10.
fn rows_read(n: u8, bytes: &[u8], room: usize) -> Result<usize, Refusal>
    ensures refusal { refusal_in result ≡ table_refusal n bytes.now room }
    ensures count { IfOk result (λ count. count ≡ table_rows n) }
{
    let count = Boxes::new(n)?.table_rows();
    if bytes.len() != 8 * count {
        return Err(Refusal::WrongBytes);
    }
    if room < count {
        return Err(Refusal::ShortSlice);
    }
    Ok(count)
}

// The table reader: the table's rows at the front of the slice. Refusals 4, 8, 10.
// Stays: a bare number and no Result, here and in `read_part`: docs/DECISIONS.md, Refusals.
pub fn read_table(n: u8, bytes: &[u8], rows: &mut [u64]) -> u8
    ensures value { result ≡ table_refusal n bytes.now (length rows.old) }
    ensures rows_after { rows.new ≡ table_writes n bytes.now rows.old }
{
    match rows_read(n, bytes, rows.len()) {
        Ok(count) => {
            write_rows(bytes, 0, count, rows);
            0
        }
        Err(refusal) => u8::from(refusal),
    }
}

// Refusals 8 and 10 of a part of a table, for a slice of so many rows.
fn check_part(bytes: &[u8], from: usize, count: usize, room: usize) -> Result<(), Refusal>
    ensures { refusal_in result ≡ part_refusal from count bytes.now room }
{
    let whole = bytes.len() / 8;
    if whole < from || whole - from < count {
        return Err(Refusal::WrongBytes);
    }
    let short = room < from + count;
    if short {
        return Err(Refusal::ShortSlice);
    }
    Ok(())
}

// The part reader: so many of a table's rows from a place on, each to its own place of the slice. Who needs some
// senders' rows alone reads those. Refusals 8, 10.
// Stays: a place and a count beside the bytes, since docs/SCOPE.md names the call so.
pub fn read_part(bytes: &[u8], from: usize, count: usize, rows: &mut [u64]) -> u8
    ensures value { result ≡ part_refusal from count bytes.now (length rows.old) }
    ensures rows_after { rows.new ≡ part_writes from count bytes.now rows.old }
{
    if let Err(refusal) = check_part(bytes, from, count, rows.len()) {
        return u8::from(refusal);
    }
    let end = from + count;
    write_rows(bytes, 8 * from, count, &mut rows[from..end]);
    0
}
