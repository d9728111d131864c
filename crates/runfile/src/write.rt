// The run file: the writer of a heading and the writer of a table, over the same definition of the format as the
// readers. Who writes a whole file writes the heading and then its t + 1 tables, one behind the other.
ghost use Rattle.std.specs.Prelude.{◌≡◌, ◌+◌, ◌*◌, ◌≤◌, length};
ghost use Rattle.sizes.specs.Numbers.{refusal_in};
ghost use Rattle.runfile.specs.File.{in_bytes, rows_in_bytes};
ghost use Rattle.runfile.specs.Inside.{first_nine};
ghost use Rattle.runfile.specs.Write.{
  put_from,
  at_front,
  write_heading_refusal,
  write_heading_reply,
  write_heading_writes,
  write_table_refusal,
  write_table_reply,
  write_table_writes,
  row_refusal,
  row_writes,
};

use crate::{Boxes, MARK};
use sizes::Refusal;

// The reply of a writer: the refusal's number, or 0 with the number of bytes written.
// Stays: a number and no Result, since docs/SCOPE.md's replies carry 0 where nothing is refused; a type beside
// `lines::Written`, since docs/SCOPE.md names both and neither crate lies above the other (crates.txt).
#[derive(Clone, Copy)]
pub struct Wrote {
    pub refusal: u8,
    pub size: usize,
}

// Writes the 8 bytes of a row from a place on.
// Stays: a slice and a place beside it, here and in `put_rows`, since `row_writes`, which `write_row` promises, has
// the place, and a heading's rows begin behind its 9 bytes.
fn put_row(row: u64, at: usize, out: &mut [u8])
    requires { at + 8 ≤ length out.old }
    ensures { out.new ≡ put_from at (in_bytes 8 row) out.old }
{
    out[at..at + 8].copy_from_slice(&row.to_be_bytes());
}

// Writes the rows, one behind the other, from a place on.
fn put_rows(rows: &[u64], at: usize, out: &mut [u8])
    requires { at + 8 * length rows.now ≤ length out.old }
    ensures { out.new ≡
        put_from at (rows_in_bytes rows.now (length rows.now)) out.old }
{
    for (k, row) in rows.iter().enumerate() {
        put_row(*row, at + 8 * k, out);
    }
}

// Writes the heading's 9 bytes before its rows: the mark, the version, n, t and the faulty set.
fn put_nine(n: u8, t: u8, faulty: u16, out: &mut [u8])
    requires { 9 ≤ length out.old }
    ensures { out.new ≡ at_front (first_nine n t faulty) out.old }
{
    let [high, low] = faulty.to_be_bytes();
    out[..9].copy_from_slice(&[MARK[0], MARK[1], MARK[2], 0, 1, n, t, high, low]);
}

// Refusals 4, 5, 6, 11, 9 and 10 of a heading, for a slice of so many bytes.
// Stays: the tests of `run::check_start` and the room. `sizes` has three of the tests; one function for all would be
// public, with a definition and an edit of its own, and save four tests here. n, t and the faulty set come one by one,
// here and below, as docs/SCOPE.md names the call.
fn check_heading(n: u8, t: u8, faulty: u16, rows: &[u64], room: usize) -> Result<(), Refusal>
    ensures { refusal_in result ≡ write_heading_refusal n t faulty rows.now room }
{
    sizes::check_size(n as usize, t)?;
    if sizes::is_stray(n, faulty) {
        return Err(Refusal::Stray);
    }
    if rows.len() != n as usize {
        return Err(Refusal::WrongLength);
    }
    if sizes::has_sound_zero(faulty, rows) {
        return Err(Refusal::SoundZero);
    }
    if room < 9 + 8 * (n as usize) {
        return Err(Refusal::ShortSlice);
    }
    Ok(())
}

// The heading writer: the mark, the version, n, t, the faulty set and the n rows at the front of the slice. Refusals
// 4, 5, 6, 11, 9, 10.
pub fn write_heading(n: u8, t: u8, faulty: u16, rows: &[u64], out: &mut [u8]) -> Wrote
    ensures value { result ≡ write_heading_reply n t faulty rows.now (length out.old) }
    ensures out_after { out.new ≡ write_heading_writes n t faulty rows.now out.old }
{
    if let Err(refusal) = check_heading(n, t, faulty, rows, out.len()) {
        return Wrote {
            refusal: u8::from(refusal),
            size: 0,
        };
    }
    put_nine(n, t, faulty, out);
    put_rows(rows, 9, out);
    let size = 9 + 8 * rows.len();
    Wrote { refusal: 0, size }
}

// Refusals 4, 11 and 10 of a table, for a slice of so many bytes.
// Stays: a test beside `rows_read`, since the length that is due, its refusal and the room all differ; the rows of a
// table for n alone are the same, and `Boxes` gives them to both.
fn check_table(n: u8, rows: &[u64], room: usize) -> Result<(), Refusal>
    ensures { refusal_in result ≡ write_table_refusal n rows.now room }
{
    let count = Boxes::new(n)?.table_rows();
    if rows.len() != count {
        return Err(Refusal::WrongLength);
    }
    if room < 8 * count {
        return Err(Refusal::ShortSlice);
    }
    Ok(())
}

// The table writer: the table's rows at the front of the slice. Refusals 4, 11, 10.
pub fn write_table(n: u8, rows: &[u64], out: &mut [u8]) -> Wrote
    ensures value { result ≡ write_table_reply n rows.now (length out.old) }
    ensures out_after { out.new ≡ write_table_writes n rows.now out.old }
{
    if let Err(refusal) = check_table(n, rows, out.len()) {
        return Wrote {
            refusal: u8::from(refusal),
            size: 0,
        };
    }
    put_rows(rows, 0, out);
    let size = 8 * rows.len();
    Wrote { refusal: 0, size }
}

// Writes the 8 bytes of one row at a place of the slice. Refusal 10.
// Stays: a bare number and no Result, and a place beside the slice: docs/DECISIONS.md, Refusals, and docs/SCOPE.md
// name the call so.
pub fn write_row(row: u64, at: usize, out: &mut [u8]) -> u8
    ensures value { result ≡ row_refusal at (length out.old) }
    ensures out_after { out.new ≡ row_writes row at out.old }
{
    if out.len() < 8 || out.len() - 8 < at {
        return u8::from(Refusal::ShortSlice);
    }
    put_row(row, at, out);
    0
}
