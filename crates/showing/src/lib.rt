// Shows a run file as text (docs/TEXT.md), part by part: the lines `run` and `rows`, and then the lines of each table.
#![tactic(auto)]

ghost use Rattle.std.specs.Prelude.{◌≡◌, ◌*◌, ◌≤◌, ◌<◌, length, get_or};
ghost use Rattle.sizes.specs.Sizes.{table_rows};
ghost use Rattle.listing.specs.File.{heading, due};
ghost use Rattle.listing.specs.Listing.{ends_with};
ghost use Rattle.listing.specs.Inside.{Put};
ghost use Rattle.showing.specs.Inside.{Opened, part_of};
ghost use Rattle.showing.specs.Show.{
  place_text,
  places_text,
  table_text,
  part_text,
  heading_text,
  part_room,
  show_refusal,
  show_reply,
  show_writes,
};

use runfile::Heading;
use sizes::Refusal;
use std::marker::Model;

// The reply of a part that is shown: the refusal's number, or 0 with the number of bytes written and how many parts
// there are.
// Stays: numbers and no Result, since docs/SCOPE.md's replies carry 0 where nothing is refused.
#[derive(Clone, Copy)]
pub struct Shown {
    pub refusal: u8,
    pub size: usize,
    pub parts: usize,
}

// A run file whose listing ends with `sent`, and what its heading says. A clause sees it as its bytes.
#[derive(Drop)]
struct File<'a> {
    bytes: &'a [u8],
    heading: Heading,
    rows: [u64; 13],
}

impl<'a> Model for File<'a> {
    ghost use Rattle.std.specs.Prelude.{ℕ, List};
    ghost use Rattle.showing.specs.Inside.{GoodRead};

    ghost Value = { List ℕ };

    ghost view = { λ file. file.bytes.now };

    ghost invariant = { λ file. GoodRead file.bytes.now file.heading file.rows };
}

impl<'a> File<'a> {
    // Opens a file. One whose listing does not end with `sent` is refused by the number with which it ends: the
    // heading's refusal, or 8 where the length is not the one that the heading asks for.
    // Stays: a number in Err, here and below, and no error enum, since the heading's reply carries a number
    // (docs/SCOPE.md): back to a `Refusal` it would need a case for the numbers that are none.
    fn open(bytes: &'a [u8]) -> Result<File<'a>, u8>
        ensures { Opened (ends_with bytes.now) bytes.now result }
    {
        let mut rows = [0u64; 13];
        let heading = runfile::read_heading(bytes, &mut rows);
        if heading.refusal != 0 {
            return Err(heading.refusal);
        }
        if bytes.len() != listing::table_begins(heading.n, heading.t + 1) {
            return Err(u8::from(Refusal::WrongBytes));
        }
        Ok(File {
            bytes,
            heading,
            rows,
        })
    }

    // Opens a file of which a part is to be shown in so many bytes.
    fn open_for(bytes: &'a [u8], table: Option<usize>, room: usize) -> Result<File<'a>, u8>
        ensures { Opened (show_refusal bytes.now (part_of table) room) bytes.now result }
    {
        let file = File::open(bytes)?;
        if room < file.part_room(table) {
            return Err(u8::from(Refusal::ShortSlice));
        }
        Ok(file)
    }

    // The room that a part may need at most.
    fn part_room(&self, table: Option<usize>) -> usize
        ensures { result ≡ part_room self.now (part_of table) }
    {
        match table {
            None => 300,
            Some(_) => 40 * sizes::table_rows(self.heading.n),
        }
    }

    // Puts the lines `run` and `rows`.
    // Stays: a size, as of all that follow, since the slice is the caller's (docs/SCOPE.md, `showing::show`).
    fn put_heading(&self, out: &mut [u8]) -> usize
        requires { 300 ≤ length out.old }
        ensures { Put out.old out.new 0 result (heading_text self.now) }
    {
        let h = self.heading;
        // Stays: `as`, here and below, since `from` is no plainer and `try_from` has a failure that nothing reaches.
        let n = h.n as usize;
        let numbers = [h.n as u64, h.t as u64, h.faulty as u64];
        let end = lines::put_line(out, 0, b"run", &numbers);
        lines::put_line(out, end, b"rows", &self.rows[..n])
    }

    // Puts the line of a place of table m at the front of a slice, nothing where the place holds 0.
    // Stays: that the file has table m is a clause here and below; a struct of both would be made for each table.
    fn put_place(&self, m: u8, place: usize, row: u64, out: &mut [u8]) -> usize
        requires place { (m < due self.now) × (place < table_rows (heading self.now).n) }
        requires room { 40 ≤ length out.old }
        ensures text { Put out.old out.new 0 result (place_text (heading self.now).n m place row) }
        ensures most { result ≤ 40 }
    {
        let nothing = row == 0;
        if nothing {
            return 0;
        }
        says::write_say(self.heading.n, m, place as u16, row, out).size
    }

    // Puts the lines of table m with these rows.
    fn put_rows(&self, m: u8, rows: &[u64], out: &mut [u8]) -> usize
        requires rows { (m < due self.now) × (length rows.now ≡ table_rows (heading self.now).n) }
        requires room { 40 * length rows.now ≤ length out.old }
        ensures { let n = (heading self.now).n in
            Put out.old out.new 0 result (places_text n m (λ k. get_or rows.now k 0) (table_rows n)) }
    {
        let mut end: usize = 0;
        for (place, row) in rows.iter().enumerate() {
            end += self.put_place(m, place, *row, &mut out[end..]);
        }
        end
    }

    // Puts the lines of table m, from 0.
    fn put_table(&self, m: u8, out: &mut [u8]) -> usize
        requires m { m < due self.now }
        requires room { 40 * table_rows (heading self.now).n ≤ length out.old }
        ensures { Put out.old out.new 0 result (table_text self.now m) }
    {
        let n = self.heading.n;
        let mut table = [0u64; 4563];
        let from = listing::table_begins(n, m);
        let end = listing::table_begins(n, m + 1);
        runfile::read_table(n, &self.bytes[from..end], &mut table);
        let count = sizes::table_rows(n);
        self.put_rows(m, &table[..count], out)
    }

    // Puts a part, nothing where it lies behind the last.
    fn put_part(&self, table: Option<usize>, out: &mut [u8]) -> usize
        requires { part_room self.now (part_of table) ≤ length out.old }
        ensures { Put out.old out.new 0 result (part_text self.now (part_of table)) }
    {
        match table {
            None => self.put_heading(out),
            Some(m) if m <= self.heading.t as usize => self.put_table(m as u8, out),
            Some(_) => 0,
        }
    }
}

// Shows a part of a run file at the front of a slice. Refused by the number with which the listing of the file ends,
// and by 10 where the slice is too short for the longest such part.
pub fn show(bytes: &[u8], part: usize, out: &mut [u8]) -> Shown
    ensures value { result ≡ show_reply bytes.now part (length out.old) }
    ensures out_after { out.new ≡ show_writes bytes.now part out.old }
{
    let table = part.checked_sub(1);
    match File::open_for(bytes, table, out.len()) {
        Ok(file) => {
            let size = file.put_part(table, out);
            Shown {
                refusal: 0,
                size,
                parts: (file.heading.t as usize) + 2,
            }
        }
        Err(refusal) => Shown {
            refusal,
            size: 0,
            parts: 0,
        },
    }
}
