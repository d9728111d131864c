// The listing of a whole run file, from its bytes to the text, and the state in which its run ends. Boxes count from
// 0.
#![tactic(auto)]

ghost use Rattle.std.specs.Prelude.{◌≡◌, ◌≢◌, ◌+◌, ◌≤◌, ◌<◌, ltb, cond};
ghost use Rattle.std.specs.Prelude.{[], ◌++◌, length};
ghost use Rattle.sizes.specs.Numbers.{refusal_in};
ghost use Rattle.lines.specs.Line.{line_of};
ghost use Rattle.listing.specs.File.{table_begins, table_bytes, begins_reply, state_after, refused_start};
ghost use Rattle.listing.specs.Inside.{Taken, Keeps, TakenTo, Underway, Started, LeadsTo, Moved, Ended};
ghost use Rattle.listing.specs.Listing.{
  run_line,
  at_line,
  box_line,
  box_lines,
  last_line,
  done_of,
  iteration_lines,
  first_lines,
  outcome_of,
  listing_of,
  list_reply,
  list_writes,
};

use run::{Next, Run};
use sizes::Refusal;
use std::marker::Model;

// Enough for any listing by the widths of its numbers alone: 18 bytes for the line `run`, 37 for each of 65 lines
// `at`, 26 for the last.
const TEXT_BYTES: usize = 2449;

// The reply of a listing: the refusal's number, or 0 with the number of bytes written and the refusal with which the
// listing ends, 0 where it ends with `sent`.
// Stays: numbers and no Result, since docs/SCOPE.md's replies carry 0 where nothing is refused; and a type and an end
// of `list` beside those of `why::answer`, since `list_reply` and `answer_reply` each give their own.
#[derive(Clone, Copy)]
pub struct Listed {
    pub refusal: u8,
    pub size: usize,
    pub ends: u8,
}

// The lines of a listing while it is put together. A clause sees them as the bytes that are there so far.
// Stays: beside `why::Line`, which is alike. One for both would be a public type of `lines`, whose functions may have
// no `requires` (docs/DECISIONS.md, "Code"): each put would be total, and both crates would wrap it again.
#[derive(Drop)]
struct Lines {
    bytes: [u8; TEXT_BYTES],
    size: usize,
}

impl Model for Lines {
    ghost use Rattle.std.specs.Prelude.{ℕ, ◌≤◌, List, take};

    ghost Value = { List ℕ };

    ghost view = { λ text. take text.size text.bytes };

    ghost invariant = { λ text. text.size ≤ 2449 };
}

impl Lines {
    // No line yet.
    fn new() -> Lines
        ensures { result ≡ [] }
    {
        Lines {
            bytes: [0; TEXT_BYTES],
            size: 0,
        }
    }

    // What is there so far.
    fn as_bytes(&self) -> &[u8]
        ensures { result.now ≡ self.now }
    {
        &self.bytes[..self.size]
    }

    // Puts a line behind the others.
    fn put_line(&mut self, word: &[u8], numbers: &[u64])
        requires { length self.old + length (line_of word.now numbers.now) ≤ 2449 }
        ensures { self.new ≡ self.old ++ line_of word.now numbers.now }
    {
        self.size = lines::put_line(&mut self.bytes, self.size, word, numbers);
    }

    // Puts the line `run`.
    // Stays: three numbers. With `&Run`, as in `put_box`, the proof that the line has room did not close.
    fn put_run(&mut self, n: u8, t: u8, faulty: u16)
        requires { length self.old + 18 ≤ 2449 }
        ensures text { self.new ≡ self.old ++ run_line n t faulty }
        ensures most { length self.new ≤ length self.old + 18 }
    {
        // Stays: `as`, here and below, since `from` is no plainer where a number goes straight into a line or a place.
        self.put_line(b"run", &[n as u64, t as u64, faulty as u64]);
    }

    // Puts a line `at`: iteration, box, row and list.
    fn put_at(&mut self, done: u8, i: usize, row: u64, list: u16)
        requires { (i < 13) × (length self.old + 37 ≤ 2449) }
        ensures text { self.new ≡ self.old ++ at_line done i row list }
        ensures most { length self.new ≤ length self.old + 37 }
    {
        let number = i + 1;
        self.put_line(b"at", &[done as u64, number as u64, row, list as u64]);
    }

    // Puts the line `at` of box i, nothing for a faulty box.
    fn put_box(&mut self, s: &Run, i: usize)
        requires { (i < 13) × (length self.old + 37 ≤ 2449) }
        ensures text { self.new ≡ self.old ++ box_line s.now i }
        ensures most { length self.new ≤ length self.old + 37 }
    {
        if sizes::is_member(s.faulty, i) {
            return;
        }
        self.put_at(s.done, i, s.rows[i], s.lists[i]);
    }

    // Puts the lines `at` of all sound boxes, in order.
    fn put_boxes(&mut self, s: &Run)
        requires { (s.now.n ≤ 13) × (length self.old + 481 ≤ 2449) }
        ensures text { self.new ≡ self.old ++ box_lines s.now s.now.n }
        ensures most { length self.new ≤ length self.old + 481 }
    {
        for i in 0..s.n as usize {
            self.put_box(s, i);
        }
    }

    // Puts the last line of a listing that ends with the messages.
    fn put_sent(&mut self, sent: u64)
        requires { length self.old + 26 ≤ 2449 }
        ensures { self.new ≡ self.old ++ last_line 0 sent }
    {
        self.put_line(b"sent", &[sent]);
    }

    // Puts the last line of a listing that ends with a refusal.
    fn put_refused(&mut self, refusal: u8)
        requires { (refusal ≢ 0) × (length self.old + 26 ≤ 2449) }
        ensures { self.new ≡ self.old ++ last_line refusal 0 }
    {
        self.put_line(b"refused", &[refusal as u64]);
    }
}

// Takes the rows of one sender from the bytes of a table, those of each step, each to its place.
// Stays: n beside the bytes, here and in `take_faulty`, since a struct of both would be made anew for each table.
fn take_sender(n: usize, sender: usize, bytes: &[u8], table: &mut [u64; 4563])
    requires { (n ≤ 13) × (sender < n) × (length bytes.now ≡ table_bytes n) }
    ensures { Taken n bytes.now table.new sender ×
        Keeps bytes.now table.old table.new }
{
    let square = n * n;
    let cube = square * n;
    let from = sender * square;
    runfile::read_part(bytes, sender * n, n, table);
    runfile::read_part(bytes, square + from, square, table);
    runfile::read_part(bytes, square + cube + from, square, table);
}

// Takes the rows of all faulty senders from the bytes of a table. A sound sender's places are never read, so they
// need not be there.
fn take_faulty(n: usize, faulty: u16, bytes: &[u8], table: &mut [u64; 4563])
    requires { (n ≤ 13) × (length bytes.now ≡ table_bytes n) }
    ensures { TakenTo n faulty bytes.now table.new n }
{
    for sender in 0..n {
        if sizes::is_member(faulty, sender) {
            take_sender(n, sender, bytes, table);
        }
    }
}

// Where table m of n boxes begins in a file, or ends where m tables are all. 0 for an n outside 1 to 13.
pub fn table_begins(n: u8, m: u8) -> usize
    ensures { result ≡ begins_reply n m }
{
    match n {
        1..=13 => 9 + 8 * (n as usize) + (m as usize) * (8 * sizes::table_rows(n)),
        _ => 0,
    }
}

// The same for an n that has passed, and at most as many tables as a file has.
// Stays: a function, since both calls want the bound as well, and `table_begins` may have no `requires` that gives it.
fn begins(n: u8, m: u8) -> usize
    requires { (1 ≤ n) × (n ≤ 13) × (m ≤ 5) }
    ensures { (result ≡ table_begins n m) × (result ≤ 182633) }
{
    table_begins(n, m)
}

// The heading and the start: the state before the first iteration, or the refusal.
// Stays: a number in Err, here and below, and no error enum, since the replies of runfile and run carry numbers
// (docs/SCOPE.md): back to a `Refusal` each would need a case for the numbers that are none.
fn begin(bytes: &[u8]) -> Result<Run, u8>
    ensures { LeadsTo (refused_start bytes.now) (state_after bytes.now 0) result }
{
    let mut rows = [0u64; 13];
    let heading = runfile::read_heading(bytes, &mut rows);
    if heading.refusal != 0 {
        return Err(heading.refusal);
    }
    let n = heading.n as usize;
    let first = run::start(heading.n, heading.t, heading.faulty, &rows[..n]);
    if first.refusal != 0 {
        return Err(first.refusal);
    }
    Ok(first.run)
}

// The iteration with the next table of the file, or the refusal: 8 where that table is not whole. The state changes
// where it stands, since one that is handed back is copied.
fn advance(s: &mut Run, bytes: &[u8], table: &mut [u64; 4563]) -> Result<(), u8>
    requires { Underway s.old bytes.now }
    ensures { Moved s.old bytes.now s.new result }
{
    let rows = sizes::table_rows(s.n);
    let from = begins(s.n, s.done);
    if bytes.len() - from < 8 * rows {
        return Err(u8::from(Refusal::WrongBytes));
    }
    let end = from + 8 * rows;
    take_faulty(s.n as usize, s.faulty, &bytes[from..end], table);
    let next = s.iterate(&table[..rows]);
    if next.refusal != 0 {
        return Err(next.refusal);
    }
    *s = next.run;
    Ok(())
}

// Does the file end with the last table?
fn check_end(s: &Run, bytes: &[u8]) -> Result<(), Refusal>
    requires { (1 ≤ s.now.n) × (s.now.n ≤ 13) × (s.now.done ≤ 5) }
    ensures { refusal_in result ≡ cond (ltb (table_begins s.now.n s.now.done) (length bytes.now)) 8 0 }
{
    if begins(s.n, s.done) < bytes.len() {
        return Err(Refusal::WrongBytes);
    }
    Ok(())
}

// All iterations, and the lines after each, until a table is refused or none is due: the last state, or the refusal.
// Stays: a `while`, which is plainer, since the state itself counts the iterations.
fn tell_iterations(
    mut s: Run,
    bytes: &[u8],
    table: &mut [u64; 4563],
    text: &mut Lines,
) -> Result<Run, u8>
    requires { Started s bytes.now × (length text.old + 2405 ≤ 2449) }
    ensures ends { Ended bytes.now result }
    ensures text { text.new ≡ text.old ++ iteration_lines bytes.now (done_of bytes.now) }
    ensures most { length text.new ≤ length text.old + 2405 }
{
    while s.done <= s.t {
        // No `?` here: the edit `cut_file_taken` changes what is returned.
        if let Err(refusal) = advance(&mut s, bytes, table) {
            return Err(refusal);
        }
        text.put_boxes(&s);
    }
    check_end(&s, bytes)?;
    Ok(s)
}

// All lines but the last: the last state, or the refusal.
fn tell_lines(bytes: &[u8], text: &mut Lines) -> Result<Run, u8>
    requires { text.old ≡ [] }
    ensures ends { Ended bytes.now result }
    ensures text { text.new ≡ first_lines bytes.now }
    ensures most { length text.new ≤ 2423 }
{
    let mut table = [0u64; 4563];
    let s = begin(bytes)?;
    text.put_run(s.n, s.t, s.faulty);
    tell_iterations(s, bytes, &mut table, text)
}

// The outcome of a file, and its whole listing.
// Stays: a `Next` and no Result, since `outcome` hands it out as it is.
fn tell(bytes: &[u8], text: &mut Lines) -> Next
    requires { text.old ≡ [] }
    ensures outcome { result ≡ outcome_of bytes.now }
    ensures text { text.new ≡ listing_of bytes.now }
{
    match tell_lines(bytes, text) {
        Ok(last) => {
            text.put_sent(last.sent);
            Next {
                refusal: 0,
                run: last,
            }
        }
        Err(refusal) => {
            text.put_refused(refusal);
            Next {
                refusal,
                run: run::no_run(),
            }
        }
    }
}

// Lists a whole file to the front of a slice. Refusal 10 where the text does not fit; the slice is then untouched.
pub fn list(bytes: &[u8], out: &mut [u8]) -> Listed
    ensures value { result ≡ list_reply bytes.now (length out.old) }
    ensures out_after { out.new ≡ list_writes bytes.now out.old }
{
    let mut text = Lines::new();
    let last = tell(bytes, &mut text);
    let told = text.as_bytes();
    let size = told.len();
    if out.len() < size {
        return Listed {
            refusal: u8::from(Refusal::ShortSlice),
            size: 0,
            ends: 0,
        };
    }
    lines::copy(told, out);
    Listed {
        refusal: 0,
        size,
        ends: last.refusal,
    }
}

// The outcome of a whole file: the refusal with which its listing ends, 0 where it ends with `sent`, and the last
// state, zeros where the file is refused.
pub fn outcome(bytes: &[u8]) -> Next
    ensures { result ≡ outcome_of bytes.now }
{
    let mut text = Lines::new();
    tell(bytes, &mut text)
}
