// Makes a run file from a text (docs/TEXT.md). A text of any length is taken in pieces; what is known of it so far is
// in the maker, the unfinished line in one lent slice and the file in another.
#![tactic(auto)]

ghost use Rattle.std.specs.Prelude.{
  ◌≡◌,
  ◌≢◌,
  List,
  ℕ,
  ◌≤◌,
  true,
  leb,
  length,
  take,
  IfOk,
  MatchResult,
};
ghost use Rattle.sizes.specs.Numbers.{refusal_in};
ghost use Rattle.sizes.specs.Sizes.{size_refusal};
ghost use Rattle.runfile.specs.Write.{write_heading_refusal};
ghost use Rattle.making.specs.Make.{
  progress,
  no_text,
  after_line,
  settled,
  is_comment,
  is_empty,
  run_taken,
  file_bytes,
  file_room,
  empty_file,
  rows_taken,
  say_taken,
  words_taken,
  line_ended,
};
ghost use Rattle.making.specs.Faults.{fault_number};
ghost use Rattle.making.specs.Text.{
  reading,
  byte_kept,
  line_over,
  byte_taken,
  bytes_taken,
  take_reply,
  is_settled,
  settled_as,
  ends_early,
  refused_as,
  whole_file,
  outcome_by,
  left_line,
  finish_reply,
  finish_writes,
};

use sizes::Refusal;

// What is due by the stage of a maker: the line `run`, the line `rows`, a line `say`, or from SETTLED on nothing.
// Stays: numbers with names and no enum, since a maker's public field holds the number and the public calls answer for
// each number.
const RUN_DUE: u8 = 0;

const ROWS_DUE: u8 = 1;

const SAY_DUE: u8 = 2;

const SETTLED: u8 = 3;

// What is at fault with a line, or with the end of a text.
// Stays: an enum here and the numbers again in `says`, since `says::tell` answers for numbers that are none of these.
#[derive(Clone, Copy)]
enum Fault {
    TooLong,
    NoNumbers,
    RunDue,
    RowsDue,
    SayDue,
}

impl From<Fault> for u8 {
    ghost from_gives = { λ fault number. number ≡ fault_number fault };

    // The number of its sentence (docs/TEXT.md).
    fn from(fault: Fault) -> u8 {
        match fault {
            Fault::TooLong => 1,
            Fault::NoNumbers => 2,
            Fault::RunDue => 3,
            Fault::RowsDue => 4,
            Fault::SayDue => 5,
        }
    }
}

// What is known of a text so far. The stage says what is due: 0 the line `run`, 1 the line `rows`, 2 a line `say`;
// from 3 on the outcome is settled, by a refusal or by a fault in the last of the lines.
// Stays: numbers for the stage, the refusal and the fault, since `take` and `finish` answer for a maker with any; and
// `kept`, the length of the unfinished line, since the caller lends that line anew to each call.
#[derive(Clone, Copy)]
pub struct Maker {
    pub stage: u8,
    pub n: u8,
    pub t: u8,
    pub faulty: u16,
    pub lines: u64,
    pub kept: usize,
    pub refusal: u8,
    pub fault: u8,
}

// The outcome of a text: a refusal, or a fault and its line, or the size of the file.
// Stays: numbers and no Result, since docs/SCOPE.md's replies carry 0 where nothing is refused.
#[derive(Clone, Copy)]
pub struct Made {
    pub refusal: u8,
    pub line: u64,
    pub fault: u8,
    pub size: usize,
}

// The outcome without a file, a refusal or a fault.
const NOTHING: Made = Made {
    refusal: 0,
    line: 0,
    fault: 0,
    size: 0,
};

// A maker that knows nothing yet.
#[tactic(auto, unfolding(crate::specs::Make::no_text))]
pub fn no_text() -> Maker
    ensures { result ≡ no_text }
{
    Maker {
        stage: RUN_DUE,
        n: 0,
        t: 0,
        faulty: 0,
        lines: 0,
        kept: 0,
        refusal: 0,
        fault: 0,
    }
}

// Does the line begin with `#`?
#[tactic(auto, unfolding(crate::specs::Make::is_comment))]
fn is_comment(line: &[u8]) -> bool
    ensures { result ≡ is_comment line.now }
{
    matches!(line, [b'#', ..])
}

// Is the line empty, but for spaces and a carriage return at the very end?
// Stays: the carriage return is cut here as `lines` cuts it; what both would call would be public in lines.
fn is_empty(line: &[u8]) -> bool
    ensures { result ≡ is_empty line.now }
{
    let bare = line.strip_suffix(b"\r").unwrap_or(line);
    bare.iter().all(|byte| *byte == b' ')
}

// The length of a run file. Refusals 4, 5.
fn file_bytes(n: u8, t: u8) -> Result<usize, Refusal>
    ensures refused { refusal_in result ≡ size_refusal n t }
    ensures bytes { IfOk result (λ size. size ≡ file_bytes n t) }
{
    // Stays: `as`, here and below, since `from` is no plainer for a length and the rest are proved to fit.
    sizes::check_size(n as usize, t)?;
    Ok(listing::table_begins(n, t + 1))
}

// How much of a slice is room for the file: none where n and t are refused.
#[tactic(auto, unfolding(crate::specs::Make::file_room, crate::specs::Make::file_bytes))]
fn file_room(n: u8, t: u8, room: usize) -> usize
    ensures { (result ≡ file_room n t room) × (result ≤ room) }
{
    match file_bytes(n, t) {
        Err(_) => 0,
        Ok(needed) if room < needed => 0,
        Ok(needed) => needed,
    }
}

impl Maker {
    // One more line has ended, as far as 64 bits count.
    #[tactic(auto, unfolding(crate::specs::Make::after_line, crate::specs::Make::one_more))]
    fn after_line(self) -> Maker
        ensures { result ≡ after_line self }
    {
        Maker {
            lines: self.lines.saturating_add(1),
            kept: 0,
            ..self
        }
    }

    // Is the outcome settled?
    fn is_over(self) -> bool
        ensures { result ≡ leb 3 self.stage }
    {
        SETTLED <= self.stage
    }

    // The last line is at fault, which settles the outcome.
    #[tactic(auto, unfolding(crate::specs::Make::settled))]
    fn at_fault(self, fault: Fault) -> Maker
        ensures { result ≡ settled self self.refusal (fault_number fault) }
    {
        Maker {
            stage: SETTLED,
            fault: u8::from(fault),
            ..self
        }
    }

    // A refusal, by its number, settles the outcome.
    #[tactic(auto, unfolding(crate::specs::Make::settled))]
    fn refused(self, refusal: u8) -> Maker
        ensures { result ≡ settled self refusal self.fault }
    {
        Maker {
            stage: SETTLED,
            refusal,
            ..self
        }
    }

    // The line `run`.
    fn take_run(self, numbers: &[u64]) -> Maker
        ensures { (file : List ℕ) → progress result file ≡ run_taken (progress self file) true numbers.now }
    {
        match numbers {
            &[n, t, faulty] => Maker {
                stage: ROWS_DUE,
                n: n.min(255) as u8,
                t: t.min(255) as u8,
                faulty: faulty.min(65535) as u16,
                ..self
            },
            _ => self.at_fault(Fault::RunDue),
        }
    }

    // Writes a file without any row that was said: the heading, and tables of zeros. The slice is as long as the file,
    // or empty. Fails with the heading's refusal, and then writes nothing.
    // Stays: the failure is a number and no Refusal, since the reply of `runfile::write_heading` carries a number;
    // back to a Refusal it would need a case for numbers that are none.
    fn write_empty(self, rows: &[u64], file: &mut [u8]) -> Result<(), u8>
        requires { (length file.old ≡ 0 → ⊥) → length file.old ≡ file_bytes self.n self.t }
        ensures { MatchResult result
            (λ done. (write_heading_refusal self.n self.t self.faulty rows.now (length file.old) ≡ 0) ×
            (file.new ≡ empty_file self rows.now))
            (λ refusal. (refusal ≡ write_heading_refusal self.n self.t self.faulty rows.now (length file.old)) ×
            (refusal ≢ 0) × (file.new ≡ file.old)) }
    {
        let wrote = runfile::write_heading(self.n, self.t, self.faulty, rows, file);
        if wrote.refusal != 0 {
            return Err(wrote.refusal);
        }
        let from = wrote.size;
        file[from..].fill(0);
        Ok(())
    }

    // The line `rows`: the heading and tables of zeros go to the file.
    fn take_rows(self, rows: &[u64], file: &mut [u8]) -> Maker
        ensures { progress result file.new ≡ rows_taken (progress self file.old) true rows.now }
    {
        let end = file_room(self.n, self.t, file.len());
        if let Err(refusal) = self.write_empty(rows, &mut file[..end]) {
            return self.refused(refusal);
        }
        Maker {
            stage: SAY_DUE,
            ..self
        }
    }

    // A line `say`: its row goes to its place in the file.
    // Stays: two tests of a number, since the replies of `says::place_of` and `runfile::write_row` carry a refusal so.
    fn take_say(self, numbers: &[u64], file: &mut [u8]) -> Maker
        ensures { progress result file.new ≡ say_taken (progress self file.old) true numbers.now }
    {
        let place = says::place_of(self.n, self.t, numbers);
        if place.refusal != 0 {
            return self.refused(place.refusal);
        }
        if !place.meant {
            return self.at_fault(Fault::SayDue);
        }
        let row = numbers[numbers.len() - 1];
        let refusal = runfile::write_row(row, place.at, file);
        if refusal != 0 {
            return self.refused(refusal);
        }
        self
    }

    // A word and numbers, by the stage.
    fn take_words(self, word: &[u8], numbers: &[u64], file: &mut [u8]) -> Maker
        ensures { progress result file.new ≡
            words_taken (progress self file.old) word.now (length word.now) numbers.now }
    {
        match self.stage {
            RUN_DUE if word == b"run".as_slice() => self.take_run(numbers),
            RUN_DUE => self.at_fault(Fault::RunDue),
            ROWS_DUE if word == b"rows".as_slice() => self.take_rows(numbers, file),
            ROWS_DUE => self.at_fault(Fault::RowsDue),
            _ if word == b"say".as_slice() => self.take_say(numbers, file),
            _ => self.at_fault(Fault::SayDue),
        }
    }

    // One more line of the text. The numbers of a line go to a slice that has room for those of any line of 1,000
    // bytes.
    fn take_line(self, line: &[u8], numbers: &mut [u64; 1000], file: &mut [u8]) -> Maker
        ensures { progress result file.new ≡
            line_ended (progress self file.old) line.now }
    {
        let next = self.after_line();
        if is_comment(line) {
            return next;
        }
        let long = 1000 < line.len();
        if long {
            return next.at_fault(Fault::TooLong);
        }
        if is_empty(line) {
            return next;
        }
        let words = lines::read_line(line, numbers);
        if words.word == 0 {
            return next.at_fault(Fault::NoNumbers);
        }
        next.take_words(&line[..words.word], &numbers[..words.count], file)
    }

    // The unfinished line: as many bytes as are kept, or all where fewer are there.
    fn unended(self, line: &[u8]) -> &[u8]
        ensures { result.now ≡ take self.kept line.now }
    {
        &line[..line.len().min(self.kept)]
    }

    // The unfinished line ends.
    #[tactic(auto, unfolding(crate::specs::Text::line_over))]
    fn end_line(self, line: &[u8], numbers: &mut [u64; 1000], file: &mut [u8]) -> Maker
        ensures { progress result file.new ≡ line_over self line.now file.old }
    {
        self.take_line(self.unended(line), numbers, file)
    }

    // A byte behind those that are kept, where the line has a place for it.
    #[tactic(auto, unfolding(crate::specs::Text::byte_kept, crate::specs::Text::keeping))]
    fn keep_byte(self, byte: u8, line: &mut [u8]) -> Maker
        ensures { (file : List ℕ) → reading result line.new file ≡
            byte_kept (reading self line.old file) byte }
    {
        if line.len() <= self.kept {
            return self;
        }
        line[self.kept] = byte;
        Maker {
            kept: self.kept + 1,
            ..self
        }
    }

    // One byte of the text.
    // Stays: the line, the numbers and the file beside the maker, here and in the calls below and above: a struct that
    // borrows the three is no plainer, since each contract names the line and the file before and after all the same.
    #[tactic(auto, unfolding(crate::specs::Text::byte_taken, crate::specs::Text::newline))]
    fn take_byte(
        self,
        byte: u8,
        line: &mut [u8],
        numbers: &mut [u64; 1000],
        file: &mut [u8],
    ) -> Maker
        ensures { reading result line.new file.new ≡
            byte_taken (reading self line.old file.old) byte }
    {
        if self.is_over() {
            return self;
        }
        if byte == b'\n' {
            return self.end_line(line, numbers, file);
        }
        self.keep_byte(byte, line)
    }

    // The bytes of a piece, one by one.
    fn take_bytes(
        self,
        text: &[u8],
        line: &mut [u8],
        numbers: &mut [u64; 1000],
        file: &mut [u8],
    ) -> Maker
        ensures { reading result line.new file.new ≡
            bytes_taken (reading self line.old file.old) text.now }
    {
        let mut maker = self;
        for byte in text {
            maker = maker.take_byte(*byte, line, numbers, file);
        }
        maker
    }

    // The last line, where it lacks its newline.
    #[tactic(auto, unfolding(crate::specs::Text::left_line))]
    fn left_line(self, line: &[u8], file: &mut [u8]) -> Maker
        ensures { progress result file.new ≡ left_line self line.now file.old }
    {
        let none = self.kept == 0;
        if none {
            return self;
        }
        let mut numbers = [0u64; 1000];
        self.end_line(line, &mut numbers, file)
    }

    // The outcome of a maker that is settled.
    #[tactic(auto, unfolding(crate::specs::Text::settled_as, crate::specs::Text::refused_as))]
    fn settled_as(self) -> Made
        ensures { result ≡ settled_as self }
    {
        if self.fault == 0 {
            return refused_as(self.refusal);
        }
        Made {
            refusal: self.refusal,
            line: self.lines,
            fault: self.fault,
            ..NOTHING
        }
    }

    // The text ends where a line is due.
    #[tactic(auto, unfolding(crate::specs::Text::ends_early, crate::specs::Make::one_more))]
    fn ends_early(self, fault: Fault) -> Made
        ensures { result ≡ ends_early self (fault_number fault) }
    {
        let line = self.lines.saturating_add(1);
        Made {
            line,
            fault: u8::from(fault),
            ..NOTHING
        }
    }

    // A whole file, in a slice of so many bytes.
    #[tactic(auto, unfolding(crate::specs::Text::whole_file))]
    fn whole_file(self, room: usize) -> Made
        ensures { result ≡ whole_file self room }
    {
        match file_bytes(self.n, self.t) {
            Err(refusal) => refused_as(u8::from(refusal)),
            Ok(size) if room < size => refused_as(u8::from(Refusal::ShortSlice)),
            Ok(size) => Made { size, ..NOTHING },
        }
    }

    // The outcome where no line is left.
    #[tactic(auto, unfolding(crate::specs::Text::outcome_by))]
    fn outcome_by(self, room: usize) -> Made
        ensures { result ≡ outcome_by self room }
    {
        match self.stage {
            RUN_DUE => self.ends_early(Fault::RunDue),
            ROWS_DUE => self.ends_early(Fault::RowsDue),
            SAY_DUE => self.whole_file(room),
            _ => self.settled_as(),
        }
    }
}

// Takes one more piece of a text. Refusal 10 where the lent line has not 1,001 places: it then settles the outcome.
#[tactic(auto, unfolding(crate::specs::Text::take_reply))]
pub fn take(maker: Maker, text: &[u8], line: &mut [u8], file: &mut [u8]) -> Maker
    ensures { reading result line.new file.new ≡
        take_reply maker text.now line.old file.old }
{
    if maker.is_over() {
        return maker;
    }
    if line.len() < 1001 {
        return maker.refused(u8::from(Refusal::ShortSlice));
    }
    let mut numbers = [0u64; 1000];
    maker.take_bytes(text, line, &mut numbers, file)
}

// Can no text that follows change the outcome? It is settled, or the unfinished line is too long already and is no
// comment. Who reads a text without end may stop there.
#[tactic(auto, unfolding(crate::specs::Text::is_settled))]
pub fn is_settled(maker: Maker, line: &[u8]) -> bool
    ensures { result ≡ is_settled maker line.now }
{
    let unended = maker.unended(line);
    let long = 1000 < unended.len();
    maker.is_over() || (long && !is_comment(unended))
}

// The outcome by a refusal alone.
#[tactic(auto, unfolding(crate::specs::Text::refused_as))]
fn refused_as(refusal: u8) -> Made
    ensures { result ≡ refused_as refusal }
{
    Made { refusal, ..NOTHING }
}

// Ends a text: the outcome, and where it is a file, that stands at the front of the lent file. Refusal 10 where the
// lent line has not 1,001 places.
#[tactic(auto, unfolding(crate::specs::Text::finish_reply, crate::specs::Text::finish_writes))]
pub fn finish(maker: Maker, line: &[u8], file: &mut [u8]) -> Made
    ensures value { result ≡ finish_reply maker line.now file.old }
    ensures file_after { file.new ≡ finish_writes maker line.now file.old }
{
    if maker.is_over() {
        return maker.settled_as();
    }
    if line.len() < 1001 {
        return refused_as(u8::from(Refusal::ShortSlice));
    }
    let last = maker.left_line(line, file);
    last.outcome_by(file.len())
}
