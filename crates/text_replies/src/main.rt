// Answers the requests of docs/REQUESTS.md of kinds 21 to 33, 36 and 37, as `replies` answers the
// others: calls each public function that writes a run file, reads a line, turns a text into a
// file or a file into a text, or says in a line why a box is listed, on any numbers and any bytes,
// and prints every field of its reply and every place of what was lent to it. The rows of a
// request are read by `runfile::read_part`, which `replies` tries.
// Stays: what reads a request stands in `replies` too. Both could share it as public functions
// alone, and no contract can say which bytes come (docs/DECISIONS.md, "Code"). What takes numbers
// from a head, `lend` and the two functions that it is given stand there too: shared, those lines
// would be a crate with promises and edits of its own, for two programs that only the tests use.
#![tactic(auto)]

ghost use Rattle.std.specs.Prelude.{◌≡◌, ◌≤◌, length, IfSome};

use making::Maker;

// How many bytes a maker takes in the head of a request.
const MAKER: usize = 23;

// Fills the bytes with those that come next. Here and below: None where the request is cut short
// or asks for too much.
fn fill(bytes: &mut [u8]) -> Option<()> {
    let size = bytes.len();
    (inout::fill(bytes, 0, size) == size).then_some(())
}

// The head of a request, which is read at once: the bytes whose numbers are still to be taken.
#[derive(Drop)]
struct Head<'a> {
    left: &'a [u8],
}

impl Head<'_> {
    // The next N bytes.
    fn next_bytes<const N: usize>(&mut self) -> Option<[u8; N]> {
        let (bytes, left) = self.left.split_first_chunk::<N>()?;
        self.left = left;
        Some(*bytes)
    }

    // The number in the next byte.
    // Stays: a function for each width and no generic one, since a trait would have the same body
    // for each of them.
    fn next_u8(&mut self) -> Option<u8> {
        Some(u8::from_be_bytes(self.next_bytes()?))
    }

    // The number in the next two bytes. Here and below: most significant byte first.
    fn next_u16(&mut self) -> Option<u16> {
        Some(u16::from_be_bytes(self.next_bytes()?))
    }

    // The number in the next eight bytes.
    fn next_u64(&mut self) -> Option<u64> {
        Some(u64::from_be_bytes(self.next_bytes()?))
    }

    // The number in the next eight bytes, as a length or a place.
    fn next_usize(&mut self) -> Option<usize> {
        Some(usize::from_be_bytes(self.next_bytes()?))
    }

    // The length in the next two bytes, which has a limit.
    fn next_length(&mut self, limit: usize) -> Option<usize>
        ensures { IfSome result (λ length. length ≤ limit) }
    {
        let length = usize::from(self.next_u16()?);
        (length <= limit).then_some(length)
    }

    // The length in the next four bytes: of a run file or of its text.
    fn next_size(&mut self) -> Option<usize>
        ensures { IfSome result (λ size. size ≤ 200000) }
    {
        let size = u32::from_be_bytes(self.next_bytes()?) as usize;
        (size <= 200000).then_some(size)
    }

    // A maker.
    fn next_maker(&mut self) -> Option<Maker> {
        Some(Maker {
            stage: self.next_u8()?,
            n: self.next_u8()?,
            t: self.next_u8()?,
            faulty: self.next_u16()?,
            lines: self.next_u64()?,
            kept: self.next_usize()?,
            refusal: self.next_u8()?,
            fault: self.next_u8()?,
        })
    }
}

// What a lent place holds, the first of them 1: a row.
// Stays: `as`, here and for other numbers of a usize, which has no `From` for u64.
fn as_row(number: usize) -> u64 {
    number as u64
}

// The same for a byte, with 0 behind 255.
fn as_byte(number: usize) -> u8 {
    (number % 256) as u8
}

// Puts 1, 2, 3 and so on into the first places, each as the function gives it, and lends these.
fn lend<T: Copy, F: Fn(usize) -> T>(places: &mut [T], room: usize, put: F) -> &mut [T]
    requires fits { room ≤ length places.old }
    requires callable { F.IsAlwaysCallable put }
    ensures { length result.now ≡ room }
{
    let lent = &mut places[..room];
    for (k, place) in lent.iter_mut().enumerate() {
        *place = put(k + 1);
    }
    lent
}

// Prints a word and numbers, and no newline.
fn print_front(text: &mut [u8], word: &[u8], numbers: &[u64]) {
    let size = lines::write_line(text, word, numbers).size;
    if let Some([front @ .., _newline]) = text.get(..size) {
        io::write_all(inout::STANDARD_OUTPUT, front);
    }
}

// Prints at most a thousand places of lent bytes.
fn print_piece(text: &mut [u8], piece: &[u8])
    requires { length piece.now ≤ 1000 }
{
    let mut numbers = [0u64; 1000];
    for (number, byte) in numbers.iter_mut().zip(piece) {
        *number = u64::from(*byte);
    }
    print_front(text, b"", &numbers[..piece.len()]);
}

// Prints every place of lent bytes. They may be many, and the text has room for some.
fn print_places(text: &mut [u8], lent: &[u8]) {
    for piece in lent.chunks(1000) {
        print_piece(text, piece);
    }
}

// Prints the numbers of a reply with the places of the lent bytes behind them.
fn print_bytes(text: &mut [u8], word: &[u8], reply: &[u64], lent: &[u8]) {
    print_front(text, word, reply);
    print_places(text, lent);
    io::write_all(inout::STANDARD_OUTPUT, b"\n");
}

// The numbers of a maker.
fn maker_numbers(maker: Maker) -> [u64; 8] {
    [
        u64::from(maker.stage),
        u64::from(maker.n),
        u64::from(maker.t),
        u64::from(maker.faulty),
        maker.lines,
        maker.kept as u64,
        u64::from(maker.refusal),
        u64::from(maker.fault),
    ]
}

// The numbers of a text that is read as a box number: 1 and the number, or 0 and 0.
fn number_numbers(text: &[u8]) -> [u64; 2] {
    match why::read_number(text) {
        Some(value) => [1, value],
        None => [0, 0],
    }
}

// What each request is answered with: the bytes and the rows that came for it, the lent bytes, a
// lent line, and the text of the reply. The longest text is that of the numbers of a line that was
// read: 5,000 of at most 20 digits.
#[derive(Drop)]
struct Desk {
    bytes: [u8; 200000],
    rows: [u64; 5000],
    lent: [u8; 200000],
    line: [u8; 5000],
    text: [u8; 105001],
}

impl Desk {
    // Reads the head of a request, so many bytes, in one call. A call for each number would take
    // longer than many an answer.
    fn head(&mut self, size: usize) -> Option<Head<'_>>
        requires { size ≤ 200000 }
    {
        let bytes = &mut self.bytes[..size];
        fill(bytes)?;
        Some(Head { left: bytes })
    }

    // Reads so many rows to the front of the rows, by way of the bytes.
    fn take_rows(&mut self, count: usize) -> Option<()>
        requires { count ≤ 5000 }
    {
        fill(&mut self.bytes[..8 * count])?;
        (runfile::read_part(&self.bytes, 0, count, &mut self.rows) == 0).then_some(())
    }

    // The heading writer.
    fn heading(&mut self) -> Option<()> {
        let mut head = self.head(7)?;
        let n = head.next_u8()?;
        let t = head.next_u8()?;
        let faulty = head.next_u16()?;
        let count = usize::from(head.next_u8()?);
        let room = head.next_length(5000)?;
        self.take_rows(count)?;
        let lent = lend(&mut self.lent, room, as_byte);
        let wrote = runfile::write_heading(n, t, faulty, &self.rows[..count], lent);
        let reply = [u64::from(wrote.refusal), wrote.size as u64];
        print_bytes(&mut self.text, b"headed", &reply, lent);
        Some(())
    }

    // The table writer.
    fn table(&mut self) -> Option<()> {
        let mut head = self.head(5)?;
        let n = head.next_u8()?;
        let count = head.next_length(5000)?;
        let room = head.next_length(40000)?;
        self.take_rows(count)?;
        let lent = lend(&mut self.lent, room, as_byte);
        let wrote = runfile::write_table(n, &self.rows[..count], lent);
        let reply = [u64::from(wrote.refusal), wrote.size as u64];
        print_bytes(&mut self.text, b"tabled", &reply, lent);
        Some(())
    }

    // The line reader.
    fn read(&mut self) -> Option<()> {
        let mut head = self.head(4)?;
        let size = head.next_length(5000)?;
        let room = head.next_length(5000)?;
        fill(&mut self.bytes[..size])?;
        let rows = lend(&mut self.rows, room, as_row);
        let words = lines::read_line(&self.bytes[..size], rows);
        let reply = [
            u64::from(words.refusal),
            words.word as u64,
            words.count as u64,
        ];
        print_front(&mut self.text, b"read", &reply);
        inout::print_line(&mut self.text, b"", rows);
        Some(())
    }

    // The place of a line `say`.
    fn place(&mut self) -> Option<()> {
        let mut head = self.head(3)?;
        let n = head.next_u8()?;
        let t = head.next_u8()?;
        let count = usize::from(head.next_u8()?);
        self.take_rows(count)?;
        let place = says::place_of(n, t, &self.rows[..count]);
        let reply = [
            u64::from(place.refusal),
            u64::from(place.meant),
            place.at as u64,
        ];
        inout::print_line(&mut self.text, b"place", &reply);
        Some(())
    }

    // The line of a place.
    fn say(&mut self) -> Option<()> {
        let mut head = self.head(14)?;
        let n = head.next_u8()?;
        let table = head.next_u8()?;
        let place = head.next_u16()?;
        let row = head.next_u64()?;
        let room = head.next_length(5000)?;
        let lent = lend(&mut self.lent, room, as_byte);
        let written = says::write_say(n, table, place, row, lent);
        let reply = [u64::from(written.refusal), written.size as u64];
        print_bytes(&mut self.text, b"say", &reply, lent);
        Some(())
    }

    // A text that is taken.
    fn taken(&mut self) -> Option<()> {
        let mut head = self.head(MAKER + 6)?;
        let maker = head.next_maker()?;
        let size = head.next_length(5000)?;
        let kept = head.next_length(5000)?;
        let room = head.next_length(5000)?;
        fill(&mut self.bytes[..size])?;
        fill(&mut self.line[..kept])?;
        let lent = lend(&mut self.lent, room, as_byte);
        let (line, _) = self.line.split_at_mut(kept);
        let maker = making::take(maker, &self.bytes[..size], line, lent);
        print_front(&mut self.text, b"taken", &maker_numbers(maker));
        print_places(&mut self.text, line);
        print_places(&mut self.text, lent);
        io::write_all(inout::STANDARD_OUTPUT, b"\n");
        Some(())
    }

    // A text that is ended.
    fn ended(&mut self) -> Option<()> {
        let mut head = self.head(MAKER + 4)?;
        let maker = head.next_maker()?;
        let kept = head.next_length(5000)?;
        let room = head.next_length(5000)?;
        fill(&mut self.line[..kept])?;
        let lent = lend(&mut self.lent, room, as_byte);
        let made = making::finish(maker, &self.line[..kept], lent);
        let reply = [
            u64::from(made.refusal),
            made.line,
            u64::from(made.fault),
            made.size as u64,
        ];
        print_bytes(&mut self.text, b"ended", &reply, lent);
        Some(())
    }

    // What is told.
    fn told(&mut self) -> Option<()> {
        let mut head = self.head(12)?;
        let refusal = head.next_u8()?;
        let line = head.next_u64()?;
        let fault = head.next_u8()?;
        let room = head.next_length(5000)?;
        let lent = lend(&mut self.lent, room, as_byte);
        let written = says::tell(refusal, line, fault, lent);
        let reply = [u64::from(written.refusal), written.size as u64];
        print_bytes(&mut self.text, b"told", &reply, lent);
        Some(())
    }

    // A part of the text that is shown of a file.
    fn shown(&mut self) -> Option<()> {
        let mut head = self.head(16)?;
        let part = head.next_usize()?;
        let room = head.next_size()?;
        let size = head.next_size()?;
        fill(&mut self.bytes[..size])?;
        let lent = lend(&mut self.lent, room, as_byte);
        let shown = showing::show(&self.bytes[..size], part, lent);
        let reply = [
            u64::from(shown.refusal),
            shown.size as u64,
            shown.parts as u64,
        ];
        print_bytes(&mut self.text, b"shown", &reply, lent);
        Some(())
    }

    // The maker that stands where there is no text.
    fn no_text(&mut self) -> Option<()> {
        inout::print_line(&mut self.text, b"maker", &maker_numbers(making::no_text()));
        Some(())
    }

    // The row writer.
    fn row(&mut self) -> Option<()> {
        let mut head = self.head(18)?;
        let row = head.next_u64()?;
        let at = head.next_usize()?;
        let room = head.next_length(5000)?;
        let lent = lend(&mut self.lent, room, as_byte);
        let refusal = runfile::write_row(row, at, lent);
        print_bytes(&mut self.text, b"row", &[u64::from(refusal)], lent);
        Some(())
    }

    // Where a table begins.
    fn begins(&mut self) -> Option<()> {
        let mut head = self.head(2)?;
        let begins = listing::table_begins(head.next_u8()?, head.next_u8()?);
        inout::print_line(&mut self.text, b"begins", &[begins as u64]);
        Some(())
    }

    // Whether a text is settled.
    fn settled(&mut self) -> Option<()> {
        let mut head = self.head(MAKER + 2)?;
        let maker = head.next_maker()?;
        let kept = head.next_length(5000)?;
        fill(&mut self.line[..kept])?;
        let is_settled = making::is_settled(maker, &self.line[..kept]);
        inout::print_line(&mut self.text, b"settled", &[u64::from(is_settled)]);
        Some(())
    }

    // A box number.
    fn number(&mut self) -> Option<()> {
        let size = self.head(2)?.next_length(5000)?;
        fill(&mut self.bytes[..size])?;
        let reply = number_numbers(&self.bytes[..size]);
        inout::print_line(&mut self.text, b"number", &reply);
        Some(())
    }

    // The line that says why.
    fn why(&mut self) -> Option<()> {
        let mut head = self.head(22)?;
        let asked = head.next_u64()?;
        let listed = head.next_u64()?;
        let room = head.next_length(5000)?;
        let size = head.next_size()?;
        fill(&mut self.bytes[..size])?;
        let lent = lend(&mut self.lent, room, as_byte);
        let answered = why::answer(&self.bytes[..size], asked, listed, lent);
        let reply = [
            u64::from(answered.refusal),
            answered.size as u64,
            u64::from(answered.ends),
        ];
        print_bytes(&mut self.text, b"answer", &reply, lent);
        Some(())
    }

    // The next request. None where there is none, or none that can be answered.
    // Stays: a kind is a number here and no enum, since it is read in this one place, and an enum
    // would list all kinds a second time.
    fn answer(&mut self) -> Option<()> {
        match self.head(1)?.next_u8()? {
            21 => self.heading(),
            22 => self.table(),
            23 => self.read(),
            24 => self.place(),
            25 => self.say(),
            26 => self.taken(),
            27 => self.ended(),
            28 => self.told(),
            29 => self.shown(),
            30 => self.no_text(),
            31 => self.row(),
            32 => self.begins(),
            33 => self.settled(),
            36 => self.number(),
            37 => self.why(),
            _ => None,
        }
    }
}

// A proved loop has to end, and nothing says that a stream does: it has a number of turns that no
// run uses up.
fn main() {
    let mut desk = Desk {
        bytes: [0u8; 200000],
        rows: [0u64; 5000],
        lent: [0u8; 200000],
        line: [0u8; 5000],
        text: [0u8; 105001],
    };
    for _ in 0..u64::MAX {
        if desk.answer().is_none() {
            return;
        }
    }
}
