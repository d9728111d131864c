// Answers requests of docs/REQUESTS.md: calls public functions of the library on any numbers and
// any bytes, and prints every field of the reply and every place of what was lent. `text_replies`
// does the same for those of texts. `inout::fill`, `inout::print_line` and `lines::copy` have no
// requests of their own: all that is read goes through the first, all that is printed through the
// last, and the replies of half of the kinds through the second. Nor have `sizes::check_size`,
// `sizes::refusal_number` and `sizes::has_sound_zero`: the calls that take n, t and rows go through
// them.
#![tactic(auto)]

ghost use Rattle.std.specs.Prelude.{◌≡◌, ◌+◌, ◌*◌, ◌≤◌, length, IfSome};

use gradecast::{Cast, Settings};
use run::{Next, Reasons, Run};

// How many bytes a state takes in the head of a request.
const STATE: usize = 650;

// Fills the bytes with those that come next. Here and below: None where the request is cut short
// or asks for too much.
fn fill(bytes: &mut [u8]) -> Option<()> {
    let size = bytes.len();
    (inout::fill(bytes, 0, size) == size).then_some(())
}

// Thirteen numbers, as the function gives them one by one: rows, or lists.
fn thirteen<T: Copy + Default, F: FnMut() -> Option<T>>(mut next: F) -> Option<[T; 13]>
    requires { F.IsAlwaysCallable next }
{
    let mut numbers = [T::default(); 13];
    for number in numbers.iter_mut() {
        *number = next()?;
    }
    Some(numbers)
}

// The head of a request, which is read at once: the bytes whose numbers are still to be taken.
#[derive(Drop)]
struct Head<'a> {
    left: &'a [u8],
}

impl Head<'_> {
    // The next N bytes.
    fn next_bytes<const N: usize>(&mut self) -> Option<[u8; N]> {
        let (bytes, left) = self.left.split_first_chunk::<N>()?;
        self.left = left;
        Some(*bytes)
    }

    // The number in the next byte.
    // Stays: a function for each width and no generic one, since a trait would have the same body
    // for each of them.
    fn next_u8(&mut self) -> Option<u8> {
        Some(u8::from_be_bytes(self.next_bytes()?))
    }

    // The number in the next two bytes. Here and below: most significant byte first.
    fn next_u16(&mut self) -> Option<u16> {
        Some(u16::from_be_bytes(self.next_bytes()?))
    }

    // The number in the next eight bytes.
    fn next_u64(&mut self) -> Option<u64> {
        Some(u64::from_be_bytes(self.next_bytes()?))
    }

    // The number in the next eight bytes, as a length or a place.
    fn next_usize(&mut self) -> Option<usize> {
        Some(usize::from_be_bytes(self.next_bytes()?))
    }

    // The length in the next two bytes: of a table or of the slice to lend.
    fn next_length(&mut self) -> Option<usize>
        ensures { IfSome result (λ length. length ≤ 5000) }
    {
        let length = usize::from(self.next_u16()?);
        (length <= 5000).then_some(length)
    }

    // The length in the next four bytes: of a run file.
    fn next_size(&mut self) -> Option<usize>
        ensures { IfSome result (λ size. size ≤ 200000) }
    {
        let size = u32::from_be_bytes(self.next_bytes()?) as usize;
        (size <= 200000).then_some(size)
    }

    // The reasons: three bytes for each of the 169.
    fn next_reasons(&mut self) -> Option<Reasons> {
        let bytes = self.next_bytes::<507>()?;
        let mut iterations = [0u8; 169];
        let mut confidences = [0u8; 169];
        let mut supports = [0u8; 169];
        // Stays: an index, here and in reason_numbers, since three arrays are gone through
        // together.
        for p in 0..169 {
            iterations[p] = bytes[3 * p];
            confidences[p] = bytes[3 * p + 1];
            supports[p] = bytes[3 * p + 2];
        }
        Some(Reasons {
            iterations,
            confidences,
            supports,
        })
    }

    // A state.
    fn next_state(&mut self) -> Option<Run> {
        Some(Run {
            n: self.next_u8()?,
            t: self.next_u8()?,
            faulty: self.next_u16()?,
            done: self.next_u8()?,
            sent: self.next_u64()?,
            rows: thirteen(|| self.next_u64())?,
            lists: thirteen(|| self.next_u16())?,
            reasons: self.next_reasons()?,
        })
    }
}

// What a lent place holds, the first of them 1: a row.
// Stays: `as`, here and for other numbers of a usize, which has no `From` for u64.
fn as_row(number: usize) -> u64 {
    number as u64
}

// The same for a byte, with 0 behind 255.
fn as_byte(number: usize) -> u8 {
    (number % 256) as u8
}

// Puts 1, 2, 3 and so on into the first places, each as the function gives it, and lends these.
fn lend<T: Copy, F: Fn(usize) -> T>(places: &mut [T], room: usize, put: F) -> &mut [T]
    requires fits { room ≤ length places.old }
    requires callable { F.IsAlwaysCallable put }
    ensures { length result.now ≡ room }
{
    let lent = &mut places[..room];
    for (k, place) in lent.iter_mut().enumerate() {
        *place = put(k + 1);
    }
    lent
}

// The numbers of the reasons, behind 31 places for the rest of a state: for each of the 169
// iteration, confidence and support.
fn reason_numbers(reasons: Reasons) -> [u64; 538] {
    let mut numbers = [0u64; 538];
    for p in 0..169 {
        let at = 31 + 3 * p;
        numbers[at] = u64::from(reasons.iterations[p]);
        numbers[at + 1] = u64::from(reasons.confidences[p]);
        numbers[at + 2] = u64::from(reasons.supports[p]);
    }
    numbers
}

// The numbers of the state.
fn state_numbers(run: Run) -> [u64; 538] {
    let mut numbers = reason_numbers(run.reasons);
    numbers[0] = u64::from(run.n);
    numbers[1] = u64::from(run.t);
    numbers[2] = u64::from(run.faulty);
    numbers[3] = u64::from(run.done);
    numbers[4] = run.sent;
    numbers[5..18].copy_from_slice(&run.rows);
    for (i, list) in run.lists.iter().enumerate() {
        numbers[18 + i] = u64::from(*list);
    }
    numbers
}

// Puts the bytes into the first places, as numbers, and lends these.
fn byte_numbers<'a>(places: &'a mut [u64], bytes: &[u8]) -> &'a [u64]
    requires { length bytes.now ≤ length places.old }
{
    let numbers = &mut places[..bytes.len()];
    for (number, byte) in numbers.iter_mut().zip(bytes) {
        *number = u64::from(*byte);
    }
    numbers
}

// Prints so many bytes of the text.
fn print_text(text: &[u8], size: usize) {
    if let Some(told) = text.get(..size) {
        io::write_all(inout::STANDARD_OUTPUT, told);
    }
}

// Prints the numbers of a reply, at most five, with the lent rows or the numbers of a state behind
// them. Here and below: the second line begins where the newline of the first one stood, so that no
// array has to hold the numbers of both, and the text of a desk has room for both.
fn print_rows(text: &mut [u8], word: &[u8], reply: &[u64], lent: &[u64])
    requires { (length reply.now ≤ 5) × (length lent.now ≤ 5000) }
{
    let front = lines::put_line(text, 0, word, reply).saturating_sub(1);
    let end = lines::put_line(text, front, b"", lent);
    print_text(text, end);
}

// Prints the numbers of a reply with the places of the lent bytes behind them.
fn print_bytes(text: &mut [u8], word: &[u8], reply: &[u64], lent: &[u8])
    requires { (length reply.now ≤ 5) × (length lent.now ≤ 5000) }
{
    let mut numbers = [0u64; 1000];
    let mut end = lines::put_line(text, 0, word, reply);
    for piece in lent.chunks(1000) {
        let front = end.saturating_sub(1);
        end = lines::put_line(text, front, b"", byte_numbers(&mut numbers, piece));
    }
    print_text(text, end);
}

// Prints the refusal's number and the state.
fn print_next(text: &mut [u8], word: &[u8], next: Next) {
    let reply = [u64::from(next.refusal)];
    print_rows(text, word, &reply, &state_numbers(next.run));
}

// Prints what steps 1 to 4 give.
// Stays: an index over the three arrays, since a chain for each would be three.
fn print_cast(text: &mut [u8], cast: Cast) {
    let mut numbers = [0u64; 509];
    numbers[0] = u64::from(cast.refusal);
    numbers[1] = cast.sent;
    for p in 0..169 {
        numbers[2 + p] = cast.rows[p];
        numbers[171 + p] = u64::from(cast.confidences[p]);
        numbers[340 + p] = u64::from(cast.supports[p]);
    }
    inout::print_line(text, b"steps", &numbers);
}

// What each request is answered with: the bytes that came for it, the rows that came or are lent,
// the bytes that are lent, and the text of the reply. The longest reply is that of a table: 5001
// numbers of at most 20 digits.
#[derive(Drop)]
struct Desk {
    bytes: [u8; 200000],
    rows: [u64; 5000],
    lent: [u8; 5000],
    text: [u8; 105027],
}

impl Desk {
    // Reads the head of a request, so many bytes, in one call. A call for each number would take
    // longer than many an answer.
    fn head(&mut self, size: usize) -> Option<Head<'_>>
        requires { size ≤ 200000 }
    {
        let bytes = &mut self.bytes[..size];
        fill(bytes)?;
        Some(Head { left: bytes })
    }

    // Puts so many rows to the front of the rows. Their bytes begin at a place of the bytes.
    // Stays: an index, since it says where the row stands in both, the rows and the bytes.
    fn put_rows(&mut self, from: usize, count: usize)
        requires { (from + 8 * count ≤ 200000) × (count ≤ 5000) }
    {
        for k in 0..count {
            let at = from + 8 * k;
            self.rows[k] = u64::from_be_bytes(self.bytes[at..at + 8].try_into().unwrap());
        }
    }

    // Reads so many rows to the front of the rows, by way of the bytes.
    fn take_rows(&mut self, count: usize) -> Option<()>
        requires { count ≤ 5000 }
    {
        fill(&mut self.bytes[..8 * count])?;
        self.put_rows(0, count);
        Some(())
    }

    // A vote.
    fn vote(&mut self) -> Option<()> {
        let mut head = self.head(2)?;
        let count = usize::from(head.next_u8()?);
        let t = head.next_u8()?;
        self.take_rows(count)?;
        let voted = tally::vote(&self.rows[..count], t);
        let reply = [u64::from(voted.refusal), voted.row];
        inout::print_line(&mut self.text, b"vote", &reply);
        Some(())
    }

    // A grade.
    fn grade(&mut self) -> Option<()> {
        let mut head = self.head(2)?;
        let count = usize::from(head.next_u8()?);
        let t = head.next_u8()?;
        self.take_rows(count)?;
        let graded = tally::grade(&self.rows[..count], t);
        let reply = [
            u64::from(graded.refusal),
            graded.row,
            u64::from(graded.confidence),
            u64::from(graded.support),
        ];
        inout::print_line(&mut self.text, b"grade", &reply);
        Some(())
    }

    // A choice.
    fn choice(&mut self) -> Option<()> {
        let mut head = self.head(2)?;
        let count = usize::from(head.next_u8()?);
        let size = usize::from(head.next_u8()?);
        self.take_rows(count)?;
        fill(&mut self.bytes[..size])?;
        let chosen = tally::choose(&self.rows[..count], &self.bytes[..size]);
        let reply = [u64::from(chosen.refusal), chosen.row, chosen.firm as u64];
        inout::print_line(&mut self.text, b"choice", &reply);
        Some(())
    }

    // A start.
    fn start(&mut self) -> Option<()> {
        let mut head = self.head(5)?;
        let n = head.next_u8()?;
        let t = head.next_u8()?;
        let faulty = head.next_u16()?;
        let count = usize::from(head.next_u8()?);
        self.take_rows(count)?;
        let next = run::start(n, t, faulty, &self.rows[..count]);
        print_next(&mut self.text, b"start", next);
        Some(())
    }

    // An iteration.
    fn iteration(&mut self) -> Option<()> {
        let mut head = self.head(STATE + 2)?;
        let run = head.next_state()?;
        let count = head.next_length()?;
        self.take_rows(count)?;
        let next = run.iterate(&self.rows[..count]);
        print_next(&mut self.text, b"iteration", next);
        Some(())
    }

    // The heading reader.
    fn heading(&mut self) -> Option<()> {
        let mut head = self.head(2)?;
        let size = usize::from(head.next_u8()?);
        let room = usize::from(head.next_u8()?);
        fill(&mut self.bytes[..size])?;
        let lent = lend(&mut self.rows, room, as_row);
        let heading = runfile::read_heading(&self.bytes[..size], lent);
        let reply = [
            u64::from(heading.refusal),
            u64::from(heading.version),
            u64::from(heading.n),
            u64::from(heading.t),
            u64::from(heading.faulty),
        ];
        print_rows(&mut self.text, b"heading", &reply, lent);
        Some(())
    }

    // The table reader.
    fn table(&mut self) -> Option<()> {
        let mut head = self.head(5)?;
        let n = head.next_u8()?;
        let size = usize::from(head.next_u16()?);
        let room = head.next_length()?;
        fill(&mut self.bytes[..size])?;
        let lent = lend(&mut self.rows, room, as_row);
        let refusal = runfile::read_table(n, &self.bytes[..size], lent);
        print_rows(&mut self.text, b"table", &[u64::from(refusal)], lent);
        Some(())
    }

    // The part reader.
    fn part(&mut self) -> Option<()> {
        let mut head = self.head(20)?;
        let from = head.next_usize()?;
        let count = head.next_usize()?;
        let size = usize::from(head.next_u16()?);
        let room = head.next_length()?;
        fill(&mut self.bytes[..size])?;
        let lent = lend(&mut self.rows, room, as_row);
        let refusal = runfile::read_part(&self.bytes[..size], from, count, lent);
        print_rows(&mut self.text, b"part", &[u64::from(refusal)], lent);
        Some(())
    }

    // The largest t.
    fn largest(&mut self) -> Option<()> {
        let largest = sizes::largest_t(self.head(1)?.next_u8()?);
        inout::print_line(&mut self.text, b"largest", &[u64::from(largest)]);
        Some(())
    }

    // The rows of a table.
    fn table_rows(&mut self) -> Option<()> {
        let rows = sizes::table_rows(self.head(1)?.next_u8()?);
        inout::print_line(&mut self.text, b"rows", &[rows as u64]);
        Some(())
    }

    // The test of sizes.
    fn sizes(&mut self) -> Option<()> {
        let mut head = self.head(9)?;
        let refusal = sizes::size_refusal(head.next_usize()?, head.next_u8()?);
        inout::print_line(&mut self.text, b"sizes", &[u64::from(refusal)]);
        Some(())
    }

    // The test of a member.
    fn member(&mut self) -> Option<()> {
        let mut head = self.head(10)?;
        let is_member = sizes::is_member(head.next_u16()?, head.next_usize()?);
        inout::print_line(&mut self.text, b"member", &[u64::from(is_member)]);
        Some(())
    }

    // The test of a stray bit.
    fn stray(&mut self) -> Option<()> {
        let mut head = self.head(3)?;
        let is_stray = sizes::is_stray(head.next_u8()?, head.next_u16()?);
        inout::print_line(&mut self.text, b"stray", &[u64::from(is_stray)]);
        Some(())
    }

    // The test of a sound zero.
    fn zero(&mut self) -> Option<()> {
        let mut head = self.head(18)?;
        let is_sound_zero = sizes::is_sound_zero(
            head.next_u16()?,
            head.next_usize()?,
            head.next_u64()?,
        );
        inout::print_line(&mut self.text, b"zero", &[u64::from(is_sound_zero)]);
        Some(())
    }

    // Steps 1 to 4.
    fn steps(&mut self) -> Option<()> {
        let mut head = self.head(143)?;
        let settings = Settings {
            n: head.next_usize()?,
            t: head.next_u8()?,
            faulty: head.next_u16()?,
        };
        let rows = thirteen(|| head.next_u64())?;
        let lists = thirteen(|| head.next_u16())?;
        let count = head.next_length()?;
        self.take_rows(count)?;
        let cast = gradecast::steps(settings, &rows, &lists, &self.rows[..count]);
        print_cast(&mut self.text, cast);
        Some(())
    }

    // One line, from a place on where one is given.
    fn line(&mut self, place: Option<usize>) -> Option<()> {
        let mut head = self.head(4)?;
        let room = head.next_length()?;
        let size = usize::from(head.next_u8()?);
        let count = usize::from(head.next_u8()?);
        fill(&mut self.bytes[..size + 8 * count])?;
        self.put_rows(size, count);
        let word = &self.bytes[..size];
        let numbers = &self.rows[..count];
        let lent = lend(&mut self.lent, room, as_byte);
        match place {
            None => {
                let written = lines::write_line(lent, word, numbers);
                let reply = [u64::from(written.refusal), written.size as u64];
                print_bytes(&mut self.text, b"line", &reply, lent);
            }
            Some(at) => {
                let end = lines::put_line(lent, at, word, numbers);
                print_bytes(&mut self.text, b"put", &[end as u64], lent);
            }
        }
        Some(())
    }

    // The listing of a run file.
    fn listing(&mut self) -> Option<()> {
        let room = self.head(2)?.next_length()?;
        let size = self.head(4)?.next_size()?;
        fill(&mut self.bytes[..size])?;
        let lent = lend(&mut self.lent, room, as_byte);
        let listed = listing::list(&self.bytes[..size], lent);
        let reply = [
            u64::from(listed.refusal),
            listed.size as u64,
            u64::from(listed.ends),
        ];
        print_bytes(&mut self.text, b"listing", &reply, lent);
        Some(())
    }

    // The outcome of a run file.
    fn outcome(&mut self) -> Option<()> {
        let size = self.head(4)?.next_size()?;
        fill(&mut self.bytes[..size])?;
        let outcome = listing::outcome(&self.bytes[..size]);
        print_next(&mut self.text, b"outcome", outcome);
        Some(())
    }

    // The state that stands where there is no run. No call of this kind is refused, so there is no
    // refusal's number.
    fn no_run(&mut self) -> Option<()> {
        print_rows(&mut self.text, b"none", &[], &state_numbers(run::no_run()));
        Some(())
    }

    // The confidence of a support.
    fn confidence(&mut self) -> Option<()> {
        let mut head = self.head(2)?;
        let confidence = tally::confidence_at(head.next_u8()?, head.next_u8()?);
        inout::print_line(&mut self.text, b"confidence", &[u64::from(confidence)]);
        Some(())
    }

    // Why a box is listed.
    fn why(&mut self) -> Option<()> {
        let mut head = self.head(STATE + 16)?;
        let run = head.next_state()?;
        let why = run.why(head.next_u64()?, head.next_u64()?);
        let reply = [
            u64::from(why.refusal),
            u64::from(why.reason.iteration),
            u64::from(why.reason.confidence),
            u64::from(why.reason.support),
        ];
        print_rows(&mut self.text, b"why", &reply, &state_numbers(why.run));
        Some(())
    }

    // The next request. None where there is none, or none that can be answered.
    // Stays: a kind is a number here and no enum, since it is read in this one place, and an enum
    // would list all kinds a second time.
    fn answer(&mut self) -> Option<()> {
        match self.head(1)?.next_u8()? {
            1 => self.vote(),
            2 => self.grade(),
            3 => self.choice(),
            4 => self.start(),
            5 => self.iteration(),
            6 => self.heading(),
            7 => self.table(),
            8 => self.largest(),
            9 => self.table_rows(),
            10 => self.sizes(),
            11 => self.member(),
            12 => self.stray(),
            13 => self.zero(),
            14 => self.steps(),
            15 => self.line(None),
            16 => {
                let at = self.head(8)?.next_usize()?;
                self.line(Some(at))
            }
            17 => self.part(),
            18 => self.listing(),
            19 => self.outcome(),
            20 => self.no_run(),
            34 => self.confidence(),
            35 => self.why(),
            _ => None,
        }
    }
}

// A proved loop has to end, and nothing says that a stream does: it has a number of turns that no
// run uses up.
fn main() {
    let mut desk = Desk {
        bytes: [0u8; 200000],
        rows: [0u64; 5000],
        lent: [0u8; 5000],
        text: [0u8; 105027],
    };
    for _ in 0..u64::MAX {
        if desk.answer().is_none() {
            return;
        }
    }
}
