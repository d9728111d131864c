// Why a box is on a list: the number of a box is read from a text, and the line that says why is written.
#![tactic(auto)]

ghost use Rattle.std.specs.Prelude.{◌≡◌, [], ◌+◌, ◌<◌, ◌≤◌, ◌++◌, length};
ghost use Rattle.lines.specs.Line.{field};
ghost use Rattle.why.specs.Answer.{
  number_reply,
  newline,
  reason_line,
  not_listed_line,
  refused_line,
  why_line,
  why_of,
  answer_reply,
  answer_writes,
};

use run::{Reason, Why};
use sizes::Refusal;
use std::marker::Model;

// Enough for any line by the widths of its numbers alone.
const LINE_BYTES: usize = 60;

// The reply of the line that says why: the refusal's number, or 0 with the length of the line and the number behind
// `refused`, 0 where the line is another.
// Stays: numbers and no Result, since docs/SCOPE.md's replies carry 0 where nothing is refused; and a type and an end
// of `answer` beside those of `listing::list`, since `answer_reply` and `list_reply` each give their own.
#[derive(Clone, Copy)]
pub struct Answered {
    pub refusal: u8,
    pub size: usize,
    pub ends: u8,
}

// Reads a box number: 1 to 20 decimal digits and nothing else. 256 stands for every value above 255.
// Stays: beside the reading of numbers in `lines`, which takes no value that does not fit; this one caps it.
pub fn read_number(text: &[u8]) -> Option<u64>
    ensures { result ≡ number_reply text.now }
{
    let long = 20 < text.len();
    if text.is_empty() || long {
        return None;
    }
    let mut value: u64 = 0;
    for byte in text {
        if !byte.is_ascii_digit() {
            return None;
        }
        value = (value * 10 + u64::from(*byte - b'0')).min(256);
    }
    Some(value)
}

// The line while it is put together. A clause sees it as the bytes that are there so far.
// Stays: beside `listing::Lines`, which is alike. One for both would be a public type of `lines`, whose functions may
// have no `requires` (docs/DECISIONS.md, "Code"): each put would be total, and both crates would wrap it again.
#[derive(Drop)]
struct Line {
    bytes: [u8; LINE_BYTES],
    size: usize,
}

impl Model for Line {
    ghost use Rattle.std.specs.Prelude.{ℕ, ◌≤◌, List, take};

    ghost Value = { List ℕ };

    ghost view = { λ line. take line.size line.bytes };

    ghost invariant = { λ line. line.size ≤ 60 };
}

impl Line {
    // A line with nothing in it.
    fn new() -> Line
        ensures { result ≡ [] }
    {
        Line {
            bytes: [0; LINE_BYTES],
            size: 0,
        }
    }

    // What is there so far.
    fn as_bytes(&self) -> &[u8]
        ensures { result.now ≡ self.now }
    {
        &self.bytes[..self.size]
    }

    // Puts words and a number behind the others. The newline that comes with them is overwritten by what follows.
    fn put_part(&mut self, words: &[u8], number: u8)
        requires { length self.old + (length words.now + 5) ≤ 60 }
        ensures text { self.new ≡ self.old ++ (words.now ++ field number) }
        ensures most { length self.new ≤ length self.old + (length words.now + 4) }
    {
        // Stays: `as`, since `from` is no plainer where a number goes straight into a line.
        let end = lines::put_line(&mut self.bytes, self.size, words, &[number as u64]);
        self.size = end - 1;
    }

    // Ends the line.
    fn put_newline(&mut self)
        requires { length self.old < 60 }
        ensures { self.new ≡ self.old ++ newline }
    {
        self.bytes[self.size] = b'\n';
        self.size += 1;
    }

    // The line of a reason.
    fn of_reason(reason: Reason) -> Line
        ensures { result ≡ reason_line reason.iteration reason.confidence reason.support }
    {
        let mut line = Line::new();
        line.put_part(b"listed in iteration", reason.iteration);
        line.put_part(b" with confidence", reason.confidence);
        line.put_part(b" and support", reason.support);
        line.put_newline();
        line
    }

    // The line of a box that is on no list.
    fn not_listed() -> Line
        ensures { result ≡ not_listed_line }
    {
        let mut bytes = [0; LINE_BYTES];
        let size = lines::copy(b"not listed\n", &mut bytes);
        Line { bytes, size }
    }

    // The line `refused`.
    fn of_refusal(refusal: u8) -> Line
        ensures { result ≡ refused_line refusal }
    {
        let mut line = Line::new();
        line.put_part(b"refused", refusal);
        line.put_newline();
        line
    }

    // The line of a reply.
    fn of_why(w: &Why) -> Line
        ensures { result ≡ why_line w.now }
    {
        if w.refusal != 0 {
            Line::of_refusal(w.refusal)
        } else if w.reason.iteration == 0 {
            Line::not_listed()
        } else {
            Line::of_reason(w.reason)
        }
    }
}

// Runs a file to its end and asks its last state. A file that is refused is not asked.
// Stays: a `Why` and no Result, since `why_of`, by which `answer_reply` says what is told, is one, with its zeros
// written out; and the two box numbers one by one, as the public `answer` takes them.
fn ask(bytes: &[u8], asked: u64, listed: u64) -> Why
    ensures { result ≡ why_of bytes.now asked listed }
{
    let last = listing::outcome(bytes);
    let s = last.run;
    let refused = last.refusal != 0;
    if refused {
        return Why {
            refusal: last.refusal,
            run: s,
            reason: Reason {
                iteration: 0,
                confidence: 0,
                support: 0,
            },
        };
    }
    s.why(asked, listed)
}

// Says in one line, at the front of a slice, why box `listed` is on the list of box `asked` where a file's run ends.
// Refusal 10 where the line does not fit; the slice is then untouched.
pub fn answer(bytes: &[u8], asked: u64, listed: u64, out: &mut [u8]) -> Answered
    ensures value { result ≡ answer_reply bytes.now asked listed (length out.old) }
    ensures out_after { out.new ≡ answer_writes bytes.now asked listed out.old }
{
    let w = ask(bytes, asked, listed);
    let line = Line::of_why(&w);
    let told = line.as_bytes();
    let size = told.len();
    if out.len() < size {
        return Answered {
            refusal: u8::from(Refusal::ShortSlice),
            size: 0,
            ends: 0,
        };
    }
    lines::copy(told, out);
    Answered {
        refusal: 0,
        size,
        ends: w.refusal,
    }
}
