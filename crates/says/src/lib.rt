// What the lines of a text say (docs/TEXT.md): where in a run file the row of a line `say` goes, the line of a place
// of a table, and the line that is told where a text or a file is bad.
#![tactic(auto)]

ghost use Rattle.std.specs.Prelude.{◌≡◌, ◌-◌, ◌*◌, ◌<◌, ◌≤◌, true, false, length, MatchOption};
ghost use Rattle.gradecast.specs.Steps.{place1, place_from};
ghost use Rattle.says.specs.Say.{
  is_meant,
  place_said,
  say_at,
  place_reply,
  say_reply,
  say_writes,
};
ghost use Rattle.says.specs.Told.{fault_line, sentence, told_text, text_reply, text_writes};
ghost use Rattle.says.specs.Inside.{Among, Placed};

use lines::Written;
use sizes::Refusal;

// The reply of the place of a line: the refusal's number, or 0 with whether the line is understood, and where in the
// file its row goes.
// Stays: a number and no Result, since docs/SCOPE.md's replies carry 0 where nothing is refused; and `meant` beside
// `at` and no Option, since docs/REQUESTS.md prints three numbers of this reply, the last 0 where nothing is meant.
#[derive(Clone, Copy)]
pub struct Place {
    pub refusal: u8,
    pub meant: bool,
    pub at: usize,
}

// A number from 1 to a limit, counted from 0.
// Stays: `as`, here and below, since it keeps the number, which the check proves where the type is narrower;
// `try_from` has a failure that nothing reaches.
fn from_0(limit: u8, number: u64) -> Option<usize>
    ensures { MatchOption result (Among limit number → ⊥)
        (λ k. Among limit number × (k ≡ number - 1)) }
{
    let inside = (1..=limit as u64).contains(&number);
    if !inside {
        return None;
    }
    Some(number as usize - 1)
}

// The place of a sender and a receiver, as step 1 counts it.
fn pair(n: u8, sender: u64, receiver: u64) -> Option<usize>
    ensures { MatchOption result (Among n sender × Among n receiver → ⊥)
        (λ place. Among n sender × Among n receiver ×
        (place ≡ place1 n (sender - 1) (receiver - 1)) × (place < n * n)) }
{
    Some(from_0(n, sender)? * n as usize + from_0(n, receiver)?)
}

// The place of a sender, a receiver and a leader among those of its step.
fn triple(n: u8, sender: u64, receiver: u64, leader: u64) -> Option<usize>
    ensures { MatchOption result (Among n sender × Among n receiver × Among n leader → ⊥)
        (λ place. Among n sender × Among n receiver × Among n leader ×
        (place ≡ place_from 0 n (sender - 1) (receiver - 1) (leader - 1)) × (place < n * n * n)) }
{
    Some(pair(n, sender, receiver)? * n as usize + from_0(n, leader)?)
}

// The place of the table that a line names: five numbers in step 1, six in steps 2 and 3, where the fifth is a box.
fn place_said(n: u8, numbers: &[u64]) -> Option<usize>
    ensures { MatchOption result (Placed n numbers.now → ⊥)
        (λ place. Placed n numbers.now × (place ≡ place_said n numbers.now)) }
{
    let boxes = n as usize;
    let square = boxes * boxes;
    match numbers {
        &[_, step, sender, receiver, _] if step == 1 => pair(n, sender, receiver),
        &[_, step, sender, receiver, leader, _] if step == 2 => {
            Some(square + triple(n, sender, receiver, leader)?)
        }
        &[_, step, sender, receiver, leader, _] if step == 3 => {
            Some(square + square * boxes + triple(n, sender, receiver, leader)?)
        }
        _ => None,
    }
}

// Where in the file the row of a line goes, where the line is understood.
fn say_at(n: u8, t: u8, numbers: &[u64]) -> Option<usize>
    requires { (1 ≤ n) × (n ≤ 13) × (t ≤ 4) }
    ensures { MatchOption result (is_meant n t numbers.now ≡ false)
        (λ at. (is_meant n t numbers.now ≡ true) × (at ≡ say_at n numbers.now)) }
{
    let &[iteration, ..] = numbers else {
        return None;
    };
    let table = from_0(t + 1, iteration)? as u8;
    let place = place_said(n, numbers)?;
    Some(listing::table_begins(n, table) + 8 * place)
}

// The place of a line `say`, from its numbers: whether it is understood, and where in the file its row goes. Refusals
// 4, 5.
#[tactic(auto, unfolding(crate::specs::Say::place_reply))]
pub fn place_of(n: u8, t: u8, numbers: &[u64]) -> Place
    ensures { result ≡ place_reply n t numbers.now }
{
    // Stays: zeros written out, here and below: each reply shows what a refused call gives.
    if let Err(refusal) = sizes::check_size(n as usize, t) {
        return Place {
            refusal: u8::from(refusal),
            meant: false,
            at: 0,
        };
    }
    match say_at(n, t, numbers) {
        Some(at) => Place {
            refusal: 0,
            meant: true,
            at,
        },
        None => Place {
            refusal: 0,
            meant: false,
            at: 0,
        },
    }
}

// Writes the line `say` of a place of a table, both from 0. Refusals 4, 10.
// Stays: the range of n by hand, since `sizes::check_size` tests n and t together, and a line has no t.
pub fn write_say(n: u8, table: u8, place: u16, row: u64, out: &mut [u8]) -> Written
    ensures value { result ≡ say_reply n table place row (length out.old) }
    ensures out_after { out.new ≡ say_writes n table place row out.old }
{
    if n < 1 || 13 < n {
        return Written {
            refusal: u8::from(Refusal::Outside),
            size: 0,
        };
    }
    let boxes = n as u64;
    let square = boxes * boxes;
    let iteration = table as u64 + 1;
    let p = place as u64;
    if p < square {
        let sender = 1 + p / boxes;
        let receiver = 1 + p % boxes;
        let numbers = [iteration, 1, sender, receiver, row];
        return lines::write_line(out, b"say", &numbers);
    }
    let q = p - square;
    let step = 2 + q / (square * boxes);
    let sender = 1 + q / square % boxes;
    let receiver = 1 + q / boxes % boxes;
    let leader = 1 + q % boxes;
    let numbers = [iteration, step, sender, receiver, leader, row];
    lines::write_line(out, b"say", &numbers)
}

// The sentence of a fault, by its number (docs/TEXT.md), with the newline behind it.
// Stays: a number and no enum, since `tell` answers for each number, and docs/TEXT.md gives every number a sentence.
#[tactic(auto, unfolding(crate::specs::Told::sentence))]
fn sentence(fault: u8) -> &'static [u8]
    ensures { (result.now ≡ sentence fault) × (length result.now ≤ 100) }
{
    match fault {
        1 => b": a line that is no comment has at most 1,000 bytes\n",
        2 => b": this is not a word with numbers behind it\n",
        3 => b": a line run is due, with n, t and the faulty set\n",
        4 => b": a line rows is due, with the row of each box\n",
        5 => {
            b": a line say is due: iteration, step, sender, receiver, leader in steps 2 and 3, row\n"
        }
        _ => b": this line is not understood\n",
    }
}

// Writes the line of a fault with this sentence: `line`, its number, and the sentence. Refusal 10.
fn write_fault(line: u64, said: &[u8], out: &mut [u8]) -> Written
    requires { length said.now ≤ 100 }
    ensures value { result ≡ text_reply (fault_line line said.now) (length out.old) }
    ensures out_after { out.new ≡ text_writes (fault_line line said.now) out.old }
{
    let mut start = [0u8; 26];
    let end = lines::write_line(&mut start, b"line", &[line]).size - 1;
    let size = end + said.len();
    if out.len() < size {
        return Written {
            refusal: u8::from(Refusal::ShortSlice),
            size: 0,
        };
    }
    lines::copy(&start[..end], out);
    lines::copy(said, &mut out[end..]);
    Written { refusal: 0, size }
}

// Writes what is told where no file comes of a text, or no text of a file: the refusal, or else the fault of a line;
// nothing where there is neither. Refusal 10.
pub fn tell(refusal: u8, line: u64, fault: u8, out: &mut [u8]) -> Written
    ensures value { result ≡ text_reply (told_text refusal line fault) (length out.old) }
    ensures out_after { out.new ≡ text_writes (told_text refusal line fault) out.old }
{
    let refused = refusal != 0;
    if refused {
        return lines::write_line(out, b"refused", &[refusal as u64]);
    }
    if fault == 0 {
        return Written {
            refusal: 0,
            size: 0,
        };
    }
    write_fault(line, sentence(fault), out)
}
