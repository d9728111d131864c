// Takes two box numbers as its arguments, reads a run file on standard input and prints one line: why the second box
// is on the list of the first. What it prints is the library's proved text. Where the arguments are not two box
// numbers it says how it is used, and reads nothing.
//
// 20 bytes are enough for a box number, and 64 for a line. 182,634 bytes are enough of any file: the largest has one
// less, and one more shows that a file goes on past its last table.
#![tactic(auto)]

ghost use Rattle.std.specs.Prelude.{◌≡◌, length};
ghost use Rattle.why.specs.Answer.{answer_of};

use std::env::{Env, FillError};

// The box number that an argument is. One that is missing, or has more than 20 bytes, is none.
fn number_at(rt: &impl Env, i: usize) -> Option<u64> {
    let mut word = [0u8; 20];
    let size = rt.arg(i, &mut word).ok()?;
    why::read_number(&word[..size])
}

// Has the program no argument at this place?
fn is_missing(rt: &impl Env, i: usize) -> bool {
    let mut word = [0u8; 20];
    matches!(rt.arg(i, &mut word), Err(FillError::NotPresent))
}

// Prints the line. Gives its length, so that the contract says that all of it has room.
fn print_answer(file: &[u8], asked: u64, listed: u64) -> usize
    ensures { result ≡ length (answer_of file.now asked listed) }
{
    let mut text = [0u8; 64];
    let size = why::answer(file, asked, listed, &mut text).size;
    io::write_all(inout::STANDARD_OUTPUT, &text[..size]);
    size
}

// Reads a file, and prints the line.
// Stays: two numbers side by side, here and in `print_answer`, as the public `why::answer` takes them.
fn tell(asked: u64, listed: u64) {
    let mut file = [0u8; 182634];
    let size = inout::fill(&mut file, 0, 182634);
    print_answer(&file[..size], asked, listed);
}

fn main(rt: HostRuntime) {
    match (number_at(&rt, 1), number_at(&rt, 2)) {
        (Some(asked), Some(listed)) if is_missing(&rt, 3) => tell(asked, listed),
        _ => {
            io::write_all(
                inout::STANDARD_ERROR,
                b"usage: notebook-why ASKED LISTED [FILE]\n",
            );
        }
    }
}
