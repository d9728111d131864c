// Reads a text on standard input and writes its run file to standard output, or the line that tells what is wrong to
// standard error. What it writes is the library's proved file or text. Part of a text makes another file, so that a
// read that fails must not count as the end of the text.
//
// 182,633 bytes are the largest file, 1,001 one more than a line may have, and 110 enough for what is told.
#![tactic(auto)]

ghost use Rattle.std.specs.Prelude.{◌≡◌, ◌≤◌, length};
ghost use Rattle.says.specs.Told.{told_text};

use making::Maker;
use std::io::{Error, Read, Stdin};

// Takes the text piece by piece, until it ends, its outcome is settled or a read fails. Each read gives what has come,
// without waiting for more: what has come may be wrong already. A proved loop has to end, and nothing says that a text
// does: its turns are counted, up to a number that no text uses up.
fn take_text(
    input: &mut Stdin,
    text: &mut [u8],
    line: &mut [u8],
    file: &mut [u8],
) -> Result<Maker, Error> {
    let mut maker = making::no_text();
    for _ in 0..u64::MAX {
        if making::is_settled(maker, line) {
            break;
        }
        let size = input.read(text)?;
        if size == 0 {
            break;
        }
        maker = making::take(maker, &text[..size], line, file);
    }
    Ok(maker)
}

// Tells a refusal or a fault; nothing where there is neither. Gives the size of what is told, so that its contract
// says that all of it has room.
// Stays: beside the `tell` of notebook_show, as does the text below where nothing can be written: a few lines in each
// program. Shared they would be public, and no contract says what comes to standard error.
fn tell(refusal: u8, line: u64, fault: u8) -> usize
    ensures { result ≡ length (told_text refusal line fault) }
{
    let mut told = [0u8; 110];
    let size = says::tell(refusal, line, fault, &mut told).size;
    io::write_all(inout::STANDARD_ERROR, &told[..size]);
    size
}

// Ends the text and writes what comes of it. Where something is told the file is empty.
fn finish(maker: Maker, line: &[u8], file: &mut [u8]) {
    let made = making::finish(maker, line, file);
    let size = made.size;
    if !io::write_all(inout::STANDARD_OUTPUT, &file[..size]) {
        io::write_all(inout::STANDARD_ERROR, b"cannot write to standard output\n");
    }
    tell(made.refusal, made.line, made.fault);
}

fn main(rt: HostRuntime) {
    let mut text = [0u8; 65536];
    let mut line = [0u8; 1001];
    let mut file = [0u8; 182633];
    let mut input = rt.stdin();
    let Ok(maker) = take_text(&mut input, &mut text, &mut line, &mut file) else {
        io::write_all(inout::STANDARD_ERROR, b"cannot read standard input\n");
        return;
    };
    finish(maker, &line, &mut file);
}
