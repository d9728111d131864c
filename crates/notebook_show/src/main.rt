// Reads a run file on standard input and writes its text to standard output, or the line that tells the refusal to
// standard error. What it writes is the library's proved text.
//
// 182,634 bytes are enough of any file: the largest has one less, and one more shows that a file goes on past its
// last table. 182,520 bytes are enough for any part of a text, and 110 for what is told.
#![tactic(auto)]

ghost use Rattle.std.specs.Prelude.{◌≡◌, length};
ghost use Rattle.says.specs.Told.{told_text};

// Writes a part of the text. Was it written?
fn write_part(file: &[u8], part: usize, text: &mut [u8]) -> bool {
    let size = showing::show(file, part, text).size;
    io::write_all(inout::STANDARD_OUTPUT, &text[..size])
}

// Writes so many parts of the text, from the first on. Were all of them written?
fn write_parts(file: &[u8], parts: usize, text: &mut [u8]) -> bool {
    (0..parts).all(|part| write_part(file, part, text))
}

// Tells a refusal; nothing where the number is 0. Gives the size of what is told, so that its contract says that all
// of it has room.
// Stays: beside `tell` of notebook_make, and `fill` and the line on standard error beside those of other programs:
// three lines each, which shared would be public, and no contract can say what is written to standard error.
fn tell(refusal: u8) -> usize
    ensures { result ≡ length (told_text refusal 0 0) }
{
    let mut line = [0u8; 110];
    let size = says::tell(refusal, 0, 0, &mut line).size;
    io::write_all(inout::STANDARD_ERROR, &line[..size]);
    size
}

// A file that is refused has no parts.
fn show(file: &[u8], text: &mut [u8]) {
    let first = showing::show(file, 0, text);
    if !write_parts(file, first.parts, text) {
        io::write_all(inout::STANDARD_ERROR, b"cannot write to standard output\n");
    }
    tell(first.refusal);
}

fn main() {
    let mut file = [0u8; 182634];
    let size = inout::fill(&mut file, 0, 182634);
    let mut text = [0u8; 182520];
    show(&file[..size], &mut text);
}
