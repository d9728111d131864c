// Reads a run file on standard input and prints its listing: what it prints is the library's proved text.
//
// 182,634 bytes are enough of any file: the largest has one less, and one more shows that a file goes on past its
// last table. 2,235 bytes are enough for any listing.
#![tactic(auto)]

fn main() {
    let mut file = [0u8; 182634];
    let size = inout::fill(&mut file, 0, 182634);
    let mut text = [0u8; 2235];
    let listed = listing::list(&file[..size], &mut text);
    let end = listed.size;
    io::write_all(inout::STANDARD_OUTPUT, &text[..end]);
}
