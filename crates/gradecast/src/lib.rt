// Steps 1 to 4 of one iteration, for every box at once. Boxes and leaders count from 0.
#![tactic(auto)]

ghost use Rattle.std.specs.Prelude.{◌≡◌};
ghost use Rattle.sizes.specs.Numbers.{refusal_in};
ghost use Rattle.gradecast.specs.Cast.{cast_refusal, cast_reply};

mod hall;

use hall::Hall;
use sizes::Refusal;

// What all boxes make of all leaders: the messages of steps 1 to 3, and the row, the confidence and the support that
// box i has for leader k at place i * n + k; 0 in a faulty box's place.
// Stays: a number and no Result, since docs/SCOPE.md's replies carry 0 where nothing is refused; and three arrays,
// since `cast_of`, which the contract of `steps` names, says what each one holds.
#[derive(Clone, Copy)]
pub struct Cast {
    pub refusal: u8,
    pub sent: u64,
    pub rows: [u64; 169],
    pub confidences: [u8; 169],
    pub supports: [u8; 169],
}

// What a call sets for all boxes: how many there are, how many may be faulty, and which are.
// Stays: three fields, as in the other public structs that have them, since docs/SCOPE.md names each.
#[derive(Clone, Copy)]
pub struct Settings {
    pub n: usize,
    pub t: u8,
    pub faulty: u16,
}

// Tests n, t and the table's length: refusals 4, 5 and 11 of steps 1 to 4.
fn check_steps(n: usize, t: u8, table: &[u64]) -> Result<(), Refusal>
    ensures { refusal_in result ≡ cast_refusal n t table.now }
{
    sizes::check_size(n, t)?;
    if table.len() != sizes::table_rows(n as u8) {
        return Err(Refusal::WrongLength);
    }
    Ok(())
}

// Steps 1 to 4 for every box, from the rows and lists as they stand and the table of what the faulty boxes send.
// Refusals 4, 5, 11.
pub fn steps(settings: Settings, rows: &[u64; 13], lists: &[u16; 13], table: &[u64]) -> Cast
    ensures { result ≡ cast_reply settings.n settings.t settings.faulty
        rows.now lists.now table.now }
{
    if let Err(refusal) = check_steps(settings.n, settings.t, table) {
        return Cast {
            refusal: u8::from(refusal),
            sent: 0,
            rows: [0; 169],
            confidences: [0; 169],
            supports: [0; 169],
        };
    }
    Hall::new(settings, rows, lists, table).all_steps()
}
