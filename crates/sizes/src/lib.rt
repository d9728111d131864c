// What n, t and a set of boxes may be: the two rows of constants by n, and the tests that more than one crate makes.
#![tactic(auto)]

mod refusal;

ghost use Rattle.std.specs.Prelude.{◌≡◌, ◌&&◌, eqb, length};
ghost use Rattle.counting.specs.Sets.{member};
ghost use Rattle.sizes.specs.Numbers.{refusal_in};
ghost use Rattle.sizes.specs.Sizes.{stray, sound, sound_zero, by_n, largest_t, table_rows, size_refusal};

pub use refusal::{Refusal, refusal_number};

// The largest t with 3t less than n, for n = 1 to 13.
const LARGEST_T: [u8; 13] = [0, 0, 0, 1, 1, 1, 2, 2, 2, 3, 3, 3, 4];

// The rows in one iteration's table, for n = 1 to 13.
const TABLE_ROWS: [usize; 13] = [
    3, 20, 63, 144, 275, 468, 735, 1088, 1539, 2100, 2783, 3600, 4563,
];

// The largest t for n boxes, and 0 where n is outside 1 to 13.
pub fn largest_t(n: u8) -> u8
    ensures { result ≡ by_n largest_t n }
{
    match n {
        // Stays: `as`, here and below, since `from` is no plainer for an index or a length.
        1..=13 => LARGEST_T[(n - 1) as usize],
        _ => 0,
    }
}

// The rows in one iteration's table for n boxes, and 0 where n is outside 1 to 13.
// Stays: beside largest_t, since each has its match on n's range (docs/DECISIONS.md, "Forms").
pub fn table_rows(n: u8) -> usize
    ensures { result ≡ by_n table_rows n }
{
    match n {
        1..=13 => TABLE_ROWS[(n - 1) as usize],
        _ => 0,
    }
}

// Tests n boxes, or n rows, and t: refusals 4 and 5.
pub fn check_size(n: usize, t: u8) -> Result<(), Refusal>
    ensures { refusal_in result ≡ size_refusal n t }
{
    if n < 1 {
        return Err(Refusal::Outside);
    }
    let above = 13 < n;
    if above {
        return Err(Refusal::Outside);
    }
    if n <= 3 * usize::from(t) {
        return Err(Refusal::TooMany);
    }
    Ok(())
}

// Refusals 4 and 5, which every call with n boxes, or n rows, and t can meet, by their numbers.
// Stays: beside check_size, as the call of docs/SCOPE.md that gives the number.
pub fn size_refusal(n: usize, t: u8) -> u8
    ensures { result ≡ size_refusal n t }
{
    refusal_number(check_size(n, t))
}

// Is box k in the set? A set has 16 bits, so no box from place 16 on is.
pub fn is_member(set: u16, k: usize) -> bool
    ensures { result ≡ member set k }
{
    k < 16 && (set >> k) % 2 == 1
}

// Refusal 6: has the set a bit at place n or above?
pub fn is_stray(n: u8, set: u16) -> bool
    ensures { result ≡ stray n set }
{
    n < 16 && (set >> n) != 0
}

// Is the row of box k 0, though the box is sound?
pub fn is_sound_zero(faulty: u16, k: usize, row: u64) -> bool
    ensures { result ≡ (sound faulty k && eqb row 0) }
{
    !is_member(faulty, k) && row == 0
}

// Refusal 9: is some sound box's row 0?
// Stays: a loop, since its test is a call, which the proof of a chain does not see through (tally's `has_above2`).
pub fn has_sound_zero(faulty: u16, rows: &[u64]) -> bool
    ensures { result ≡ sound_zero (length rows.now) faulty rows.now }
{
    for (k, row) in rows.iter().enumerate() {
        if is_sound_zero(faulty, k, *row) {
            return true;
        }
    }
    false
}
