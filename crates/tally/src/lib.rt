// The vote of step 3, the grade of step 4 and the choice of step 5, each by itself over lent slices of rows.
#![tactic(auto)]

ghost use Rattle.std.specs.Prelude.{◌≡◌, cond, ◌&&◌, ◌*◌, ◌≤◌, ◌<◌, length, take, eqb, ltb};
ghost use Rattle.counting.specs.Most.{places, support, before, most};
ghost use Rattle.sizes.specs.Numbers.{refusal_in};
ghost use Rattle.tally.specs.Tally.{carried, vote_of, confidence_at, counted, firm_for, above2};
ghost use Rattle.tally.specs.Reply.{vote_reply, grade_reply, choice_refusal, choice_reply};
ghost use Rattle.tally.specs.Inside.{lead_of};

use sizes::Refusal;

// The reply of a vote: the row that stands at least n − t times, or 0.
#[derive(Clone, Copy)]
pub struct Voted {
    // Stays: a number, since by docs/SCOPE.md a reply carries 0 where nothing is refused.
    pub refusal: u8,
    pub row: u64,
}

// The reply of a grade: the row found most often, its confidence, 0 to 2, and its support. The support stands also
// where the confidence is 0 and the row with it.
#[derive(Clone, Copy)]
pub struct Graded {
    // Stays: a number, since by docs/SCOPE.md a reply carries 0 where nothing is refused.
    pub refusal: u8,
    pub row: u64,
    pub confidence: u8,
    pub support: u8,
}

// The reply of a choice: the chosen row, and how many leaders with confidence 2 hold it.
#[derive(Clone, Copy)]
pub struct Chosen {
    // Stays: a number, since by docs/SCOPE.md a reply carries 0 where nothing is refused.
    pub refusal: u8,
    pub row: u64,
    pub firm: usize,
}

// The row that leads so far, and its support.
#[derive(Clone, Copy)]
struct Lead {
    row: u64,
    support: usize,
}

// How many places of rows hold v.
// Stays: a loop, since with `filter` and `count` a vote, a grade and a choice take a sixth more instructions.
fn places_of(rows: &[u64], v: u64) -> usize
    ensures { result ≡ places rows.now v }
{
    let mut found = 0;
    for row in rows {
        found += usize::from(*row == v);
    }
    found
}

// Is v a non-zero row that stands at least n − t times?
fn is_carried(rows: &[u64], t: u8, v: u64) -> bool
    requires { t ≤ length rows.now }
    ensures { result ≡ carried t rows.now v }
{
    // Stays: `as`, here and below, since `from` is no plainer for a length and a support is proved to fit.
    v != 0 && rows.len() - (t as usize) <= places_of(rows, v)
}

// The non-zero row that stands at least n − t times, or 0. It is missing from at most t places, so it is one of the
// first t + 1. No second row can stand so often, so the first one found is the vote.
// Stays: 0 and no Option, here and for a lead, since a row of 0 means nothing everywhere (docs/SCOPE.md, "Numbers").
fn vote_of(rows: &[u64], t: u8) -> u64
    requires { 3 * t < length rows.now }
    ensures { result ≡ vote_of t rows.now }
{
    // Stays: a loop, as in has_above2, since the test is a call.
    let first = t as usize + 1;
    for row in &rows[..first] {
        if is_carried(rows, t, *row) {
            return *row;
        }
    }
    0
}

// The vote of step 3: the non-zero row that stands at least n − t times, or 0. Refusals 4, 5, 7; after 4 and 5 no
// slice gives 7.
pub fn vote(rows: &[u64], t: u8) -> Voted
    ensures { result ≡ vote_reply rows.now t }
{
    match sizes::check_size(rows.len(), t) {
        Err(refusal) => Voted {
            refusal: u8::from(refusal),
            row: 0,
        },
        Ok(()) => {
            let row = vote_of(rows, t);
            Voted { refusal: 0, row }
        }
    }
}

// The support of v: its places, and none for 0.
fn support_of(rows: &[u64], v: u64) -> usize
    ensures { result ≡ support rows.now v }
{
    if v == 0 { 0 } else { places_of(rows, v) }
}

// Whichever of the lead and v has more support, the lower on a tie.
// Stays: tests, since with a match on `cmp` a vote, a grade and a choice take a fourteenth more instructions.
fn ahead(rows: &[u64], lead: Lead, v: u64) -> Lead
    requires { lead ≡ lead_of rows.now lead.row }
    ensures { result ≡ lead_of rows.now (cond (before rows.now lead.row v) v lead.row) }
{
    if v == lead.row {
        return lead;
    }
    let support = support_of(rows, v);
    if lead.support < support {
        return Lead { row: v, support };
    }
    if support < lead.support {
        return lead;
    }
    let lower = v < lead.row;
    if lower {
        return Lead { row: v, support };
    }
    lead
}

// The non-zero row found most often, the lowest on a tie, with its support. A row in more than half of the places ends
// the search, and so does one with more places than are left: no row that is still to be met has as many.
fn lead_of(rows: &[u64]) -> Lead
    ensures { result ≡ lead_of rows.now (most rows.now) }
{
    let mut lead = Lead { row: 0, support: 0 };
    for (i, row) in rows.iter().enumerate() {
        lead = ahead(rows, lead, *row);
        if rows.len() / 2 < lead.support {
            return lead;
        }
        if rows.len() - i <= lead.support {
            return lead;
        }
    }
    lead
}

// The confidence that a support gives.
// Stays: a number and no enum, since a choice takes any confidence and refuses those above 2 by 13 (docs/SCOPE.md).
pub fn confidence_at(support: u8, t: u8) -> u8
    ensures { result ≡ confidence_at t support }
{
    if 2 * (t as usize) + 1 <= (support as usize) {
        return 2;
    }
    if t < support {
        return 1;
    }
    0
}

// The grade of step 4: the non-zero row found most often, the lowest on a tie, with its confidence and its support.
// Refusals 4, 5.
pub fn grade(rows: &[u64], t: u8) -> Graded
    ensures { result ≡ grade_reply rows.now t }
{
    if let Err(refusal) = sizes::check_size(rows.len(), t) {
        return Graded {
            refusal: u8::from(refusal),
            row: 0,
            confidence: 0,
            support: 0,
        };
    }
    let lead = lead_of(rows);
    let support = lead.support as u8;
    let confidence = confidence_at(support, t);
    if confidence == 0 {
        return Graded {
            refusal: 0,
            row: 0,
            confidence: 0,
            support,
        };
    }
    Graded {
        refusal: 0,
        row: lead.row,
        confidence,
        support,
    }
}

// A leader's row where its confidence is 1 or 2, and nothing where it is 0.
fn counted_row(row: u64, confidence: u8) -> u64
    ensures { result ≡ cond (eqb confidence 0) 0 row }
{
    match confidence {
        0 => 0,
        _ => row,
    }
}

// The rows of the leaders with confidence 1 or 2.
// Stays: an index for the second slice, here and in firm_for; over `zip` the loop's proof was no plainer.
fn counted_rows(rows: &[u64], confidences: &[u8]) -> [u64; 13]
    requires { (length rows.now ≤ 13) × (length rows.now ≡ length confidences.now) }
    ensures { (length result ≡ 13) ×
        (take (length rows.now) result ≡ counted rows.now confidences.now) }
{
    let mut out = [0; 13];
    for (i, row) in rows.iter().enumerate() {
        out[i] = counted_row(*row, confidences[i]);
    }
    out
}

// Is the confidence none of 0, 1 and 2?
fn is_above2(confidence: u8) -> bool
    ensures { result ≡ ltb 2 confidence }
{
    match confidence {
        0..=2 => false,
        _ => true,
    }
}

// Is some confidence above 2?
// Stays: a loop. A chain of `any` was tried: the proof did not see through a test that is a call.
fn has_above2(confidences: &[u8]) -> bool
    ensures { result ≡ above2 confidences.now }
{
    for confidence in confidences {
        if is_above2(*confidence) {
            return true;
        }
    }
    false
}

// Tests a choice: refusals 4, 11 and 13.
fn check_choice(rows: &[u64], confidences: &[u8]) -> Result<(), Refusal>
    ensures { refusal_in result ≡ choice_refusal rows.now confidences.now }
{
    if rows.len() < 1 {
        return Err(Refusal::Outside);
    }
    if 13 < rows.len() {
        return Err(Refusal::Outside);
    }
    if rows.len() != confidences.len() {
        return Err(Refusal::WrongLength);
    }
    if has_above2(confidences) {
        return Err(Refusal::Above2);
    }
    Ok(())
}

// Is this a leader with confidence 2 that holds the chosen row?
fn is_firm(row: u64, confidence: u8, chosen: u64) -> bool
    ensures { result ≡ (eqb confidence 2 && eqb row chosen) }
{
    match confidence {
        2 => row == chosen,
        _ => false,
    }
}

// How many leaders with confidence 2 hold the chosen row.
fn firm_for(rows: &[u64], confidences: &[u8], chosen: u64) -> usize
    requires { length rows.now ≡ length confidences.now }
    ensures { result ≡ firm_for rows.now confidences.now chosen }
{
    let mut firm = 0;
    for (i, row) in rows.iter().enumerate() {
        firm += usize::from(is_firm(*row, confidences[i], chosen));
    }
    firm
}

// The choice of step 5: the row held by the most leaders with confidence 1 or 2, the lowest on a tie, and how many
// leaders with confidence 2 hold it. Refusals 4, 11, 13.
// Stays: rows and confidences come in two slices, of which 11 says that their lengths differ (docs/SCOPE.md).
pub fn choose(rows: &[u64], confidences: &[u8]) -> Chosen
    ensures { result ≡ choice_reply rows.now confidences.now }
{
    // Stays: zeros written out, as in a vote and a grade: each reply shows what a refused call gives.
    if let Err(refusal) = check_choice(rows, confidences) {
        return Chosen {
            refusal: u8::from(refusal),
            row: 0,
            firm: 0,
        };
    }
    let n = rows.len();
    let counted = counted_rows(rows, confidences);
    let lead = lead_of(&counted[..n]);
    if lead.row == 0 {
        return Chosen {
            refusal: 0,
            row: 0,
            firm: 0,
        };
    }
    Chosen {
        refusal: 0,
        row: lead.row,
        firm: firm_for(rows, confidences, lead.row),
    }
}
