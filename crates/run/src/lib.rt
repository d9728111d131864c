// The run state, its start, one iteration, and why a box is on a list. Boxes and leaders count from 0, but for the
// numbers that a question names, which count from 1.
#![tactic(auto)]

ghost use Rattle.std.specs.Prelude.{
  ◌≡◌,
  true,
  false,
  not,
  ◌||◌,
  ◌&&◌,
  ◌+◌,
  ◌*◌,
  ◌≤◌,
  ◌<◌,
  ltb,
  length,
  MatchOption,
};
ghost use Rattle.counting.specs.Count.{any, build, count};
ghost use Rattle.counting.specs.Sets.{member};
ghost use Rattle.sizes.specs.Numbers.{refusal_in};
ghost use Rattle.sizes.specs.Sizes.{sound};
ghost use Rattle.run.specs.Iteration.{reason_in};
ghost use Rattle.run.specs.Inside.{
  row_from,
  list_from,
  rows_from,
  lists_from,
  bad_box,
  Keeping,
  BoxKept,
  kept_reasons,
  cell_of,
  setting_refusal,
  first_refusal,
  late_refusal,
  asking_refusal,
};
ghost use Rattle.run.specs.State.{
  start_row,
  start_refusal,
  start_reply,
  zeros,
  bad_place,
  too_many_sent,
  kept,
  bad_reason,
  bad_reasons,
  bad_state,
  iterate_refusal,
  iterate_reply,
};
ghost use Rattle.run.specs.Why.{no_box, not_asked, why_refusal, why_reply};

use gradecast::Cast;
use sizes::Refusal;

// Why a box is on a list: the iteration in which it was listed, counted from 1, with the confidence and the support
// that were found for it then. Zeros where it is not listed.
// Stays: iteration 0 and no Option, since docs/SCOPE.md ("What is kept between iterations") says zeros where there is
// no listing.
#[derive(Clone, Copy)]
pub struct Reason {
    pub iteration: u8,
    pub confidence: u8,
    pub support: u8,
}

// The reasons of all boxes, part by part: box i and leader k stand at place 13 i + k, for every n.
// Stays: three arrays, since sixteen places of each are looked at together; one array of reasons was slower
// (docs/DECISIONS.md, "Reasons").
#[derive(Clone, Copy)]
pub struct Reasons {
    pub iterations: [u8; 169],
    pub confidences: [u8; 169],
    pub supports: [u8; 169],
}

// What is kept between iterations. Places of rows and lists above n are 0.
// Stays: two arrays, since docs/SCOPE.md ("Forms") lays down a struct with a `[u64; 13]` and a `[u16; 13]`.
#[derive(Clone, Copy)]
pub struct Run {
    pub n: u8,
    pub t: u8,
    pub faulty: u16,
    pub done: u8,
    pub sent: u64,
    pub rows: [u64; 13],
    pub lists: [u16; 13],
    pub reasons: Reasons,
}

// The reply of a start and of an iteration: the refusal's number, or 0 with the state.
// Stays: a number and no Result, since a reply carries 0 where nothing is refused, and a refused iteration hands the
// state back (docs/SCOPE.md, "The calls").
#[derive(Clone, Copy)]
pub struct Next {
    pub refusal: u8,
    pub run: Run,
}

// The reply of the call that says why a box is listed: the refusal's number, the state as it came, and the reason.
// Stays: a number and no Result, as in Next.
#[derive(Clone, Copy)]
pub struct Why {
    pub refusal: u8,
    pub run: Run,
    pub reason: Reason,
}

// The rows and the lists after an iteration.
#[derive(Clone, Copy)]
struct Places {
    rows: [u64; 13],
    lists: [u16; 13],
}

// What the reasons of an iteration go by: its number, counted from 1, and the lists before and after it.
#[derive(Clone, Copy)]
struct Joining {
    n: u8,
    iteration: u8,
    old: [u16; 13],
    new: [u16; 13],
}

// Refusals 4, 5 and 6, which a start, an iteration and a question share.
// Stays: n, t and the faulty set one by one, as the public start takes them; the functions after a start have a state.
// And `as` for indices and lengths, which leaves the number as it is in each goal, where `usize::from` is a call.
fn check_setting(n: u8, t: u8, faulty: u16) -> Result<(), Refusal>
    ensures { refusal_in result ≡ setting_refusal n t faulty }
{
    sizes::check_size(n as usize, t)?;
    if sizes::is_stray(n, faulty) {
        return Err(Refusal::Stray);
    }
    Ok(())
}

// Refusals 4, 5, 6, 11 and 9 of a start.
fn check_start(n: u8, t: u8, faulty: u16, rows: &[u64]) -> Result<(), Refusal>
    ensures { refusal_in result ≡ start_refusal n t faulty rows.now }
{
    check_setting(n, t, faulty)?;
    if rows.len() != n as usize {
        return Err(Refusal::WrongLength);
    }
    if sizes::has_sound_zero(faulty, rows) {
        return Err(Refusal::SoundZero);
    }
    Ok(())
}

// The thirteen rows at the start: a sound box's own, and 0 in a faulty or unused place.
fn start_rows(faulty: u16, rows: &[u64]) -> [u64; 13]
    requires { length rows.now ≤ 13 }
    ensures { result ≡ build 13 (start_row (length rows.now) faulty rows.now) }
{
    let mut held = [0; 13];
    for (k, row) in rows.iter().enumerate() {
        if !sizes::is_member(faulty, k) {
            held[k] = *row;
        }
    }
    held
}

// A state of zeros, which stands where there is no run.
pub fn no_run() -> Run
    ensures { result ≡ zeros }
{
    Run {
        n: 0,
        t: 0,
        faulty: 0,
        done: 0,
        sent: 0,
        rows: [0; 13],
        lists: [0; 13],
        reasons: Reasons {
            iterations: [0; 169],
            confidences: [0; 169],
            supports: [0; 169],
        },
    }
}

// A start: the state before the first iteration, from n, t, the faulty set and n rows. Refusals 4, 5, 6, 11, 9.
pub fn start(n: u8, t: u8, faulty: u16, rows: &[u64]) -> Next
    ensures { result ≡ start_reply n t faulty rows.now }
{
    if let Err(refusal) = check_start(n, t, faulty, rows) {
        return Next {
            refusal: u8::from(refusal),
            run: no_run(),
        };
    }
    let run = Run {
        n,
        t,
        faulty,
        rows: start_rows(faulty, rows),
        ..no_run()
    };
    Next { refusal: 0, run }
}

// Does leader k stand on the new list: was it on the old one, or has it confidence 0 or 1?
// Stays: a confidence is a number and no enum, here and below, and is matched on (docs/SCOPE.md, "Forms").
fn joins(old: u16, k: usize, confidence: u8) -> bool
    ensures { result ≡ (member old k || ltb confidence 2) }
{
    match confidence {
        0..=1 => true,
        _ => sizes::is_member(old, k),
    }
}

// Does leader k join the list: is it not on it yet, and has it confidence 0 or 1?
fn joins_now(old: u16, k: usize, confidence: u8) -> bool
    ensures { result ≡ (not (member old k) && ltb confidence 2) }
{
    match confidence {
        0..=1 => !sizes::is_member(old, k),
        _ => false,
    }
}

// Step 5, the new row of a box: the row held by the most leaders with confidence 1 or 2, else the old row.
// Stays: row 0 and no Option, since 0 means nothing wherever it stands (docs/SCOPE.md, "Numbers").
fn new_row(old: u64, rows: &[u64], confidences: &[u8]) -> u64
    ensures { result ≡ row_from old rows.now confidences.now }
{
    let chosen = tally::choose(rows, confidences).row;
    if chosen == 0 {
        return old;
    }
    chosen
}

// Step 5, the new list of a box: built from the empty set, leader by leader.
fn new_list(old: u16, confidences: &[u8]) -> u16
    requires { length confidences.now ≤ 13 }
    ensures { result ≡ list_from old confidences.now }
{
    let mut list: u16 = 0;
    for (k, confidence) in confidences.iter().enumerate() {
        if joins(old, k, *confidence) {
            list += 1 << k;
        }
    }
    list
}

impl Reason {
    // Is anything kept?
    fn is_kept(self) -> bool
        ensures { result ≡ kept self }
    {
        self.iteration != 0 || self.confidence != 0 || self.support != 0
    }

    // Refusal 14: is this no reason for a box that is listed?
    fn is_bad(self, t: u8, done: u8) -> bool
        ensures { result ≡ bad_reason t done true self }
    {
        self.iteration == 0
            || done < self.iteration
            || 1 < self.confidence
            || tally::confidence_at(self.support, t) != self.confidence
    }
}

impl Reasons {
    // What is kept in a place.
    fn at(&self, place: usize) -> Reason
        requires { place < 169 }
        ensures { result ≡ reason_in self.now place }
    {
        Reason {
            iteration: self.iterations[place],
            confidence: self.confidences[place],
            support: self.supports[place],
        }
    }

    // In how many of the 169 places is anything kept? A count of 8 bits, so that sixteen places are counted together.
    fn count_kept(&self) -> u8
        ensures { result ≡ count 169 (λ p. kept (reason_in self.now p)) }
    {
        let mut found: u8 = 0;
        for p in 0..169 {
            found += u8::from(self.at(p).is_kept());
        }
        found
    }

    // How many boxes are on the list of box i, or none where one of them has a bad reason.
    fn count_listed(&self, t: u8, done: u8, list: u16, i: usize) -> Option<u16>
        requires { i < 13 }
        ensures { MatchOption result (bad_box t done list self.now i ≡ true)
            (λ listed. (bad_box t done list self.now i ≡ false) × (listed ≡ count 13 (member list))) }
    {
        if list == 0 {
            return Some(0);
        }
        let mut listed = 0;
        for k in 0..13 {
            if sizes::is_member(list, k) {
                if self.at(13 * i + k).is_bad(t, done) {
                    return None;
                }
                listed += 1;
            }
        }
        Some(listed)
    }

    // Step 5: the reasons that box i keeps. Where its list has not changed nobody joins. Those behind place n stay:
    // no box is there to join.
    fn keep_box(&mut self, j: &Joining, cast: &Cast, i: usize)
        requires { Keeping j.now cast.now.confidences × (i < j.now.n) }
        ensures iterations { BoxKept j.now i (λ a b. j.now.iteration) self.old.iterations self.new.iterations }
        ensures confidences { BoxKept j.now i (cell_of j.now.n cast.now.confidences)
            self.old.confidences self.new.confidences }
        ensures supports { BoxKept j.now i (cell_of j.now.n cast.now.supports)
            self.old.supports self.new.supports }
    {
        let old = j.old[i];
        if old == j.new[i] {
            return;
        }
        let boxes = j.n as usize;
        for k in 0..boxes {
            let from = i * boxes + k;
            if joins_now(old, k, cast.confidences[from]) {
                let at = 13 * i + k;
                self.iterations[at] = j.iteration;
                self.confidences[at] = cast.confidences[from];
                self.supports[at] = cast.supports[from];
            }
        }
    }

    // Step 5: the reasons that all boxes keep.
    fn keep(&mut self, j: &Joining, cast: &Cast)
        requires { Keeping j.now cast.now.confidences }
        ensures { self.new ≡ kept_reasons j.now cast.now.confidences cast.now.supports self.old }
    {
        let boxes = j.n as usize;
        for i in 0..boxes {
            self.keep_box(j, cast, i);
        }
    }
}

impl Run {
    // Is k one of the n boxes, and sound?
    fn is_sound_box(&self, k: usize) -> bool
        ensures { result ≡ (ltb k self.now.n && sound self.now.faulty k) }
    {
        k < self.n as usize && !sizes::is_member(self.faulty, k)
    }

    // Refusal 14 at place k: a list bit at place n or above, or anything in a faulty or unused place.
    fn is_bad_place(&self, k: usize) -> bool
        requires { k < 13 }
        ensures { result ≡ bad_place self.now k }
    {
        if self.is_sound_box(k) {
            return sizes::is_stray(self.n, self.lists[k]);
        }
        self.rows[k] != 0 || self.lists[k] != 0
    }

    // Refusal 14: is some place of the state bad?
    fn has_bad_place(&self) -> bool
        ensures { result ≡ any 13 (bad_place self.now) }
    {
        (0..13).any(|k| self.is_bad_place(k))
    }

    // Refusal 14: more messages than iterations done times the limit for one iteration?
    fn has_too_many_sent(&self) -> bool
        ensures { result ≡ too_many_sent self.now }
    {
        let n = u64::from(self.n);
        let limit = n * n.saturating_sub(1) * (1 + 2 * n);
        u64::from(self.done) * limit < self.sent
    }

    // Refusal 14 of the reasons. Each listed box needs a good reason; then something is kept for it, and nothing is
    // kept for any other exactly where as many are kept as are listed.
    fn has_bad_reason(&self) -> bool
        ensures { result ≡ any 13 (bad_reasons self.now) }
    {
        let mut listed = 0;
        for (i, list) in self.lists.iter().enumerate() {
            let Some(more) = self.reasons.count_listed(self.t, self.done, *list, i) else {
                return true;
            };
            listed += more;
        }
        u16::from(self.reasons.count_kept()) != listed
    }

    // Refusal 14 of a state.
    fn is_bad(&self) -> bool
        ensures { result ≡ bad_state self.now }
    {
        self.has_bad_place() || self.has_too_many_sent() || self.has_bad_reason()
    }

    // Refusals 4, 5, 6 and 9 of a state.
    fn check_first(&self) -> Result<(), Refusal>
        ensures { refusal_in result ≡ first_refusal self.now }
    {
        check_setting(self.n, self.t, self.faulty)?;
        let boxes = self.n as usize;
        if sizes::has_sound_zero(self.faulty, &self.rows[..boxes]) {
            return Err(Refusal::SoundZero);
        }
        Ok(())
    }

    // Refusals 12 and 14, after 4, 5, 6, 9 and 11.
    fn check_late(&self) -> Result<(), Refusal>
        ensures { refusal_in result ≡ late_refusal self.now }
    {
        if self.t < self.done {
            return Err(Refusal::AllDone);
        }
        if self.is_bad() {
            return Err(Refusal::BadState);
        }
        Ok(())
    }

    // Refusals 4, 5, 6, 9, 11, 12 and 14 of an iteration.
    fn check_iterate(&self, table: &[u64]) -> Result<(), Refusal>
        ensures { refusal_in result ≡ iterate_refusal self.now table.now }
    {
        self.check_first()?;
        if table.len() != sizes::table_rows(self.n) {
            return Err(Refusal::WrongLength);
        }
        self.check_late()
    }

    // Is a box number outside 1 to n?
    fn is_no_box(&self, number: u64) -> bool
        ensures { result ≡ no_box self.now.n number }
    {
        !(1..=u64::from(self.n)).contains(&number)
    }

    // Can the box not be asked: is it none of the n, or faulty?
    fn is_not_asked(&self, asked: u64) -> bool
        ensures { result ≡ not_asked self.now asked }
    {
        self.is_no_box(asked) || sizes::is_member(self.faulty, asked as usize - 1)
    }

    // Refusals 14 and 15 of the call that says why, after 4, 5, 6 and 9.
    // Stays: the two box numbers one by one, here and below, as the public `why` takes them.
    fn check_asking(&self, asked: u64, listed: u64) -> Result<(), Refusal>
        ensures { refusal_in result ≡ asking_refusal self.now asked listed }
    {
        if usize::from(self.t) + 1 < usize::from(self.done) || self.is_bad() {
            return Err(Refusal::BadState);
        }
        if self.is_not_asked(asked) || self.is_no_box(listed) {
            return Err(Refusal::NoBox);
        }
        Ok(())
    }

    // Refusals 4, 5, 6, 9, 14 and 15 of the call that says why.
    fn check_why(&self, asked: u64, listed: u64) -> Result<(), Refusal>
        ensures { refusal_in result ≡ why_refusal self.now asked listed }
    {
        self.check_first()?;
        self.check_asking(asked, listed)
    }

    // Step 5: the rows and the lists after the iteration. Faulty and unused places hold 0. Only the n boxes are gone
    // through.
    fn step5_places(&self, cast: &Cast) -> Places
        requires { self.now.n ≤ 13 }
        ensures rows { result.rows ≡ rows_from self.now cast.now }
        ensures lists { result.lists ≡ lists_from self.now cast.now }
    {
        let boxes = self.n as usize;
        let mut rows = [0; 13];
        let mut lists = [0; 13];
        for i in 0..boxes {
            if self.is_sound_box(i) {
                let from = i * boxes;
                let end = from + boxes;
                let confidences = &cast.confidences[from..end];
                rows[i] = new_row(self.rows[i], &cast.rows[from..end], confidences);
                lists[i] = new_list(self.lists[i], confidences);
            }
        }
        Places { rows, lists }
    }

    // One iteration: the state after it, with the number of the refusal. Refusals 4, 5, 6, 9, 11, 12, 14; a refused
    // iteration hands the state back as it came.
    // Stays: a second state is built beside the first. With the iteration made in place, in the reply, a listing takes
    // 12045, 39380, 103393 and 228594 instructions at n = 4, 7, 10 and 13; this way 12670, 39111, 94035 and 199899.
    pub fn iterate(self, table: &[u64]) -> Next
        ensures { result ≡ iterate_reply self table.now }
    {
        if let Err(refusal) = self.check_iterate(table) {
            return Next {
                refusal: u8::from(refusal),
                run: self,
            };
        }
        // The tests above leave steps 1 to 4 nothing to refuse.
        let settings = gradecast::Settings {
            n: self.n as usize,
            t: self.t,
            faulty: self.faulty,
        };
        let cast = gradecast::steps(settings, &self.rows, &self.lists, table);
        let Places { rows, lists } = self.step5_places(&cast);
        let done = self.done + 1;
        let old = self.lists;
        let j = Joining {
            n: self.n,
            iteration: done,
            old,
            new: lists,
        };
        let mut run = Run {
            done,
            sent: self.sent + cast.sent,
            rows,
            lists,
            ..self
        };
        run.reasons.keep(&j, &cast);
        Next { refusal: 0, run }
    }

    // Why box `listed` is on the list of box `asked`, both counted from 1: the state as it came, and the reason, which
    // is zeros where the box is not listed. Refusals 4, 5, 6, 9, 14, 15.
    pub fn why(self, asked: u64, listed: u64) -> Why
        ensures { result ≡ why_reply self asked listed }
    {
        if let Err(refusal) = self.check_why(asked, listed) {
            return Why {
                refusal: u8::from(refusal),
                run: self,
                // Stays: zeros written out, in the one place of this crate that has them.
                reason: Reason {
                    iteration: 0,
                    confidence: 0,
                    support: 0,
                },
            };
        }
        let place = 13 * (asked as usize - 1) + (listed as usize - 1);
        Why {
            refusal: 0,
            run: self,
            reason: self.reasons.at(place),
        }
    }
}
