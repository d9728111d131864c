// What all boxes of one call go by, and what each of them hears and makes of it.
ghost use Rattle.std.specs.Prelude.{◌≡◌, true, replicate, ◌+◌, ◌-◌, ◌*◌, ◌<◌, ◌≤◌};
ghost use Rattle.std.specs.Prelude.{not, eqb, length, get_or};
ghost use Rattle.counting.specs.Count.{count, front};
ghost use Rattle.counting.specs.Sets.{member};
ghost use Rattle.tally.specs.Tally.{vote_of, support_of, graded_row};
ghost use Rattle.gradecast.specs.Steps.{place1, place_from, sends, hears, messages};
ghost use Rattle.gradecast.specs.Cast.{cells, cast_of};
ghost use Rattle.gradecast.specs.Fair.{faulty_boxes};
ghost use Rattle.gradecast.specs.Inside.{
  Ready,
  RightSize,
  OddSet,
  EnoughAsked,
  AskedFor,
  RowsFit,
  Among,
  AtMost,
  FromSender,
  SendersTo,
  PutTo,
  said_by,
  column_of,
  on_leader,
  one_more,
  filled,
  sends_first,
  Confidences,
};

use crate::{Cast, Settings};

// What is the same for all boxes of one call: the settings; the rows and the lists as they stand, and the table of
// what the faulty boxes send; how many boxes are sound; which are faulty or on some list; and the leaders that every
// box must count, in steps 3 and 4 alike.
#[derive(Clone, Copy)]
pub(crate) struct Hall<'a> {
    settings: Settings,
    rows: &'a [u64; 13],
    lists: &'a [u16; 13],
    table: &'a [u64],
    many: u8,
    odd: u16,
    asked: u16,
    ghost ready: { Ready settings.n table.now },
    ghost size: { RightSize settings },
    ghost all_sound: { many ≡ settings.n - faulty_boxes settings.n settings.faulty },
    ghost odd_set: { OddSet 13 settings.faulty lists.now odd },
    ghost enough: { EnoughAsked settings lists.now asked },
}

// Box i of the hall in step 2 or 3: its list; where the table's rows of the step begin; and what the sound boxes say
// in it.
#[derive(Clone, Copy)]
struct Seat<'a> {
    hall: Hall<'a>,
    i: usize,
    list: u16,
    base: usize,
    said: &'a [u64; 169],
    ghost below: { i < hall.settings.n },
    ghost its_own: { list ≡ get_or hall.lists.now i 0 },
    ghost fits: { RowsFit base hall.settings.n },
}

// What a box finds for a leader in step 4. The confidence follows from the support.
// Stays: a type of its own beside tally's `Lead`, which is private there and counts its support in usize.
#[derive(Clone, Copy)]
struct Found {
    row: u64,
    support: u8,
}

// What all boxes find for all leaders: box i's row and support for leader k at place i * n + k.
// Stays: two arrays, since `Cast` has the two, and a single one of `Found` would be copied to them place by place.
#[derive(Clone, Copy)]
struct Findings {
    rows: [u64; 169],
    supports: [u8; 169],
}

// The boxes that are faulty or on some list. From any other box every box hears what it says.
fn odd_boxes(faulty: u16, lists: &[u16; 13]) -> u16
    ensures { OddSet 13 faulty lists.now result }
{
    let mut odd = faulty;
    for list in lists {
        odd |= *list;
    }
    odd
}

// How many of the n boxes are faulty.
fn faulty_boxes(n: usize, faulty: u16) -> usize
    ensures { result ≡ faulty_boxes n faulty }
{
    let mut found: usize = 0;
    for j in 0..n {
        if sizes::is_member(faulty, j) {
            found += 1;
        }
    }
    found
}

// The leaders that every box must count: the faulty ones, where at most t boxes are faulty and the lists hold no sound
// box; else all. What a box heard from any other leader in step 1 is its vote in step 3, and the row of its grade in
// step 4 unless it is nothing.
fn asked_leaders(settings: Settings, number: usize, odd: u16) -> u16
    requires { RightSize settings × (number ≡ faulty_boxes settings.n settings.faulty) }
    ensures { AskedFor settings odd result }
{
    let most = usize::from(settings.t);
    let too_many = number > most;
    let none_listed = odd == settings.faulty;
    if !too_many && none_listed {
        return settings.faulty;
    }
    u16::MAX
}

// Is it a row, which is sent, and not nothing?
fn is_row(row: u64) -> bool
    ensures { result ≡ not (eqb row 0) }
{
    row != 0
}

// How many of the cells hold a row.
fn sent_in(cells: &[u64]) -> usize
    ensures { (result ≡ filled cells.now) × (result ≤ length cells.now) }
{
    let mut sent: usize = 0;
    for row in cells {
        if is_row(*row) {
            sent += 1;
        }
    }
    sent
}

impl<'a> Hall<'a> {
    ghost use Rattle.gradecast.specs.Seats.{
      must_count,
      firsts,
      rows_found,
      supports_found,
      IsSecond,
      IsThird,
    };

    // The hall of one call.
    pub(crate) fn new(
        settings: Settings,
        rows: &'a [u64; 13],
        lists: &'a [u16; 13],
        table: &'a [u64],
    ) -> Hall<'a>
        requires { Ready settings.n table.now × RightSize settings }
        ensures { (result.settings ≡ settings) × (result.rows.now ≡ rows.now) ×
            (result.lists.now ≡ lists.now) × (result.table.now ≡ table.now) }
    {
        let number = faulty_boxes(settings.n, settings.faulty);
        // Stays: `as`, in all of this crate, since `try_from` would have a failure that nothing reaches.
        let many = (settings.n - number) as u8;
        let odd = odd_boxes(settings.faulty, lists);
        let asked = asked_leaders(settings, number, odd);
        Hall {
            settings,
            rows,
            lists,
            table,
            many,
            odd,
            asked,
        }
    }

    // The place in the table of step 1's row from one box to another.
    fn place_of_first(self, sender: usize, receiver: usize) -> usize
        requires { Among self.settings.n sender receiver }
        ensures { (result ≡ place1 self.entry.settings.n sender receiver) ×
            (result < self.entry.settings.n * self.entry.settings.n) }
    {
        sender * self.settings.n + receiver
    }

    // The place in the table of a row of step 2 or 3, whose rows begin at base.
    fn place_from(self, base: usize, sender: usize, receiver: usize, leader: usize) -> usize
        requires { (base ≤ 4563) × (sender < self.settings.n) × Among self.settings.n receiver leader }
        ensures { let n = self.entry.settings.n in
            (result ≡ place_from base n sender receiver leader) × (result < base + n * n * n) }
    {
        let n = self.settings.n;
        base + ((sender * n + receiver) * n + leader)
    }

    // What a box with this list hears from j: nothing where j is listed, the table's row where j is faulty, else j's
    // own.
    fn hear(self, list: u16, j: usize, place: usize, own: u64) -> u64
        requires { place < length self.table.now }
        ensures { result ≡ hears list j (sends self.entry.settings.faulty self.entry.table.now j place own) }
    {
        if sizes::is_member(list, j) {
            return 0;
        }
        if sizes::is_member(self.settings.faulty, j) {
            return self.table[place];
        }
        own
    }

    // Step 1 for box i: V, which a sound box sends in step 2. A faulty box's cells stay 0.
    fn step1_box(self, i: usize, out: &mut [u64; 169])
        requires { i < self.settings.n }
        ensures { PutTo self.entry.settings.n i self.entry.settings.n (firsts self.entry i) out.old out.new }
    {
        if sizes::is_member(self.settings.faulty, i) {
            return;
        }
        let n = self.settings.n;
        let list = self.lists[i];
        for k in 0..n {
            let place = self.place_of_first(k, i);
            out[i * n + k] = self.hear(list, k, place, self.rows[k]);
        }
    }

    // Step 1: V of every sound box, put to cells that are 0.
    // Stays: that the cells are 0, and later what they hold, is a clause of each step, since arrays are lent to be
    // filled (docs/DECISIONS.md, "Code": one that is returned is copied), and a fact beside a `&mut` has to be
    // shown at each cell that is put.
    fn step1(self, out: &mut [u64; 169])
        requires { out.old ≡ replicate 169 0 }
        ensures { IsSecond self.entry out.new }
    {
        for i in 0..self.settings.n {
            self.step1_box(i, out);
        }
    }

    // What box j says about every leader, put down as it is.
    fn hear_plain_from(self, said: &[u64; 169], j: usize, heard: &mut [u64; 169])
        requires { j < self.settings.n }
        ensures { FromSender self.entry.settings.n j self.entry.settings.n
            (λ k. said_by self.entry.settings.n said.now k j) heard.old heard.new }
    {
        let n = self.settings.n;
        for k in 0..n {
            heard[k * n + j] = said[j * n + k];
        }
    }

    // What all boxes say about all leaders, a column for each leader. It is put down once for all boxes: from most
    // senders they all hear this.
    fn hear_plain(self, said: &[u64; 169], heard: &mut [u64; 169])
        ensures { let n = self.entry.settings.n in SendersTo n n (said_by n said.now) heard.new }
    {
        for j in 0..self.settings.n {
            self.hear_plain_from(said, j, heard);
        }
    }

    // Leader k's column.
    // Stays: k below n is a clause here and in the vote and the grade that call this; a struct around an index would
    // be made anew for each leader and used at once.
    fn column(self, heard: &[u64; 169], k: usize) -> &[u64]
        requires { k < self.settings.n }
        ensures { result.now ≡ column_of self.entry.settings.n heard.now k }
    {
        let n = self.settings.n;
        let from = k * n;
        let end = from + n;
        &heard[from..end]
    }

    // The vote over leader k's column, where k must be counted; else what the box itself said about k.
    fn vote_on(self, own: u64, heard: &[u64; 169], k: usize) -> u64
        requires { k < self.settings.n }
        ensures { result ≡ on_leader (member self.entry.asked k) self.entry.settings vote_of own
            heard.now k }
    {
        if sizes::is_member(self.asked, k) {
            return tally::vote(self.column(heard, k), self.settings.t).row;
        }
        own
    }

    // Steps 2 and 3: Y of every sound box, put to cells that are 0.
    // Stays: a function beside `step4`, and so in Seat, since a vote puts one number for each leader and a grade two,
    // by other clauses; and a literal for the seat, of which a call would have to say every field again.
    fn step3(self, second: &[u64; 169], heard: &mut [u64; 169], out: &mut [u64; 169])
        requires { IsSecond self second.now × (out.old ≡ replicate 169 0) }
        ensures { IsThird self.entry out.new }
    {
        let n = self.settings.n;
        let base = n * n;
        self.hear_plain(second, heard);
        for i in 0..n {
            let seat = Seat {
                hall: self,
                i,
                list: self.lists[i],
                base,
                said: second,
            };
            seat.step3(heard, out);
        }
    }

    // Must a box that said this about leader k count it?
    fn must_count(self, own: u64, k: usize) -> bool
        ensures { result ≡ must_count self.entry own k }
    {
        let silent = own == 0;
        if silent {
            return true;
        }
        sizes::is_member(self.asked, k)
    }

    // Row and support over leader k's column, where k must be counted. Else all sound boxes say what the box said
    // itself, and besides those only the faulty ones that echo it.
    // Stays: no one function with vote_on, since what is counted and what is found with no counting both differ; what
    // they share is `column`.
    fn grade_on(self, own: u64, echoes: u8, heard: &[u64; 169], k: usize) -> Found
        requires { (k < self.settings.n) × (echoes ≤ 13) }
        ensures { let to_count = must_count self.entry own k in
            (result.row ≡ on_leader to_count self.entry.settings graded_row own heard.now k) ×
            (result.support ≡ on_leader to_count self.entry.settings (λ t. support_of) (self.entry.many + echoes)
            heard.now k) }
    {
        if self.must_count(own, k) {
            let graded = tally::grade(self.column(heard, k), self.settings.t);
            return Found {
                row: graded.row,
                support: graded.support,
            };
        }
        let support = self.many + echoes;
        Found { row: own, support }
    }

    // Step 4: what every sound box makes of every leader, put to cells that are 0.
    fn step4(self, third: &[u64; 169], heard: &mut [u64; 169], out: &mut Findings)
        requires { IsThird self third.now × (out.old.rows ≡ replicate 169 0) ×
            (out.old.supports ≡ replicate 169 0) }
        ensures { (out.new.rows ≡ cells self.entry.settings.n (rows_found self.entry)) ×
            (out.new.supports ≡ cells self.entry.settings.n (supports_found self.entry)) }
    {
        let n = self.settings.n;
        let base = n * n + n * n * n;
        self.hear_plain(third, heard);
        for i in 0..n {
            let seat = Seat {
                hall: self,
                i,
                list: self.lists[i],
                base,
                said: third,
            };
            seat.step4(heard, out);
        }
    }

    // How many sound boxes send a row in step 1.
    // Stays: no one function with sent_in, which would take the test as a closure and say less plainly that only sound
    // boxes count here; and an index, since over a part of the rows it would have to be shown how long that part is.
    fn sent_in_step1(self) -> usize
        ensures { (result ≡ count self.entry.settings.n
            (sends_first self.entry.settings.faulty self.entry.rows.now)) × (result ≤ self.entry.settings.n) }
    {
        let rows = self.rows;
        let mut sent: usize = 0;
        for j in 0..self.settings.n {
            if !sizes::is_member(self.settings.faulty, j) && is_row(rows[j]) {
                sent += 1;
            }
        }
        sent
    }

    // The messages of steps 1 to 3, from the rows and what the sound boxes send in steps 2 and 3: each goes to the
    // n - 1 other boxes.
    fn messages_of(self, second: &[u64; 169], third: &[u64; 169]) -> u64
        requires { IsSecond self second.now × IsThird self third.now }
        ensures { result ≡ messages self.entry.settings.n self.entry.settings.t self.entry.settings.faulty
            self.entry.rows.now self.entry.lists.now self.entry.table.now }
    {
        let n = self.settings.n;
        let size = n * n;
        let boxes = self.sent_in_step1() + sent_in(&second[..size]) + sent_in(&third[..size]);
        ((n - 1) * boxes) as u64
    }

    // The confidences that the supports give.
    // Stays: an index over both arrays, since `zip` would need both cut to size, and gives nothing back for it.
    fn confidences_of(self, supports: &[u8; 169]) -> [u8; 169]
        ensures { Confidences self.entry.settings supports.now result }
    {
        let size = self.settings.n * self.settings.n;
        let mut out = [0u8; 169];
        for p in 0..size {
            out[p] = tally::confidence_at(supports[p], self.settings.t);
        }
        out
    }

    // Steps 1 to 4 for every box.
    pub(crate) fn all_steps(self) -> Cast
        ensures { result ≡ cast_of self.entry.settings.n self.entry.settings.t self.entry.settings.faulty
            self.entry.rows.now self.entry.lists.now self.entry.table.now }
    {
        let mut second = [0u64; 169];
        self.step1(&mut second);
        let mut heard = [0u64; 169];
        let mut third = [0u64; 169];
        self.step3(&second, &mut heard, &mut third);
        let sent = self.messages_of(&second, &third);
        let mut found = Findings {
            rows: [0; 169],
            supports: [0; 169],
        };
        self.step4(&third, &mut heard, &mut found);
        let Findings { rows, supports } = found;
        Cast {
            refusal: 0,
            sent,
            rows,
            confidences: self.confidences_of(&supports),
            supports,
        }
    }
}

impl Seat<'_> {
    ghost use Rattle.gradecast.specs.Seats.{
      votes,
      rows_found,
      supports_found,
      Alike,
      heard_by,
      AllHeardBy,
      said_here,
      PutBy,
      vote_by,
      row_by,
      support_by,
      Echoed,
      InStep2,
      InStep3,
    };

    // What it hears from box j about leader k.
    fn hear_about(self, j: usize, k: usize) -> u64
        requires { Among self.hall.settings.n j k }
        ensures { result ≡ heard_by self.entry k j }
    {
        let n = self.hall.settings.n;
        let place = self.hall.place_from(self.base, j, self.i, k);
        self.hall.hear(self.list, j, place, self.said[j * n + k])
    }

    // What it hears from box j about every leader. Whether j is listed or faulty does not change from leader to
    // leader, so the leaders are gone through inside. In a step that COUNTS there is one more for each leader about
    // whom j says what the box said itself.
    fn hear_from<const COUNTS: bool>(self, j: usize, heard: &mut [u64; 169], echoes: &mut [u8; 13])
        requires { (j < self.hall.settings.n) ×
            (COUNTS ≡ true → AtMost self.hall.settings.n echoes.old) }
        ensures from_sender { FromSender self.entry.hall.settings.n j self.entry.hall.settings.n
            (λ k. heard_by self.entry k j) heard.old heard.new }
        ensures echoes_after { COUNTS ≡ true → echoes.new ≡ front self.entry.hall.settings.n
            (one_more (said_here self.entry) (heard_by self.entry) echoes.old j) echoes.old }
    {
        let n = self.hall.settings.n;
        let i = self.i;
        for k in 0..n {
            let row = self.hear_about(j, k);
            heard[k * n + j] = row;
            if COUNTS {
                echoes[k] += u8::from(row == self.said[i * n + k]);
            }
        }
    }

    // What it hears from all boxes about all leaders, a column for each leader, and in a step that COUNTS how often
    // what it said about each leader is echoed by those that are gone through. What the senders say that are neither
    // faulty nor listed is there already, and stays for the next box; only the other senders are gone through.
    // Stays: Alike is a clause here and in the two steps, and no ghost field beside the cells: they are lent, and a
    // fact beside a `&mut` has to be shown at each cell that is put.
    fn hear<const COUNTS: bool>(self, heard: &mut [u64; 169], echoes: &mut [u8; 13])
        requires { Alike self heard.old × (echoes.old ≡ replicate 13 0) }
        ensures all_heard { AllHeardBy self.entry heard.new }
        ensures alike { Alike self.entry heard.new }
        ensures echoes_after { COUNTS ≡ true → Echoed self.entry echoes.new }
    {
        for j in 0..self.hall.settings.n {
            if sizes::is_member(self.hall.odd, j) {
                self.hear_from::<COUNTS>(j, heard, echoes);
            }
        }
    }

    // The votes, from what it said in step 2 and the columns that it heard.
    fn put_votes(self, heard: &[u64; 169], out: &mut [u64; 169])
        ensures { PutBy self.entry (vote_by self.entry heard.now) out.old out.new }
    {
        let n = self.hall.settings.n;
        let i = self.i;
        for k in 0..n {
            let place = i * n + k;
            out[place] = self.hall.vote_on(self.said[place], heard, k);
        }
    }

    // Steps 2 and 3: Y, which a sound box sends in step 3, from the V of all boxes. A faulty box's cells stay 0.
    fn step3(self, heard: &mut [u64; 169], out: &mut [u64; 169])
        requires { InStep2 self × Alike self heard.old }
        ensures put_votes { PutBy self.entry (votes self.entry.hall self.entry.i) out.old out.new }
        ensures alike { Alike self.entry heard.new }
    {
        if sizes::is_member(self.hall.settings.faulty, self.i) {
            return;
        }
        let mut none = [0u8; 13];
        self.hear::<false>(heard, &mut none);
        self.put_votes(heard, out);
    }

    // Rows and supports, from what it said in step 3, the columns that it heard and how often each leader's row was
    // echoed.
    fn put_grades(self, heard: &[u64; 169], echoes: &[u8; 13], out: &mut Findings)
        requires { AtMost self.hall.settings.n echoes.now }
        ensures put_rows { PutBy self.entry (row_by self.entry heard.now) out.old.rows out.new.rows }
        ensures put_supports { PutBy self.entry (λ k. support_by self.entry heard.now k echoes.now)
            out.old.supports out.new.supports }
    {
        let n = self.hall.settings.n;
        let i = self.i;
        for k in 0..n {
            let place = i * n + k;
            let found = self.hall.grade_on(self.said[place], echoes[k], heard, k);
            out.rows[place] = found.row;
            out.supports[place] = found.support;
        }
    }

    // Step 4, from the Y of all boxes. A faulty box's cells stay 0.
    fn step4(self, heard: &mut [u64; 169], out: &mut Findings)
        requires { InStep3 self × Alike self heard.old }
        ensures put_rows { PutBy self.entry (rows_found self.entry.hall self.entry.i) out.old.rows out.new.rows }
        ensures put_supports { PutBy self.entry (supports_found self.entry.hall self.entry.i)
            out.old.supports out.new.supports }
        ensures alike { Alike self.entry heard.new }
    {
        if sizes::is_member(self.hall.settings.faulty, self.i) {
            return;
        }
        let mut echoes = [0u8; 13];
        self.hear::<true>(heard, &mut echoes);
        self.put_grades(heard, &echoes, out);
    }
}
