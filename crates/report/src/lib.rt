// What the bench prints: a chip is run on event bytes from an array of FFh, and the text is written on a lent page. A line takes at
// most 7 bytes, so that every text is at most 28,695 bytes long and has room on a page of 32,768.
#![tactic(auto)]

ghost use Rattle.std.specs.Prelude.{◌≡◌, ◌++◌, ◌+◌, ◌≤◌, ◌<◌, length, take, drop};
ghost use Rattle.refusals.specs.Refusals.{number_of};
ghost use Rattle.report.specs.Text.{put, glyph, width, numeral, event_line, lines_from, refused_text};
ghost use Rattle.parts.specs.Sector.{erased};
ghost use Rattle.report.specs.Report.{report_of, answer_text};
ghost use Rattle.report.specs.Page.{Puts};

use chip::chip::Chip;
use refusals::Refusal;

// The last decimal digit of a number: a remainder below 10, which the cast keeps.
fn glyph(n: usize) -> u8
    ensures { result ≡ glyph n }
{
    b'0' + (n % 10) as u8
}

// How many digits a number below 10,000 takes.
#[tactic(auto, unfolding(crate::specs::Text::width))]
fn width(n: usize) -> usize
    ensures { result ≡ width n }
{
    match n {
        0..=9 => 1,
        10..=99 => 2,
        100..=999 => 3,
        _ => 4,
    }
}

// An array of FFh.
fn erased() -> [u8; Chip::BYTES]
    ensures { result ≡ erased }
{
    [255; Chip::BYTES]
}

// A page, and where the text on it ends. Whole reports begin at its front: `answers`, `refused` and `report` ask for it, since only there a text is sure of room.
#[derive(Drop)]
struct Page<'a> {
    bytes: &'a mut [u8; 32768],
    end: usize,
}

impl Page<'_> {
    // Writes a text.
    fn text(&mut self, text: &[u8])
        requires { self.old.end + length text.now ≤ 32768 }
        ensures { Puts self.old self.new text.now }
    {
        let start = self.end;
        self.end += text.len();
        let bytes = &mut *self.bytes;
        bytes[start..self.end].copy_from_slice(text);
    }

    // Writes a number below 10,000. Notes and refusals are widened to it by a cast: a `From` keeps no more, and is one call more to answer for.
    fn number(&mut self, n: usize)
        requires { (self.old.end + 4 ≤ 32768) × (n < 10000) }
        ensures { Puts self.old self.new (numeral n) }
    {
        let digits = [glyph(n / 1000), glyph(n / 100), glyph(n / 10), glyph(n)];
        self.text(&digits[4 - width(n)..]);
    }

    // Writes the line of an event, none where its note is 0.
    fn event(&mut self, position: usize, answer: u8)
        requires { (self.old.end + 10 ≤ 32768) × (position < 10000) }
        ensures { Puts self.old self.new (event_line position answer) }
    {
        let note = answer / 2 % 8;
        if note != 0 {
            self.number(position);
            self.text(b" ");
            self.number(note as usize);
            self.text(b"\n");
        }
    }

    // Writes the lines of a row of answers.
    fn lines(&mut self, answers: &[u8])
        requires { (self.old.end ≤ 16) × (length answers.now ≤ 4096) }
        ensures { Puts self.old self.new (lines_from 0 answers.now) }
    {
        for (position, answer) in answers.iter().enumerate() {
            self.event(position, *answer);
        }
    }

    // Writes the heading, the lines of the answers and their count.
    fn answers(&mut self, answers: &[u8])
        requires { (self.old.end ≡ 0) × (length answers.now ≤ 4096) }
        ensures { Puts self.old self.new (answer_text answers.now) }
    {
        self.text(b"event note\n");
        self.lines(answers);
        self.number(answers.len());
        self.text(b" events\n");
    }

    // Writes a refusal.
    fn refused(&mut self, refusal: Refusal)
        requires { self.old.end ≡ 0 }
        ensures { Puts self.old self.new (refused_text (number_of refusal)) }
    {
        let digits = refusal.number() as usize;
        self.text(b"refused ");
        self.number(digits);
        self.text(b"\n");
    }

    // Writes what the bench prints for a chip and event bytes. The chip is used up: nothing of it is asked for afterwards.
    fn report(&mut self, chip: Chip, trace: &[u8])
        requires { self.old.end ≡ 0 }
        ensures { Puts self.old self.new (report_of chip trace.now) }
    {
        let long = 4096 < trace.len();
        if long {
            return self.refused(Refusal::TraceLength);
        }
        let mut run = chip;
        let mut array = erased();
        let mut answers = [0; 4096];
        match trace::run(&mut run, &mut array, trace, &mut answers) {
            Ok(()) => self.answers(&answers[..trace.len()]),
            Err(refusal) => self.refused(refusal),
        }
    }
}

// Writes what the bench prints for a chip and event bytes on a page, and answers its length. The rest of the page stays. The chip is used up.
pub fn write_report(chip: Chip, trace: &[u8], page: &mut [u8; 32768]) -> usize
    ensures value { result ≡ length (report_of chip trace.now) }
    ensures page_after { page.new ≡ report_of chip trace.now ++ drop (length (report_of chip trace.now)) page.old }
{
    let mut text = Page {
        bytes: page,
        end: 0,
    };
    text.report(chip, trace);
    text.end
}
