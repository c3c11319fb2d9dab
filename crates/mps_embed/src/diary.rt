//! What records a room's commands, where something does.
ghost use Rattle.std.specs.Prelude.{◌≡◌, ◌<◌, ◌^◌, Bool, false, true, Option};
ghost use Rattle.mps_embed.specs.Diaries.{book_of, intact_of};
ghost use Rattle.std.specs.Option.{is_some, option_map};

use mps_dev::Sink;
use mps_keeper::{Book, Recorder};

/// A book that takes a room's accepted commands, or none.
#[derive(Drop)]
pub struct Diary<W: Sink> {
    book: Option<Book<W>>,
    // whether each line that came is there
    whole: bool,
}

impl<W: Sink> Diary<W> {
    /// A diary of that book, or of none.
    pub fn new(book: Option<Book<W>>) -> Diary<W>
        ensures book { book_of result ≡ book }
        ensures whole { intact_of result ≡ true }
    {
        Diary { book, whole: true }
    }

    /// The book.
    pub fn book(&self) -> Option<&Book<W>>
        ensures { option_map (λ b. b.now) result ≡ book_of self.now }
    {
        self.book.as_ref()
    }

    /// Takes no more lines.
    pub fn close(&mut self)
        ensures book { book_of self.new ≡ book_of self.old }
        ensures whole { intact_of self.new ≡ false }
    {
        self.whole = false;
    }
}

impl<W: Sink> Recorder for Diary<W> {
    ghost use Rattle.mps_embed.specs.Diaries.{records_of, taken_of, whole_of};

    ghost records = { records_of };

    ghost taken = { taken_of };

    ghost whole = { whole_of };

    ghost Place = { Unit {0} };

    ghost place = { λ _. tt };

    fn records(&self) -> bool {
        self.book.is_some()
    }

    fn is_whole(&self) -> bool {
        self.whole && self.book.as_ref().is_none_or(|book| book.is_whole())
    }

    fn add(&mut self, nth: u64, line: &mut Vec<u8>) {
        match &mut self.book {
            Some(book) if self.whole => book.add(nth, line),
            _ => {}
        }
    }

    fn settle(&mut self, _lines: u64) {}

    fn lose(&mut self) {
        self.close();
    }
}
