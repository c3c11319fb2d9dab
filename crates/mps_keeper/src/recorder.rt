//! What records lines, and callers whose commands can be recorded.
ghost use Rattle.std.specs.Prelude.{◌≡◌, ◌∷◌, ℕ, Bool, true, false, List, [], Option};
ghost use Rattle.mps_keeper.specs.Books.{Sealed, TookMore, TookSealed, bytes_of};

use mps_base::Role;
use mps_room::Caller;

/// What records lines: in a sink, in a file that connections share, or nowhere.
pub trait Recorder {
    // Whether it records any.
    ghost records: { Self → Bool };

    // What it took, where that is known.
    ghost taken: { Self → Option Sealed };

    // Whether nothing was lost.
    ghost whole: { Self → Bool };

    // Where it records.
    ghost Place: { Type 0 };

    ghost place: { Self → Place };

    /// Whether it records any lines at all.
    fn records(&self) -> bool
        ensures { result ≡ records self.now };

    /// Whether nothing was lost.
    fn is_whole(&self) -> bool
        ensures { result ≡ whole self.now };

    /// Records the line of the journal's nth entry, from 1, with its seal and an LF, which it may write at the line's end.
    /// Once lines were lost nothing more is taken. That it is recorded after those of the entries before it no clause says.
    fn add(&mut self, nth: u64, line: &mut Vec<u8>)
        ensures same { records self.new ≡ records self.old }
        ensures place { place self.new ≡ place self.old }
        ensures once { whole self.new ≡ true → whole self.old ≡ true }
        ensures added { whole self.new ≡ true → TookSealed (taken self.old) (line.old.items ∷ []) (taken self.new) }
        ensures over { whole self.old ≡ false → TookSealed (taken self.old) [] (taken self.new) }
        ensures more { TookMore (bytes_of (taken self.old)) (bytes_of (taken self.new)) };

    /// Waits until so many lines are recorded.
    fn settle(&mut self, lines: u64)
        ensures same { records self.new ≡ records self.old }
        ensures place { place self.new ≡ place self.old }
        ensures once { whole self.new ≡ true → whole self.old ≡ true }
        ensures settled { TookSealed (taken self.old) [] (taken self.new) }
        ensures more { TookMore (bytes_of (taken self.old)) (bytes_of (taken self.new)) };

    /// Gives up the line that is next, and so all after it.
    fn lose(&mut self)
        ensures same { records self.new ≡ records self.old }
        ensures place { place self.new ≡ place self.old }
        ensures lost { whole self.new ≡ false }
        ensures nothing { TookSealed (taken self.old) [] (taken self.new) }
        ensures more { TookMore (bytes_of (taken self.old)) (bytes_of (taken self.new)) };
}

/// A caller that knows its role, and how much of the journal its last call showed.
pub trait Recordable: Caller {
    // How many entries its last call showed.
    ghost seen: { Self → ℕ };

    /// Its role.
    fn own_role(&self) -> Role
        ensures { result ≡ Self.role self.now };

    /// How many entries its last call showed. Where that was accepted its own entry is the last of them, which no
    /// clause says.
    fn seen(&self) -> u64
        ensures { result ≡ seen self.now };
}
