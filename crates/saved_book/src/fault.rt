// What is wrong with a saved book, and what keeps one from being loaded.
ghost use Rattle.std.specs.Prelude.{◌≡◌, Some};
ghost use Rattle.saved_book.specs.Faults.{fault_number, saved_refusal, load_refusal};
ghost use Rattle.saved_book.specs.Texts.{fault_words, fault_text};
ghost use Rattle.saved_book.specs.declared.fault.LoadFault.TheVariants.{Saved};
ghost use Rattle.saved_book.specs.declared.fault.RecordFault.TheVariants.{Code, Refused};

use orders::refusal::Refusal;
use orders::terms::UnknownCode;
use std::fmt;

// What is wrong with a record.
#[derive(Clone, Copy, PartialEq, Eq, Debug)]
pub enum RecordFault {
    // no side or no kind has this code
    Code,
    // its order would be refused if it were entered behind those before it
    Refused(Refusal),
}

#[derive(Clone, Copy, PartialEq, Eq, Debug)]
pub enum SavedFault {
    // the count, the record size or the length
    Layout,
    // the first bad record, counted from 0
    Record { place: usize, fault: RecordFault },
}

#[derive(Clone, Copy, PartialEq, Eq, Debug)]
pub enum LoadFault {
    Saved(SavedFault),
    // the store is not empty, or its capacity is too small
    StoreUnfit,
}

impl RecordFault {
    // 0 for a code, and else the number of the refusal.
    pub fn number(self) -> u8
        ensures { result ≡ fault_number self }
    {
        match self {
            RecordFault::Code => 0,
            RecordFault::Refused(refusal) => refusal.number(),
        }
    }
}

impl SavedFault {
    // The refusal that it is told by, without the record and its fault.
    pub fn refusal(self) -> Refusal
        ensures { result ≡ saved_refusal self }
    {
        match self {
            SavedFault::Layout => Refusal::SavedLayout,
            SavedFault::Record { .. } => Refusal::SavedRecord,
        }
    }
}

impl LoadFault {
    // The refusal that it is told by.
    pub fn refusal(self) -> Refusal
        ensures { result ≡ load_refusal self }
    {
        match self {
            LoadFault::Saved(fault) => fault.refusal(),
            LoadFault::StoreUnfit => Refusal::StoreUnfit,
        }
    }
}

impl From<UnknownCode> for RecordFault {
    ghost from_gives = { λ _ fault. fault ≡ Code };

    fn from(_value: UnknownCode) -> RecordFault {
        Self::Code
    }
}

impl From<Refusal> for RecordFault {
    ghost from_gives = { λ refusal fault. fault ≡ Refused refusal };

    fn from(value: Refusal) -> RecordFault {
        RecordFault::Refused(value)
    }
}

impl From<SavedFault> for LoadFault {
    ghost from_gives = { λ fault raised. raised ≡ Saved fault };

    fn from(value: SavedFault) -> LoadFault {
        LoadFault::Saved(value)
    }
}

// The fault in words.
impl fmt::Display for RecordFault {
    ghost output = { λ f. Some (fault_words f) };

    fn fmt<W: fmt::Write>(&self, f: &mut fmt::Formatter<W>) -> fmt::Result {
        match *self {
            RecordFault::Code => write!(f, "no side or no kind has this code"),
            RecordFault::Refused(refusal) => write!(f, "{refusal}"),
        }
    }
}

// The refusal of the fault by its number, and what is wrong.
impl fmt::Display for SavedFault {
    ghost output = { λ f. Some (fault_text f) };

    fn fmt<W: fmt::Write>(&self, f: &mut fmt::Formatter<W>) -> fmt::Result {
        let refusal = self.refusal();
        let number = refusal.number();
        match *self {
            SavedFault::Layout => write!(f, "refusal {number}: {refusal}"),
            SavedFault::Record { place, fault } => {
                let kind = fault.number();
                write!(f, "refusal {number}: record {place}, fault {kind}: {fault}")
            }
        }
    }
}
