// What is wrong with a field, with a line, and with a line of a day. A place counts the bytes of the line from 1.
ghost use Rattle.std.specs.Prelude.{◌≡◌};
ghost use Rattle.day_lines.specs.Faults.{fault_at, place_of};
ghost use Rattle.day_lines.specs.declared.fault.DayFault.TheVariants.{Line};
ghost use Rattle.day_lines.specs.declared.fault.LineFault.TheVariants.{Field};

#[derive(Clone, Copy, PartialEq, Eq, Debug)]
pub enum Cause {
    // the line ends too early
    Missing,
    // another byte is wanted here
    Unexpected,
    // a number has too many digits or is too large
    TooLarge,
}

#[derive(Clone, Copy, PartialEq, Eq, Debug)]
pub struct FieldFault {
    pub cause: Cause,
    pub place: usize,
}

#[derive(Clone, Copy, PartialEq, Eq, Debug)]
pub enum LineFault {
    Field(FieldFault),
    // no line begins with this letter
    Letter { place: usize },
    // the line goes on after its last field
    Longer { place: usize },
}

#[derive(Clone, Copy, PartialEq, Eq, Debug)]
pub enum DayFault {
    Line(LineFault),
    // the line is well formed, and does not belong where it stands
    WrongPhase,
}

impl Cause {
    pub(crate) fn at(self, place: usize) -> FieldFault
        ensures { result ≡ fault_at self place }
    {
        FieldFault { cause: self, place }
    }
}

impl LineFault {
    // The place of the first wrong byte, or one past the end of a line that is too short.
    pub fn place(self) -> usize
        ensures { result ≡ place_of self }
    {
        match self {
            LineFault::Field(fault) => fault.place,
            LineFault::Letter { place } => place,
            LineFault::Longer { place } => place,
        }
    }
}

impl From<FieldFault> for LineFault {
    ghost from_gives = { λ fault raised. raised ≡ Field fault };

    fn from(value: FieldFault) -> LineFault {
        LineFault::Field(value)
    }
}

impl From<LineFault> for DayFault {
    ghost from_gives = { λ fault raised. raised ≡ Line fault };

    fn from(value: LineFault) -> DayFault {
        DayFault::Line(value)
    }
}
