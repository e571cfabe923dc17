// Where in a day a line stands.
ghost use Rattle.std.specs.Prelude.{◌≡◌};
ghost use Rattle.day_lines.specs.Grammar.{admitted, day_line};

use crate::fault::DayFault;
use crate::grammar::read_text;
use crate::line::Line;

#[derive(Clone, Copy, PartialEq, Eq, Debug)]
pub enum Stage {
    // the first line
    Opening,
    PreCall,
}

impl Stage {
    // May the line stand here?
    fn admits(self, line: Line) -> bool
        ensures { result ≡ admitted self line }
    {
        match self {
            Stage::Opening => matches!(line, Line::Settings { .. }),
            Stage::PreCall => matches!(line, Line::Instruction(_)),
        }
    }

    // What a line at this stage says; that it is out of place is told only once its text is right.
    // It stands apart from the public call, whose further promises are of the answer as a whole.
    pub(crate) fn place(self, line: &[u8]) -> Result<Line, DayFault>
        ensures { result ≡ day_line self line.now }
    {
        let said = read_text(line)?;
        if self.admits(said) {
            Ok(said)
        } else {
            Err(DayFault::WrongPhase)
        }
    }
}
