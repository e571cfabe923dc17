// The reading of a line of a day.
ghost use Rattle.std.specs.Prelude.{◌≡◌};
ghost use Rattle.day_lines.specs.Grammar.{day_line};
ghost use Rattle.day_lines.specs.Laws.{Placed, ReadsBack};
ghost use Rattle.day_lines.specs.Texts.{newline_cut};

use crate::fault::DayFault;
use crate::line::Line;
use crate::stage::Stage;

// What a line says, or its first fault.
pub fn read_line(stage: Stage, line: &[u8]) -> Result<Line, DayFault>
    ensures value { result ≡ day_line stage line.now }
    ensures placed { Placed line.now result }
    ensures read_back { ReadsBack }
{
    stage.place(line)
}

// The line without the newline that ends it, if one does.
pub fn without_newline(line: &[u8]) -> &[u8]
    ensures { result.now ≡ newline_cut line.now }
{
    let [content @ .., last] = line else {
        return line;
    };
    if *last == b'\n' { content } else { line }
}
