// A day over a store.
ghost use Rattle.std.specs.Prelude.{◌≡◌, Some};
ghost use Rattle.orders.specs.Results.{seen};
ghost use Rattle.orders.specs.Told.{grid_of};
ghost use Rattle.engine.specs.PreCalls.{grid_under};
ghost use Rattle.day_lines.specs.Grammar.{day_line};
ghost use Rattle.day_lines.specs.declared.stage.Stage.TheVariants as stage;
ghost use Rattle.day.specs.Days.{state_of, opening, settled, opened_by, closing_answer};
ghost use Rattle.day.specs.Laws.{Stepped};
ghost use Rattle.day.specs.Steps.{Carried};

use crate::answer::Answer;
use crate::phase::Phase;
use book::Store;
use book::open::open_figure;
use day_lines::line::Line;
use day_lines::reading::read_line;
use day_lines::stage::Stage;
use engine::pre_call::PreCall;
use orders::refusal::Refusal;
use orders::settings::Settings;

// The settings that the first line names.
fn settings_of(line: &[u8]) -> Result<Settings, Answer>
    ensures { seen grid_of result ≡ settled (day_line stage.Opening line.now) }
{
    match read_line(Stage::Opening, line)? {
        Line::Settings { lot, tick_class } => Ok(Settings::new(lot, tick_class)?),
        Line::Instruction(_) => Err(Answer::Refused(Refusal::WrongPhase)),
    }
}

// Carries out a line in pre-call.
fn carry_out<S: Store>(pre_call: &PreCall, store: &mut S, line: &[u8]) -> Answer
    ensures { Carried (grid_under pre_call.now) (S.Store.room store.old) (day_line stage.PreCall line.now) (S.Book.orders store.old) result (S.Store.room store.new) (S.Book.orders store.new) }
{
    match read_line(Stage::PreCall, line) {
        Ok(Line::Instruction(instruction)) => pre_call.send(store, instruction).into(),
        Ok(Line::Settings { .. }) => Answer::Refused(Refusal::WrongPhase),
        Err(fault) => fault.into(),
    }
}

#[derive(Drop)]
pub struct Day<S> {
    store: S,
    phase: Phase,
}

impl<S: Store> Day<S> {
    // A day before its first line.
    pub fn new(store: S) -> Day<S>
        ensures store { result.store ≡ store }
        ensures phase { state_of result.phase ≡ opening }
    {
        Day {
            store,
            phase: Phase::Opening,
        }
    }

    // Carries out the first line.
    fn open(&mut self, line: &[u8]) -> Answer
        ensures value { Some result ≡ (opened_by (settled (day_line stage.Opening line.now)) (S.Book.orders self.old.store)).answer }
        ensures state { state_of self.new.phase ≡ (opened_by (settled (day_line stage.Opening line.now)) (S.Book.orders self.old.store)).state }
        ensures same { self.new.store ≡ self.old.store }
    {
        match settings_of(line) {
            Ok(settings) => {
                self.phase = Phase::PreCall(PreCall::new(settings));
                Answer::Ready
            }
            Err(answer) => {
                self.phase = Phase::Over;
                answer
            }
        }
    }

    // The answer to the next line; none once the day is over.
    pub fn line(&mut self, line: &[u8]) -> Option<Answer>
        ensures { Stepped (S.Store.room self.old.store) (state_of self.old.phase) (S.Book.orders self.old.store) line.now result (S.Store.room self.new.store) (state_of self.new.phase) (S.Book.orders self.new.store) }
    {
        match &self.phase {
            Phase::Opening => Some(self.open(line)),
            Phase::PreCall(pre_call) => Some(carry_out(pre_call, &mut self.store, line)),
            Phase::Over => None,
        }
    }

    // What is open at the end; none if the day was never opened.
    pub fn close(&self) -> Option<Answer>
        ensures { result ≡ closing_answer (state_of self.now.phase) (S.Book.orders self.now.store) }
    {
        match self.phase {
            Phase::PreCall(_) => Some(Answer::Open(open_figure(&self.store))),
            _ => None,
        }
    }
}
