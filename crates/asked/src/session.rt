// What a line does that asks something: the sampler's call, and the answer's row.
ghost use Rattle.std.specs.Prelude.{◌≡◌, Some, None};
ghost use Rattle.std.specs.Io.KnownBytes.{Keeps};
ghost use Rattle.script.specs.declared.command.Question.TheVariants.{New, Sample, Look, State as Show, Save, Restore, Bytes};
ghost use Rattle.asked.specs.Answers.{malformed_text, refused_text, sample_text};
ghost use Rattle.de.specs.Answer.{plain_answer};
ghost use Rattle.asked.specs.Session.{file_after, Wrote, Obeyed};
ghost use Rattle.saved.specs.Save.{save_of};

use de::build::{DESamplerBuilder, new_state};
use de::sample::sample;
use distribution::{Distribution, ParamValue, Refusal};
use evolution::Setup;
use lines::Stop;
use lines::kept::Kept;
use lines::told::Told;
use printed::rows::{Best, Rows, Setting};
use printed::sink::Sink;
use printed::whole::Whole;
use saved::{FileRefusal, read, save};
use script::Question;
use slots::look;
use state::State;
use std::fmt::Write as _;
use std::io::Write;

// There is a state once an accepted `new` or a taken `restore` came, and no refused `new` after it.
#[derive(Drop)]
pub struct Session<W: Write> {
    pub state: Option<State>,
    pub sink: Sink<W>,
}

// The kept file has the length that was saved; a refused save leaves it.
fn save_to(state: &State, file: &mut Kept) -> Result<usize, FileRefusal>
    ensures value { result ≡ save_of state.now 81920 }
    ensures after { file.new ≡ file_after (Some state.now) Save file.old }
{
    let length = save(state, &mut file.items)?;
    file.length = length;
    Ok(length)
}

#[tactic(auto, using(printed::proofs::Appending::appended))]
impl<W: Write> Session<W> {
    pub fn new(to: W) -> Self
        ensures state { result.state ≡ None }
        ensures sink { Keeps (W.contents to) result.sink.written }
    {
        Session {
            state: None,
            sink: Sink::new(to),
        }
    }

    // The row of a line that breaks the rules.
    pub fn malformed(&mut self, line: u64) -> Result<(), Stop>
        ensures { Wrote self.old (malformed_text line) self.new result }
    {
        writeln!(self.sink, "malformed {line}")?;
        Ok(())
    }

    fn refused(&mut self, number: u64) -> Result<(), Stop>
        ensures { Wrote self.old (refused_text number) self.new result }
    {
        writeln!(self.sink, "refused {number}")?;
        Ok(())
    }

    // A sample call's answer.
    fn answer(&mut self, answer: Result<ParamValue, Refusal>, draws: u64) -> Result<(), Stop>
        ensures { Wrote self.old (sample_text (plain_answer answer) draws) self.new result }
    {
        match answer {
            Ok(setting) => {
                let setting = Setting(setting);
                writeln!(self.sink, "{setting} {draws}")?;
                Ok(())
            }
            Err(why) => self.refused(why.number()),
        }
    }

    // A set-up empties the history, a refused one too.
    fn start(&mut self, setup: Setup, told: &mut Told) -> Result<(), Stop>
        ensures { Obeyed self.old told.old (New setup) self.new told.new result }
    {
        told.history.clear();
        let builder = DESamplerBuilder { setup };
        match builder.build() {
            Ok(accepted) => {
                self.state = Some(new_state(accepted));
                writeln!(self.sink, "new")?;
                Ok(())
            }
            Err(why) => {
                self.state = None;
                self.refused(why.number())
            }
        }
    }

    // A sample line, where there is a state.
    fn sample(&mut self, number: u64, distribution: Distribution, told: &Told) -> Result<(), Stop>
        ensures { Obeyed self.old told.now (Sample number distribution) self.new told.now result }
    {
        let state = self.state.as_mut().ok_or(Stop::Malformed)?;
        let sampled = sample(*state, distribution, number, told.history.as_slice());
        *state = sampled.state;
        self.answer(sampled.answer, sampled.draws)
    }

    // A look line, where there is a state. `told` is lent to each of these, read or not: one clause, `Obeyed`, speaks of both.
    fn look(&mut self, told: &Told) -> Result<(), Stop>
        ensures { Obeyed self.old told.now Look self.new told.now result }
    {
        let state = self.state.as_ref().ok_or(Stop::Malformed)?;
        let looked = look(state);
        match looked.look {
            Ok(Some(best)) => {
                let row = Best(best, &looked);
                writeln!(self.sink, "{row}")?;
                Ok(())
            }
            Ok(None) => {
                writeln!(self.sink, "look -")?;
                Ok(())
            }
            Err(why) => self.refused(why.number()),
        }
    }

    // A state line, where there is a state.
    fn show(&mut self, told: &Told) -> Result<(), Stop>
        ensures { Obeyed self.old told.now Show self.new told.now result }
    {
        let state = self.state.as_ref().ok_or(Stop::Malformed)?;
        let whole = Whole(state);
        write!(self.sink, "{whole}")?;
        Ok(())
    }

    // A save line, where there is a state.
    fn save(&mut self, told: &mut Told) -> Result<(), Stop>
        ensures { Obeyed self.old told.old Save self.new told.new result }
    {
        let state = self.state.as_ref().ok_or(Stop::Malformed)?;
        match save_to(state, &mut told.file) {
            Ok(length) => {
                writeln!(self.sink, "saved {length}")?;
                Ok(())
            }
            Err(why) => self.refused(why.number()),
        }
    }

    // A restore line, whether there is a state or not: there is one once a file is taken.
    fn restore(&mut self, told: &Told) -> Result<(), Stop>
        ensures { Obeyed self.old told.now Restore self.new told.now result }
    {
        match read(told.file.as_slice()) {
            Ok(state) => {
                self.state = Some(state);
                writeln!(self.sink, "restored")?;
                Ok(())
            }
            Err(why) => self.refused(why.number()),
        }
    }

    // A bytes line.
    fn bytes(&mut self, told: &Told) -> Result<(), Stop>
        ensures { Obeyed self.old told.now Bytes self.new told.now result }
    {
        let rows = Rows(told.file.as_slice());
        write!(self.sink, "{rows}")?;
        Ok(())
    }

    // A line that is not settled by the history and the kept file alone.
    pub fn obey(&mut self, question: Question, told: &mut Told) -> Result<(), Stop>
        ensures { Obeyed self.old told.old question self.new told.new result }
    {
        match question {
            Question::New(setup) => self.start(setup, told),
            Question::Sample {
                number,
                distribution,
            } => self.sample(number, distribution, told),
            Question::Look => self.look(told),
            Question::State => self.show(told),
            Question::Save => self.save(told),
            Question::Restore => self.restore(told),
            Question::Bytes => self.bytes(told),
        }
    }
}
