// What the program does with a file, and the text that it prints.
#![tactic(auto)]

ghost use Rattle.std.specs.Prelude.{◌≡◌};
ghost use Rattle.text.specs.Meaning.{shown};
ghost use Rattle.arguments.specs.Answers.{answered, said};
ghost use Rattle.calls.specs.Offer.{offer_of};
ghost use Rattle.report.specs.Outcome.{selected, mapped, RoundWords, outcome_of, RoundsFit, text_of, Prints, result_of, outcome_told};

use calls::Chosen;
use reading::Refusal;
use text::{HORIZON, Page};

// What comes of a file that is accepted: a selection with the set aside, or how many rounds a plan has.
#[derive(Clone, Copy)]
pub enum Answer {
    Chosen(Chosen),
    Rounds(usize),
}

// What comes of a choice file.
fn chosen(file: &[u8]) -> Result<Answer, Refusal>
    ensures { outcome_told result ≡ mapped selected (said (offer_of file.now)) }
{
    let chosen = calls::offer(file)?;
    Ok(Answer::Chosen(chosen))
}

// What comes of a file, and the rounds of a plan in the words, whatever was there.
pub fn outcome(file: &[u8], words: &mut [u32; HORIZON]) -> Result<Answer, Refusal>
    ensures result_value { outcome_told result ≡ outcome_of file.now words.old }
    ensures round_words { RoundWords file.now words.old words.new }
{
    if !jobfile::is_fitting(file) {
        return chosen(file);
    }
    let rounds = calls::plan(file, words)?;
    Ok(Answer::Rounds(rounds))
}

// The text of what comes of a file that is accepted.
fn answer_text(answer: Answer, words: &[u32; HORIZON]) -> Page
    requires { RoundsFit (answered (result_of answer)) 16 }
    ensures { shown result ≡ text_of (answered (result_of answer)) words.now }
{
    match answer {
        Answer::Chosen(chosen) => text::chosen(chosen.selection.bits, chosen.aside.bits),
        Answer::Rounds(k) => text::rounds(k, words),
    }
}

// The text of an outcome.
fn text(outcome: Result<Answer, Refusal>, words: &[u32; HORIZON]) -> Page
    requires { RoundsFit (outcome_told outcome) 16 }
    ensures { shown result ≡ text_of (outcome_told outcome) words.now }
{
    match outcome {
        Ok(answer) => answer_text(answer, words),
        Err(refusal) => {
            let number = u32::from(refusal.reason);
            text::refused(number as u64, refusal.place as u64)
        }
    }
}

// What the program prints of a file.
pub fn report(file: &[u8]) -> Page
    ensures { Prints file.now (shown result) }
{
    let mut words = [0u32; HORIZON];
    let done = outcome(file, &mut words);
    text(done, &words)
}
