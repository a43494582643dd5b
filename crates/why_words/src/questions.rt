// What is asked of a run.
ghost use Rattle.std.specs.Prelude.{◌≡◌, map, option_map, codes};
ghost use Rattle.run_words.specs.ArgumentsSeen.{argument_seen};
ghost use Rattle.run_words.specs.Words.{value_of};
ghost use Rattle.why_words.specs.Words.{a_violation, net_question, question_of};
ghost use Rattle.why_words.specs.WordsSeen.{question_seen};

use run_words::{Argument, time_within, value_of};

// Of a time.
const MOST_TIME_DIGITS: usize = 18;

/// What is asked of a run.
#[derive(Clone, Copy, Debug, PartialEq)]
pub enum Question<'a> {
    /// Why a net has the value that it has at a time, in ticks.
    Net { name: &'a str, time: u64 },
    /// Why there is the violation of this line of the report.
    Violation(&'a str),
}

fn net_question<'a>(name: &'a str, text: &str) -> Option<Question<'a>>
    ensures { option_map (λ q. question_seen q) result ≡ net_question name.now text.now }
{
    let time = time_within(MOST_TIME_DIGITS, text)?;
    Some(Question::Net { name, time })
}

fn violation_question<'a>(line: Option<&'a str>) -> Option<Question<'a>>
    ensures { option_map (λ q. question_seen q) result ≡ option_map a_violation (option_map (λ l. l.now) line.entry) }
{
    match line {
        Some(line) => Some(Question::Violation(line)),
        None => None,
    }
}

/// What is asked by the arguments: a net and a time, or a violation.
pub fn question_of<'a>(arguments: &[Argument<'a>]) -> Option<Question<'a>>
    ensures { option_map (λ q. question_seen q) result ≡ question_of (value_of (codes "net") (map argument_seen arguments.now)) (value_of (codes "at") (map argument_seen arguments.now)) (value_of (codes "violation") (map argument_seen arguments.now)) }
{
    let violation = value_of(arguments, "violation");
    match (value_of(arguments, "net"), value_of(arguments, "at")) {
        (Some(name), Some(text)) => {
            if violation.is_none() {
                net_question(name, text)
            } else {
                None
            }
        }
        (None, None) => violation_question(violation),
        _ => None,
    }
}
