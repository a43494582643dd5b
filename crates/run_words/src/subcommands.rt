// The subcommands with options.
ghost use Rattle.std.specs.Prelude.{◌≡◌, map};
ghost use Rattle.run_words.specs.Words.{options_of, subcommand_of};

#[derive(Clone, Copy, Debug, PartialEq)]
pub enum Subcommand {
    Run,
    Resume,
    Annotate,
    Settle,
}

// In the order of the definition.
const RUN_OPTIONS: [&str; 11] = [
    "stim", "wave", "scope", "vcd", "stop", "save", "sdf", "top", "corner", "rounds", "wheel",
];

const RESUME_OPTIONS: [&str; 10] = [
    "state", "stim", "wave", "scope", "vcd", "sdf", "top", "corner", "rounds", "wheel",
];

const ANNOTATE_OPTIONS: [&str; 4] = ["out", "sdf", "top", "corner"];

const SETTLE_OPTIONS: [&str; 3] = ["sdf", "top", "corner"];

/// The names of a subcommand's options, without their dashes.
pub fn options_of(subcommand: Subcommand) -> &'static [&'static str]
    ensures { map (λ n. n.now) result.now ≡ options_of subcommand }
{
    match subcommand {
        Subcommand::Run => &RUN_OPTIONS,
        Subcommand::Resume => &RESUME_OPTIONS,
        Subcommand::Annotate => &ANNOTATE_OPTIONS,
        Subcommand::Settle => &SETTLE_OPTIONS,
    }
}

/// The subcommand of this name.
pub fn subcommand_of(word: &str) -> Option<Subcommand>
    ensures { result ≡ subcommand_of word.now }
{
    match word {
        "run" => Some(Subcommand::Run),
        "resume" => Some(Subcommand::Resume),
        "annotate" => Some(Subcommand::Annotate),
        "settle" => Some(Subcommand::Settle),
        _ => None,
    }
}
