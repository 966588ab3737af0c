//! The words of the command line.
//!
//! Reading them takes no memory: the pieces of the script stay among the words, where they are
//! found again when the script is read.
ghost use Rattle.std.specs.Prelude.{◌≡◌, ◌≤◌, IfSome, option_map, codes};
ghost use Rattle.expert_main.specs.Seen.{completed, seen_command, seen_setting};
ghost use Rattle.expert_main.specs.Words as meant;
ghost use Rattle.expert_main.specs.Words.{IsFew};

use expert_io::Words;
use sql_value::{Bytes, read_digits};
use stat_figures::StatSource;

/// How many of a hundred rows are sampled where no word says so: all of them.
const ALL_ROWS: u8 = 100;

/// How many digits a percentage has, at most.
const PERCENT_DIGITS: usize = 3;

/// A piece of the script.
#[derive(Clone, Copy)]
pub enum Piece<'a> {
    /// A text.
    Sql(&'a [u8]),
    /// The name of the file that holds it.
    File(&'a [u8]),
}

/// What an option says with its value.
#[derive(Clone, Copy)]
pub enum Setting<'a> {
    /// A piece of the script.
    Script(Piece<'a>),
    /// How many of a hundred rows are sampled.
    Sample(u8),
    /// Where the figures come from.
    Stat(StatSource),
    /// Whether the report is the long one.
    Verbose(bool),
}

/// What the words ask for.
#[derive(Clone, Copy)]
pub struct Command<'a> {
    /// All words: the pieces of the script are among their pairs.
    pub words: &'a [Bytes],
    /// How many of a hundred rows are sampled.
    pub percent: u8,
    /// Where the figures come from.
    pub source: StatSource,
    /// Whether the report is the long one.
    pub verbose: bool,
    /// The file of the database.
    pub database: &'a [u8],
}

fn is_option(word: &[u8], one_dash: &[u8], two_dashes: &[u8]) -> bool
    ensures { result ≡ meant.is_option word.now one_dash.now two_dashes.now }
{
    word == one_dash || word == two_dashes
}

#[tactic(auto, using(crate::proofs::Spelled::percent_few))]
// The percentage that one to three digits write.
fn read_percent(value: &[u8]) -> Option<u8>
    ensures percent { result ≡ meant.percent_of value.now }
    ensures few { IfSome result (λ percent. percent ≤ 100) }
{
    if value.len() > PERCENT_DIGITS {
        return None;
    }
    match read_digits(ALL_ROWS as u64, value) {
        Some(percent) => Some(percent as u8),
        None => None,
    }
}

fn read_source(value: &[u8]) -> Option<StatSource>
    ensures { result ≡ meant.source_of value.now }
{
    if value == b"sampled".as_slice() {
        Some(StatSource::Sampled)
    } else if value == b"given".as_slice() {
        Some(StatSource::Given)
    } else {
        None
    }
}

fn read_verbose(value: &[u8]) -> Option<bool>
    ensures { result ≡ meant.verbose_of value.now }
{
    if value == b"1".as_slice() {
        Some(true)
    } else if value == b"0".as_slice() {
        Some(false)
    } else {
        None
    }
}

/// What an option says with its value, or none where there is no such option or value.
pub fn read_setting<'a>(option: &[u8], value: &'a [u8]) -> Option<Setting<'a>>
    ensures setting { option_map seen_setting result ≡ meant.setting_of option.now value.now }
    ensures few { IfSome result (λ setting. IsFew (seen_setting setting)) }
{
    if is_option(option, b"-sql", b"--sql") {
        Some(Setting::Script(Piece::Sql(value)))
    } else if is_option(option, b"-file", b"--file") {
        Some(Setting::Script(Piece::File(value)))
    } else if is_option(option, b"-sample", b"--sample") {
        Some(Setting::Sample(read_percent(value)?))
    } else if is_option(option, b"-stat", b"--stat") {
        Some(Setting::Stat(read_source(value)?))
    } else if is_option(option, b"-verbose", b"--verbose") {
        Some(Setting::Verbose(read_verbose(value)?))
    } else {
        None
    }
}

impl<'a> Command<'a> {
    // The command, but for what a setting says.
    fn with(self, setting: Setting<'a>) -> Command<'a>
        ensures few { self.entry.percent ≤ 100 → IsFew (seen_setting setting.entry)
            → result.percent ≤ 100 }
        ensures words { result.words.now ≡ self.entry.words.now }
        ensures counts { (behind : meant.Spelled) → completed result behind
            ≡ completed self.entry (meant.with_setting (seen_setting setting.entry) behind) }
    {
        match setting {
            Setting::Script(_) => self,
            Setting::Sample(percent) => Command { percent, ..self },
            Setting::Stat(source) => Command { source, ..self },
            Setting::Verbose(verbose) => Command { verbose, ..self },
        }
    }
}

#[tactic(auto, using(crate::proofs::Spelled::begun))]
/// The command that the words spell, or none.
pub fn read_words(words: &Words) -> Option<Command<'_>>
    ensures command { option_map seen_command result ≡ meant.command_of words.now }
    ensures few { IfSome result (λ command. command.percent ≤ 100) }
{
    let mut command = Command {
        words: words.as_slice(),
        percent: ALL_ROWS,
        source: StatSource::Sampled,
        verbose: false,
        database: b"",
    };
    let mut rest = words.as_slice();
    while let [option, value, behind @ ..] = rest {
        command = command.with(read_setting(option.as_slice(), value.as_slice())?);
        rest = behind;
    }
    match rest {
        [database] => Some(Command {
            database: database.as_slice(),
            ..command
        }),
        _ => None,
    }
}
