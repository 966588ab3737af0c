//! What the advisor says of a script.
ghost use Rattle.std.specs.Prelude.{◌≡◌};
ghost use Rattle.expert_report.specs.Reports as meant;

use expert_advice::{CandidateLines, Numbers, PlannedStatement};
use sql_value::{Bytes, Items};

/// A script: texts of statements, each of which is cut by itself.
pub type Script = Items<Bytes>;

/// What became of a statement.
#[derive(Drop)]
pub enum StatementOutcome {
    /// It has a plan.
    Planned(PlannedStatement),
    /// Why it is refused.
    Refused(Bytes),
}

/// What is told of a statement.
#[derive(Drop)]
pub struct StatementReport {
    /// The statement, from its first to its last token.
    pub text: Bytes,
    pub outcome: StatementOutcome,
}

/// What is told of a script's statements, in order.
pub type StatementReports = Items<StatementReport>;

/// What the advisor says of a script over a dump.
#[derive(Drop)]
pub struct Report {
    /// How many tables were read.
    pub tables: u32,
    /// How many aren't read.
    pub unread: u32,
    /// How many statements of the dump were passed over.
    pub statements_passed: u64,
    /// How many of its rows were.
    pub rows_passed: u64,
    /// The indexes that were tried, by their numbers.
    pub candidates: CandidateLines,
    pub statements: StatementReports,
    /// The numbers of the candidates that some plan uses, rising.
    pub recommended: Numbers,
}

impl StatementOutcome {
    /// Whether the statement is refused.
    pub fn is_refused(&self) -> bool
        ensures { result ≡ meant.is_refused self.now }
    {
        match self {
            StatementOutcome::Planned(_) => false,
            StatementOutcome::Refused(_) => true,
        }
    }
}

impl Report {
    /// Whether some statement is refused.
    pub fn refuses_some(&self) -> bool
        ensures { result ≡ meant.refuses_some self.now }
    {
        self.statements
            .as_slice()
            .iter()
            .any(|statement| statement.outcome.is_refused())
    }
}
