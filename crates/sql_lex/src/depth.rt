//! How deep a statement nests.
ghost use Rattle.std.specs.Prelude.{◌≡◌, ◌<◌, ◌≤◌, ◌+◌, nat_lt, length, [], ◌∷◌, slice_index_or};
ghost use Rattle.sql_lex.specs.Depth.{depth_step_of, depth_steps, next_levels, total, depth_of};
ghost use Rattle.sql_lex.specs.Depth.{IsBased, base_level, begins_anew, depth_limit};

use crate::looks::{is_keyword, is_keyword_among, is_symbol};
use sql_tokens::{Symbol, Terminal, Token, terminal_at};
use sql_value::Keyword;
use std::marker::Model;

/// What a token is to the depth.
#[derive(Clone, Copy)]
enum DepthStep {
    Open,
    Close,
    Deeper,
    Between,
    And,
    Reset,
    Other,
}

/// How deep a statement may nest.
const DEPTH_LIMIT: u32 = 200;

/// How many levels a statement within the limit has at most, and one more: each level below the
/// innermost has counted its parenthesis.
const MOST_LEVELS: usize = DEPTH_LIMIT as usize + 2;

/// What is counted inside one pair of parentheses, and whether a BETWEEN waits for its AND.
#[derive(Clone, Copy)]
pub(crate) struct Level {
    pub(crate) count: u32,
    pub(crate) waits: bool,
}

/// A stack of levels, the innermost first.
#[derive(Drop)]
struct Levels {
    levels: [Level; MOST_LEVELS],
    len: usize,
    sum: u32,
}

impl Model for Levels {
    ghost use Rattle.std.specs.Prelude.{◌≡◌, ◌≤◌, List};
    ghost use Rattle.sql_lex.specs.declared.depth.Level.{Level};
    ghost use Rattle.sql_lex.specs.declared.depth.TheConstants.{MOST_LEVELS};
    ghost use Rattle.sql_lex.specs.Depth.{stack_of, total};

    ghost Value = { List Level };

    ghost view = { λ s. stack_of s.levels s.len };

    ghost invariant = { λ s. (s.len ≤ MOST_LEVELS) × (s.sum ≡ total (stack_of s.levels s.len)) };
}

impl Levels {
    ghost use Rattle.std.specs.Prelude.{◌≡◌, ◌<◌, ◌≤◌, ◌+◌, ◌^◌, [], ◌∷◌, length, MatchOption};
    ghost use Rattle.sql_lex.specs.Depth.{total, base_level};

    fn new() -> Self
        ensures { result ≡ base_level ∷ [] }
    {
        Levels {
            levels: [Level {
                count: 0,
                waits: false,
            }; MOST_LEVELS],
            len: 1,
            sum: 0,
        }
    }

    fn sum(&self) -> u32
        ensures { result ≡ total self.now }
    {
        self.sum
    }

    fn pop(&mut self) -> Option<Level>
        ensures { MatchOption result ((self.old ≡ []) × (self.new ≡ []))
            (λ level. self.old ≡ level ∷ self.new) }
    {
        if self.len == 0 {
            return None;
        }
        let level = self.levels[self.len - 1];
        self.len -= 1;
        self.sum -= level.count;
        Some(level)
    }

    #[tactic(auto, using(crate::proofs::LevelStacks::stack_steps))]
    fn push(&mut self, level: Level)
        requires room { length self.old < MOST_LEVELS }
        requires small { total self.old + level.count < 2 ^ 32 }
        ensures { self.new ≡ level ∷ self.old }
    {
        self.levels[self.len] = level;
        self.len += 1;
        self.sum += level.count;
    }
}

#[tactic(auto, unfolding(crate::specs::Depth::depth_step_of))]
fn step_of(terminal: Terminal) -> DepthStep
    ensures { result ≡ depth_step_of terminal }
{
    let there = Some(terminal);
    if is_symbol(Symbol::OpenParenthesis, there) {
        DepthStep::Open
    } else if is_symbol(Symbol::CloseParenthesis, there) {
        DepthStep::Close
    } else if is_symbol(Symbol::Plus, there) || is_keyword(Keyword::Not, there) {
        DepthStep::Deeper
    } else if is_keyword(Keyword::Between, there) {
        DepthStep::Between
    } else if is_keyword(Keyword::And, there) {
        DepthStep::And
    } else if is_symbol(Symbol::Comma, there) || begins_anew(there) {
        DepthStep::Reset
    } else {
        DepthStep::Other
    }
}

#[tactic(auto, unfolding(crate::specs::Depth::begins_anew))]
fn begins_anew(there: Option<Terminal>) -> bool
    ensures { result ≡ begins_anew there }
{
    is_keyword_among(
        &[
            Keyword::Or,
            Keyword::Select,
            Keyword::From,
            Keyword::Where,
            Keyword::On,
            Keyword::By,
            Keyword::Set,
            Keyword::Limit,
            Keyword::Offset,
        ],
        there,
    )
}

/// The stack behind a token.
fn take_step(levels: &mut Levels, step: DepthStep)
    requires room { length levels.old < MOST_LEVELS }
    requires small { total levels.old < 1000 }
    requires based { IsBased levels.old }
    ensures { levels.new ≡ next_levels step levels.old }
{
    let Some(top) = levels.pop() else {
        return;
    };
    match step {
        DepthStep::Open => {
            levels.push(Level {
                count: top.count + 1,
                waits: top.waits,
            });
            levels.push(Level {
                count: 0,
                waits: false,
            });
        }
        DepthStep::Close => match levels.pop() {
            Some(below) => levels.push(Level {
                count: below.count - 1,
                waits: below.waits,
            }),
            None => levels.push(top),
        },
        DepthStep::Deeper => levels.push(Level {
            count: top.count + 1,
            waits: top.waits,
        }),
        DepthStep::Between => levels.push(Level {
            count: top.count,
            waits: true,
        }),
        DepthStep::And => levels.push(Level {
            count: if top.waits { top.count } else { 0 },
            waits: false,
        }),
        DepthStep::Reset => levels.push(Level {
            count: 0,
            waits: top.waits,
        }),
        DepthStep::Other => levels.push(top),
    }
}

/// The step of the token at a place.
fn step_at(text: &[u8], tokens: &[Token], place: usize) -> DepthStep
    requires { place < length tokens.now }
    ensures { result ≡ slice_index_or (depth_steps text.now tokens.now) place DepthStep.Open }
{
    step_of(terminal_at(text, tokens[place]))
}

/// Whether a statement nests deeper than the limit: so deep that its parts aren't taken apart. One
/// pass, and no memory.
///
/// <https://www.sqlite.org/limits.html#max_expr_depth> is SQLite's limit of this kind.
#[tactic(auto, unfolding(crate::specs::Depth::depth_of))]
pub fn too_deep(text: &[u8], tokens: &[Token]) -> bool
    ensures { result ≡ nat_lt depth_limit (depth_of text.now tokens.now) }
{
    let mut levels = Levels::new();
    for (number, _) in tokens.iter().enumerate() {
        take_step(&mut levels, step_at(text, tokens, number));
        if levels.sum() > DEPTH_LIMIT {
            return true;
        }
    }
    false
}
