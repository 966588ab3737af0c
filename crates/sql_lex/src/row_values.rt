//! Commas in parentheses that aren't the list of an IN.
ghost use Rattle.std.specs.Prelude.{◌≡◌, ◌<◌, ◌≤◌, ◌+◌, ◌^◌, length, map, max, slice_index_or};
ghost use Rattle.sql_tokens.specs.Terminals.{terminal_of};
ghost use Rattle.sql_lex.specs.Rows.{State, step_of, next_state, finds, row_in, Follows};
ghost use Rattle.sql_lex.specs.Rows.{depth_behind, deepest_of, row_steps, has_row_value};

use crate::looks::{is_keyword, is_symbol};
use sql_tokens::{Symbol, Terminal, Token, terminal_at};
use sql_value::Keyword;

/// What a token is to the parentheses.
#[derive(Clone, Copy)]
enum RowStep {
    Open,
    Close,
    Comma,
    In,
    Other,
}

/// How many open parentheses a window knows: more than any script nests but one made for it, and
/// little to set up for each statement.
const ROOM: usize = 16_384;

/// What is known of the open parentheses from number `base` on, counted from outside, of which
/// there is room for so many: whether each stands directly behind IN.
#[derive(Drop)]
struct Window {
    base: usize,
    behind_in: [bool; ROOM],
    depth: usize,
    after_in: bool,
}

#[tactic(auto, unfolding(crate::specs::Rows::step_of))]
fn step_of(terminal: Terminal) -> RowStep
    ensures { result ≡ step_of terminal }
{
    let there = Some(terminal);
    if is_symbol(Symbol::OpenParenthesis, there) {
        RowStep::Open
    } else if is_symbol(Symbol::CloseParenthesis, there) {
        RowStep::Close
    } else if is_symbol(Symbol::Comma, there) {
        RowStep::Comma
    } else if is_keyword(Keyword::In, there) {
        RowStep::In
    } else {
        RowStep::Other
    }
}

/// The step of the token at a place.
fn step_at(text: &[u8], tokens: &[Token], place: usize) -> RowStep
    requires { place < length tokens.now }
    ensures { result ≡ slice_index_or (row_steps text.now tokens.now) place RowStep.Open }
{
    step_of(terminal_at(text, tokens[place]))
}

fn take_open(window: &mut Window)
    requires { window.old.depth < 2 ^ 62 }
    ensures same { window.new.base ≡ window.old.base }
    ensures depth { window.new.depth ≤ window.old.depth + 1 }
    ensures follows { (s : State) → Follows window.old s
        → Follows window.new (next_state RowStep.Open s) }
{
    let level = window.depth;
    window.depth += 1;
    if window.base <= level && level - window.base < ROOM {
        window.behind_in[level - window.base] = window.after_in;
        window.after_in = false;
        return;
    }
    window.after_in = false;
}

fn take_close(window: &mut Window)
    ensures same { window.new.base ≡ window.old.base }
    ensures depth { window.new.depth ≤ window.old.depth + 1 }
    ensures follows { (s : State) → Follows window.old s
        → Follows window.new (next_state RowStep.Close s) }
{
    window.after_in = false;
    if window.depth == 0 {
        return;
    }
    window.depth -= 1;
}

/// The window behind a token.
fn take_step(window: &mut Window, step: RowStep)
    requires { window.old.depth < 2 ^ 62 }
    ensures same { window.new.base ≡ window.old.base }
    ensures depth { window.new.depth ≤ window.old.depth + 1 }
    ensures follows { (s : State) → Follows window.old s → Follows window.new (next_state step s) }
{
    match step {
        RowStep::Open => take_open(window),
        RowStep::Close => take_close(window),
        RowStep::In => window.after_in = true,
        RowStep::Comma | RowStep::Other => window.after_in = false,
    }
}

/// Whether a token is a comma, and the innermost open parenthesis is one of the window's that
/// doesn't stand behind IN.
fn finds(window: &Window, step: RowStep) -> bool
    ensures { (s : State) → Follows window.now s → result ≡ finds window.now.base s step }
{
    match step {
        RowStep::Comma => {
            window.base < window.depth
                && window.depth - window.base <= ROOM
                && !window.behind_in[window.depth - 1 - window.base]
        }
        _ => false,
    }
}

/// Whether such a comma stands in a parenthesis from number `base` on, of those that the window has
/// room for.
fn row_in(base: usize, text: &[u8], tokens: &[Token]) -> bool
    requires { length tokens.now < 2 ^ 32 }
    ensures { result ≡ row_in base (row_steps text.now tokens.now) }
{
    let mut window = Window {
        base,
        behind_in: [false; ROOM],
        depth: 0,
        after_in: false,
    };
    for (number, _) in tokens.iter().enumerate() {
        let step = step_at(text, tokens, number);
        if finds(&window, step) {
            return true;
        }
        take_step(&mut window, step);
    }
    false
}

fn depth_behind(step: RowStep, depth: usize) -> usize
    requires { depth < 2 ^ 62 }
    ensures near { result ≤ depth + 1 }
    ensures same { result ≡ depth_behind step depth }
{
    match step {
        RowStep::Open => depth + 1,
        RowStep::Close => depth.saturating_sub(1),
        RowStep::Comma | RowStep::In | RowStep::Other => depth,
    }
}

fn greater(left: usize, right: usize) -> usize
    ensures { result ≡ max left right }
{
    if left < right { right } else { left }
}

/// The greatest number of open parentheses.
fn deepest(text: &[u8], tokens: &[Token]) -> usize
    requires { length tokens.now < 2 ^ 32 }
    ensures inside { result ≤ length tokens.now }
    ensures same { result ≡ deepest_of 0 (row_steps text.now tokens.now) }
{
    let mut depth = 0;
    let mut most = 0;
    for (number, _) in tokens.iter().enumerate() {
        depth = depth_behind(step_at(text, tokens, number), depth);
        most = greater(most, depth);
    }
    most
}

/// Whether a comma stands in parentheses of which the innermost doesn't stand directly behind IN.
/// One pass and one more for each window of nesting, since nothing is allocated.
pub(crate) fn has_row_value(text: &[u8], tokens: &[Token]) -> bool
    requires { length tokens.now < 2 ^ 32 }
    ensures { result ≡ has_row_value (map (terminal_of text.now) tokens.now) }
{
    let most = deepest(text, tokens);
    let mut base = 0;
    while base < most {
        if row_in(base, text, tokens) {
            return true;
        }
        base += ROOM;
    }
    false
}
