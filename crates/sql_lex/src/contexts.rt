//! The context of a place in a statement: what stands there and round it.
ghost use Rattle.std.specs.Prelude.{◌≡◌, None, map, slice_get};
ghost use Rattle.sql_tokens.specs.Terminals.{terminal_of};
ghost use Rattle.sql_lex.specs.Contexts.{context_of, context_behind};

use crate::looks::peek;
use sql_tokens::{Terminal, Token};

/// What stands first in the statement, directly before a place, at it, and at the four places
/// behind it.
#[derive(Clone, Copy)]
pub(crate) struct Context {
    pub(crate) first: Option<Terminal>,
    pub(crate) before: Option<Terminal>,
    pub(crate) here: Option<Terminal>,
    pub(crate) next: Option<Terminal>,
    pub(crate) second: Option<Terminal>,
    pub(crate) third: Option<Terminal>,
    pub(crate) fourth: Option<Terminal>,
}

/// The context of the first place of a statement.
pub(crate) fn first_context(text: &[u8], tokens: &[Token]) -> Context
    ensures { let seen = map (terminal_of text.now) tokens.now in
        result ≡ context_of (slice_get seen 0) None seen }
{
    let here = peek(text, tokens, 0);
    Context {
        first: here,
        before: None,
        here,
        next: peek(text, tokens, 1),
        second: peek(text, tokens, 2),
        third: peek(text, tokens, 3),
        fourth: peek(text, tokens, 4),
    }
}

/// The context of the place behind, where this comes into sight.
pub(crate) fn context_behind(context: Context, newest: Option<Terminal>) -> Context
    ensures { result ≡ context_behind context newest }
{
    Context {
        first: context.first,
        before: context.here,
        here: context.next,
        next: context.second,
        second: context.third,
        third: context.fourth,
        fourth: newest,
    }
}
