//! The texts of candidates.
ghost use Rattle.std.specs.Prelude.{◌≡◌, ◌<◌, ◌≤◌, length, IfOk};
ghost use Rattle.expert_advice.specs.Lines as meant;

use schema_model::{Schema, print_create, schema_is_sound};
use sql_value::{Bytes, Items, Memory};
use stat_figures::{Figures, stat1_text};
use std::alloc::Global;

/// The texts of a candidate.
#[derive(Drop)]
pub struct CandidateLine {
    /// CREATE INDEX, without a semicolon.
    pub create: Bytes,
    /// What `sqlite_stat1` would have of it.
    pub stat: Bytes,
}

/// The texts of candidates, by their numbers.
pub type CandidateLines = Items<CandidateLine>;

fn line_of(
    alloc: Global,
    full: &Schema,
    figures: &Figures,
    number: u32,
) -> Result<CandidateLine, Memory>
    requires { number < length full.now.indexes }
    ensures { IfOk result (λ line. line ≡ meant.line_at full.now figures.now number) }
{
    schema_is_sound(full);
    Ok(CandidateLine {
        create: print_create(alloc, full, full.index(number))?,
        stat: stat1_text(alloc, figures, number)?,
    })
}

/// The texts of the candidates that stand behind so many indexes of a schema.
pub fn candidate_lines(
    alloc: Global,
    full: &Schema,
    figures: &Figures,
    own: u32,
) -> Result<CandidateLines, Memory>
    requires { own ≤ length full.now.indexes }
    ensures { IfOk result (λ lines. lines ≡ meant.candidate_lines full.now figures.now own) }
{
    let mut lines = Items::new(alloc);
    for number in own..full.index_count() {
        lines.push(line_of(alloc, full, figures, number)?)?;
    }
    Ok(lines)
}
