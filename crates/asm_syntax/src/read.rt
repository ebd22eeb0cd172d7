ghost use Rattle.std.specs.Prelude.{◌≡◌, ◌∷◌, ℕ, Ok, MatchOption, MatchResult};
ghost use Rattle.text_lines.specs.Lines.{TextFaults};
ghost use Rattle.asm_syntax.specs.declared.lexeme.Lexeme.TheVariants as lexeme;
ghost use Rattle.asm_syntax.specs.Forms.{Adds};
ghost use Rattle.asm_syntax.specs.Lines.{parts_of_line, source_of, statement_parts};

use crate::arguments::arguments;
use crate::lexeme::{Lexeme, read_lexemes};
use crate::statement::statement;
use asm_source::{Content, Part, SourceName};
use std::alloc::Global;
use std::marker::Model;
use text_lines::{LineFault, LineFormat, TextFault, read_lines};
use xom_base::List;

/// Reads the labels and statements of a source, in their order, or answers the first line that is off
/// the grammar. It costs time linear in the text.
#[tactic(auto, unfolding(crate::specs::Lines::source_of))]
pub fn read_source(alloc: Global, text: &[u8]) -> Result<List<Part>, TextFault>
    ensures { MatchResult result (λ parts. source_of text.now ≡ Ok parts) (λ fault. TextFaults (source_of text.now) fault) }
{
    let mut source = Source {
        parts: List::new(alloc),
        lexemes: Vec::new(alloc),
    };
    let _lines = read_lines(alloc, text, &mut source)?;
    Ok(source.into_parts())
}

/// The labels and statements of the lines that were read. The lexemes are room that is used again for
/// each line.
#[derive(Drop)]
struct Source {
    parts: List<Part>,
    lexemes: Vec<Lexeme>,
}

impl Model for Source {
    ghost use Rattle.std.specs.Prelude.{List};
    ghost use Rattle.asm_source.specs.declared.content.Part.{Part};

    ghost Value = { List Part };

    ghost view = { λ source. source.parts };
}

impl Source {
    fn into_parts(self) -> List<Part>
        ensures { result ≡ self }
    {
        self.parts
    }
}

impl LineFormat for Source {
    ghost use Rattle.asm_syntax.specs.Lines.{source_step};

    type Item = ();

    ghost step = { source_step };

    #[tactic(auto, unfolding(crate::specs::Lines::line_parts))]
    fn read(&mut self, alloc: Global, number: u64, line: &[u8]) -> Result<Option<()>, LineFault> {
        read_lexemes(alloc, line, &mut self.lexemes)?;
        add_line(alloc, number, self.lexemes.as_slice(), &mut self.parts)?;
        Ok(None)
    }
}

/// Adds the labels and the statement of a line.
fn add_line(
    alloc: Global,
    number: u64,
    lexemes: &[Lexeme],
    parts: &mut List<Part>,
) -> Result<(), LineFault>
    ensures { Adds (parts_of_line number lexemes.now) parts.old result parts.new }
{
    let mut rest = lexemes;
    while let Some((label, more)) = first_label(rest) {
        let label = SourceName::from_slice(alloc, label)?;
        parts.push(Part {
            line: number,
            content: Content::Label(label),
        })?;
        rest = more;
    }
    add_last(alloc, number, rest, parts)
}

/// The label in front of a line, and what stands behind its colon.
#[tactic(auto, unfolding(crate::specs::Lines::parts_of_line))]
fn first_label(lexemes: &[Lexeme]) -> Option<(&[u8], &[Lexeme])>
    ensures { MatchOption result ((n : ℕ) → parts_of_line n lexemes.now ≡ statement_parts n lexemes.now) (λ found. lexemes.now ≡ lexeme.Name found.0.now ∷ lexeme.Colon ∷ found.1.now) }
{
    let [first, second, rest @ ..] = lexemes else {
        return None;
    };
    match (first, second) {
        (Lexeme::Name(label), Lexeme::Colon) => Some((label.as_slice(), rest)),
        _ => None,
    }
}

/// Adds the statement behind the labels, if there is one.
#[tactic(auto, unfolding(crate::specs::Lines::statement_parts))]
fn add_last(
    alloc: Global,
    number: u64,
    lexemes: &[Lexeme],
    parts: &mut List<Part>,
) -> Result<(), LineFault>
    ensures { Adds (statement_parts number lexemes.now) parts.old result parts.new }
{
    let [first, operands @ ..] = lexemes else {
        return Ok(());
    };
    let Lexeme::Name(name) = first else {
        return Err(LineFault::Bad);
    };
    let arguments = arguments(alloc, operands)?;
    let content = statement(alloc, name.as_slice(), arguments)?;
    Ok(parts.push(Part {
        line: number,
        content,
    })?)
}
