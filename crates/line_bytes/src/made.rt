//! What instructions are as bytes, wherever labels stand.

ghost use Rattle.std.specs.Prelude.{◌≡◌, length};
ghost use Rattle.std.specs.Option.{option_map};
ghost use Rattle.asm_lines.specs.Statements.{statement_seen};
ghost use Rattle.asm_lines.specs.Lines.{content_seen};
ghost use Rattle.asm_encode.specs.Jumps.{jump_length};
ghost use Rattle.asm_encode.specs.Templates.{bytes_in};
ghost use Rattle.line_bytes.specs.Numbers.{numbered_seen, numbered};
ghost use Rattle.line_bytes.specs.Made.{has_prefix, jump_made, IsPlain, IsMadeAs, IsMade, IsMadeIn, made_size, made_size_in, size_in};

use crate::numbers::{Numbered, term_of, with_numbers};
use asm_encode::{Fault, Form, Jump, Template, form_of, jump_of, template_of};
use asm_lines::{Content, Prefix, Statement};
use ia32_decode::{Op, Repeat};

/// What an instruction is as bytes.
#[derive(Drop)]
pub enum Made {
    /// It has none, wherever labels stand.
    Faulty(Fault),
    Jump(Jump),
    Plain(Template),
}

fn has_prefix(prefix: Prefix) -> bool
    ensures { result ≡ has_prefix prefix }
{
    prefix.lock || !matches!(prefix.repeat, Repeat::Absent)
}

fn jump_made(prefix: Prefix, op: Op) -> Made
    ensures { result ≡ jump_made prefix op }
{
    if has_prefix(prefix) {
        return Made::Faulty(Fault::NoForm);
    }
    match jump_of(op) {
        Some(jump) => Made::Jump(jump),
        None => Made::Faulty(Fault::NoForm),
    }
}

fn plain_made(numbered: Numbered<'_>, form: Form) -> Made
    ensures { IsPlain (numbered_seen numbered.entry) form result }
{
    let value = term_of(numbered.value);
    let offset = term_of(numbered.offset);
    match template_of(numbered.operation, form, value, offset) {
        Ok(template) => Made::Plain(template),
        Err(fault) => Made::Faulty(fault),
    }
}

fn made_as(numbered: Numbered<'_>, form: Option<Form>) -> Made
    ensures { IsMadeAs (numbered_seen numbered.entry) form result }
{
    match form {
        None => Made::Faulty(Fault::NoForm),
        Some(form) => {
            if form.is_jump {
                jump_made(numbered.operation.prefix, form.op)
            } else {
                plain_made(numbered, form)
            }
        }
    }
}

#[tactic(auto, unfolding(crate::specs::Made::IsMade))]
fn made_of(statement: &Statement<'_>) -> Made
    ensures { IsMade (numbered (statement_seen statement.now)) result }
{
    match with_numbers(statement) {
        None => Made::Faulty(Fault::NoForm),
        Some(numbered) => made_as(numbered, form_of(numbered.operation)),
    }
}

/// What the instruction of a line is, if the line is one.
#[tactic(auto, unfolding(crate::specs::Made::IsMadeIn))]
pub fn made_in(content: &Option<Content<'_>>) -> Option<Made>
    ensures { IsMadeIn (option_map content_seen content.now) result }
{
    match content {
        Some(Content::Instruction(statement)) => Some(made_of(statement)),
        _ => None,
    }
}

pub fn jump_length(jump: Jump) -> u8
    ensures { result ≡ jump_length jump }
{
    match jump {
        Jump::Near(_) => 5,
        Jump::Conditional(_) => 6,
        Jump::Short(_) => 2,
    }
}

fn template_size(template: &Template) -> usize
    ensures { result ≡ length (bytes_in template.now) }
{
    match template {
        Template::Fixed(bytes) => bytes.as_slice().len(),
        Template::WithValue(bytes) => bytes.as_slice().len(),
        Template::WithOffset(bytes, _) => bytes.as_slice().len(),
        Template::WithBoth(bytes) => bytes.as_slice().len(),
    }
}

fn made_size(made: &Made) -> usize
    ensures { result ≡ made_size made.now }
{
    match made {
        Made::Faulty(_) => 0,
        Made::Jump(jump) => usize::from(jump_length(*jump)),
        Made::Plain(template) => template_size(template),
    }
}

fn made_size_in(made: &Option<Made>) -> usize
    ensures { result ≡ made_size_in made.now }
{
    match made {
        Some(made) => made_size(made),
        None => 0,
    }
}

/// How many bytes a line has.
#[tactic(auto, using(crate::proofs::OctetLaws::octets_long))]
pub fn size_in(content: &Option<Content<'_>>, made: &Option<Made>) -> usize
    ensures { result ≡ size_in (option_map content_seen content.now) made.now }
{
    match content {
        None => 0,
        Some(Content::Nothing) => 0,
        Some(Content::Label(_)) => 0,
        Some(Content::Octets(digits)) => digits.len() / 2,
        Some(Content::Word(_)) => 4,
        Some(Content::Import(_)) => 6,
        Some(Content::Instruction(_)) => made_size_in(made),
    }
}
