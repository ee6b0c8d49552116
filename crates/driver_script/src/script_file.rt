//! Scripts, and reading one.

ghost use Rattle.std.specs.Prelude.{◌≡◌, ◌<◌, ◌-◌, ◌^◌, min, length, slice_index_or, slice_set, [], ◌∷◌, ◌++◌, IfOk, IfErr, OnOk, MatchResult, Result, Ok, Err, ◌⊎◌};
ghost use Rattle.std.specs.Str.Lines.{lines};
ghost use Rattle.driver_script.specs.Scripts.{Contents, IsScript, IsRefused};
ghost use Rattle.driver_script.specs.Reading.{add, put, said_by, empty, built, onto_last, refusal_of};
ghost use Rattle.driver_script.specs.Statements.{item_of, line_of, octets};
ghost use Rattle.driver_script.specs.declared.refusal.ScriptRefusal.{ScriptRefusal};

use crate::adapter_lines::{AdapterLine, ParamLine};
use crate::front::first_outside;
use crate::refusal::ScriptRefusal;
use crate::section_lines::Line;
use crate::statement::{Content, LineText, Statement, content_of};
use log_fields::Question;
use nd_base::words::next_line;
use nd_base::{AdapterNo, BindingNo, Bytes, OutOfMemory};
use std::alloc::Global;
use std::marker::Model;

/// The longest script that is read, in bytes.
const LONGEST_TEXT: usize = 1_048_576;

/// A script: its adapters with their parameters, and its drivers with the lines of their sections.
#[derive(Drop)]
pub struct Script {
    adapters: Vec<AdapterLine>,
    params: Vec<Vec<ParamLine>>,
    drivers: Vec<AdapterNo>,
    sections: Vec<Vec<Line>>,
}

impl Model for Script {
    ghost use Rattle.std.specs.Prelude.{map};
    ghost use Rattle.driver_script.specs.Scripts.{Contents};

    ghost Value = { Contents };

    ghost view = { λ s. record { adapters = s.adapters.items; params = map (λ v. v.items) s.params.items; drivers = s.drivers.items; sections = map (λ v. v.items) s.sections.items } };
}

/// The bytes that digits stand for, or none where they are not digits of bytes.
#[tactic(auto, unfolding(crate::specs::Statements::octets))]
fn octets(alloc: Global, digits: &[u8]) -> Result<Bytes, OutOfMemory>
    ensures { IfOk result (λ b. b ≡ octets digits.now) }
{
    match hex::decode(alloc, digits) {
        Ok(decoded) => Bytes::copy(alloc, decoded.as_slice()),
        Err(hex::FromHexError::OutOfMemory) => Err(OutOfMemory),
        Err(_) => Ok(Bytes::new(alloc)),
    }
}

/// A line of a section.
fn line(alloc: Global, text: &LineText<'_>) -> Result<Line, OutOfMemory>
    ensures { IfOk result (λ l. l ≡ line_of text.now) }
{
    match *text {
        LineText::Send(digits) => Ok(Line::Send(octets(alloc, digits)?)),
        LineText::Burst { count, length } => Ok(Line::Burst { count, length }),
        LineText::Query { oid, length } => Ok(Line::Ask(Question::Query { oid, length })),
        LineText::Set { oid, digits } => Ok(Line::Ask(Question::Set {
            oid,
            bytes: octets(alloc, digits)?,
        })),
        LineText::Await(condition) => Ok(Line::Await(condition)),
        LineText::Hold => Ok(Line::Hold),
        LineText::Release => Ok(Line::Release),
    }
}

/// A parameter.
fn param(alloc: Global, name: &[u8], text: &[u8]) -> Result<ParamLine, OutOfMemory>
    ensures { IfOk result (λ p. p ≡ record { name = name.now; text = text.now }) }
{
    let name = Bytes::copy(alloc, name)?;
    match Bytes::copy(alloc, text) {
        Ok(text) => Ok(ParamLine { name, text }),
        Err(error) => Err(error),
    }
}

impl Script {
    /// No items.
    fn new(alloc: Global) -> Script
        ensures { result ≡ empty }
    {
        Script {
            adapters: Vec::new(alloc),
            params: Vec::new(alloc),
            drivers: Vec::new(alloc),
            sections: Vec::new(alloc),
        }
    }

    /// Adds an adapter.
    fn add_adapter(&mut self, alloc: Global, adapter: AdapterLine) -> Result<(), OutOfMemory>
        ensures { OnOk result (self.new ≡ record self.old { adapters = self.old.adapters ++ adapter ∷ []; params = self.old.params ++ [] ∷ [] }) }
    {
        self.adapters.push(adapter)?;
        self.params.push(Vec::new(alloc))?;
        Ok(())
    }

    /// Adds a parameter of adapter `at`.
    fn add_param(
        &mut self,
        alloc: Global,
        at: u8,
        name: &[u8],
        text: &[u8],
    ) -> Result<(), OutOfMemory>
        ensures { OnOk result (self.new ≡ record self.old { params = slice_set self.old.params at (slice_index_or self.old.params at [] ++ (record { name = name.now; text = text.now }) ∷ []) }) }
    {
        if let Some(params) = self.params.get_mut(usize::from(at)) {
            params.push(param(alloc, name, text)?)?;
        }
        Ok(())
    }

    /// Adds a driver on adapter `at`.
    fn add_driver(&mut self, alloc: Global, at: u8) -> Result<(), OutOfMemory>
        ensures { OnOk result (self.new ≡ record self.old { drivers = self.old.drivers ++ (record { 0 = at }) ∷ []; sections = self.old.sections ++ [] ∷ [] }) }
    {
        self.drivers.push(AdapterNo(at))?;
        self.sections.push(Vec::new(alloc))?;
        Ok(())
    }

    /// Adds a line to the last section.
    fn add_line(&mut self, alloc: Global, text: &LineText<'_>) -> Result<(), OutOfMemory>
        ensures { OnOk result (self.new ≡ record self.old { sections = onto_last self.old.sections (line_of text.now) }) }
    {
        if let Some(lines) = self.sections.last_mut() {
            lines.push(line(alloc, text)?)?;
        }
        Ok(())
    }

    /// Adds what a line states.
    fn add(&mut self, alloc: Global, statement: &Statement<'_>) -> Result<(), OutOfMemory>
        ensures { OnOk result (self.new ≡ add self.old (item_of statement.now)) }
    {
        match *statement {
            Statement::Adapter {
                number: _,
                id,
                port,
                irq,
                mac,
            } => {
                let id = Bytes::copy(alloc, id)?;
                self.add_adapter(alloc, AdapterLine { id, port, irq, mac })
            }
            Statement::Param {
                adapter,
                name,
                text,
            } => { self.add_param(alloc, adapter, name, text) }
            Statement::Driver { number: _, adapter } => self.add_driver(alloc, adapter),
            Statement::Does(text) => self.add_line(alloc, &text),
        }
    }

    /// Adds what a line says.
    fn put(&mut self, alloc: Global, content: &Content<'_>) -> Result<(), OutOfMemory>
        ensures { OnOk result (self.new ≡ put self.old (said_by content.now)) }
    {
        match content {
            Content::Says(statement) => self.add(alloc, statement),
            Content::Nothing | Content::Outside => Ok(()),
        }
    }
}

/// The script of the lines that state something.
fn built(alloc: Global, text: &[u8]) -> Result<Script, OutOfMemory>
    ensures { IfOk result (λ s. s ≡ built empty (lines text.now)) }
{
    let mut script = Script::new(alloc);
    let mut rest = text;
    while !rest.is_empty() {
        let (line, behind) = next_line(rest);
        script.put(alloc, &content_of(line))?;
        rest = behind;
    }
    Ok(script)
}

/// Why a text is no script.
#[tactic(auto, unfolding(crate::specs::Reading::refusal_of))]
fn refusal_of(text: &[u8]) -> Option<ScriptRefusal>
    ensures { result ≡ refusal_of text.now }
{
    if text.len() > LONGEST_TEXT {
        return Some(ScriptRefusal::TooLong);
    }
    first_outside(text).map(ScriptRefusal::Line)
}

impl Script {
    /// Reads a script of at most 1,048,576 bytes. The whole text is judged before any memory is
    /// taken.
    pub fn read(alloc: Global, text: &[u8]) -> Result<Script, ScriptRefusal>
        // What is read is what the text says.
        ensures found { IfOk result (λ s. IsScript text.now s) }
        // What the text says is read, unless memory runs out.
        ensures only { (c : Contents) → IsScript text.now c → MatchResult result (λ s. s ≡ c) (λ e. e ≡ ScriptRefusal.OutOfMemory) }
        // A refusal is that of the first fault.
        ensures refused { IfErr result (λ e. (e ≡ ScriptRefusal.OutOfMemory) ⊎ IsRefused text.now e) }
        // Where there is a fault, the refusal is its, however little memory there is.
        ensures first { (e : ScriptRefusal) → IsRefused text.now e → result ≡ Err e }
        // Memory runs out only where there is a script to be read.
        ensures memory { result ≡ Err ScriptRefusal.OutOfMemory → (c : Contents) × IsScript text.now c }
    {
        match refusal_of(text) {
            Some(refusal) => Err(refusal),
            None => Ok(built(alloc, text)?),
        }
    }

    /// The adapters, in the order of their numbers.
    pub fn adapters(&self) -> &[AdapterLine]
        ensures { result.now ≡ self.now.adapters }
    {
        self.adapters.as_slice()
    }

    /// The parameters of an adapter, in order; none where there is no such adapter.
    pub fn params(&self, adapter: AdapterNo) -> &[ParamLine]
        ensures { result.now ≡ slice_index_or self.now.params adapter.0 [] }
    {
        match self.params.as_slice().get(usize::from(adapter.0)) {
            Some(params) => params.as_slice(),
            None => &[],
        }
    }

    /// The adapter of each driver.
    pub fn drivers(&self) -> &[AdapterNo]
        ensures { result.now ≡ self.now.drivers }
    {
        self.drivers.as_slice()
    }

    /// The lines of a driver's section, in order; none where there is no such driver.
    pub fn section(&self, driver: BindingNo) -> &[Line]
        ensures { result.now ≡ slice_index_or self.now.sections driver.0 [] }
    {
        match self.sections.as_slice().get(usize::from(driver.0)) {
            Some(lines) => lines.as_slice(),
            None => &[],
        }
    }

    /// How many lines a driver's section has, at most 2^32 - 1.
    pub fn lines(&self, driver: BindingNo) -> u32
        ensures { result ≡ min (length (slice_index_or self.now.sections driver.0 [])) (2 ^ 32 - 1) }
    {
        u32::try_from(self.section(driver).len()).unwrap_or(u32::MAX)
    }
}
