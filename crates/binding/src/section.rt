//! The lines of a section, and how far a driver is in them.

ghost use Rattle.std.specs.Prelude.{◌≡◌, ◌≤◌, [], ◌∷◌, length, IfOk, MatchOption};
ghost use Rattle.std.specs.List.{AllByRecursion};
ghost use Rattle.binding.specs.Frames.{IsEthernetLong};
ghost use Rattle.binding.specs.Steps.{act_of_steps};
ghost use Rattle.driver_script.specs.Sound.{FitsLine};
ghost use Rattle.binding.specs.Bursts.{InBurst, left, holds_behind, TakeEffect, StepIsDone, act_of_line, HasMore, IsLast};

use crate::burst::burst_packet;
use crate::events::{Act, Command};
use crate::packet::Packet;
use driver_script::Line;
use log_fields::Question;
use nd_base::{Bytes, OutOfMemory};
use std::alloc::Global;

/// A packet of these bytes.
fn packet(alloc: Global, bytes: &Bytes) -> Result<Packet, OutOfMemory>
    requires { IsEthernetLong bytes.now }
    ensures { IfOk result (λ p. p ≡ bytes.now) }
{
    let copied = bytes.copied(alloc)?;
    match Packet::new(copied) {
        Ok(packet) => Ok(packet),
        Err(_) => unreachable!(),
    }
}

/// The same question.
fn question(alloc: Global, asked: &Question) -> Result<Question, OutOfMemory>
    ensures { IfOk result (λ q. q ≡ asked.now) }
{
    match asked {
        Question::Query { oid, length } => Ok(Question::Query {
            oid: *oid,
            length: *length,
        }),
        Question::Set { oid, bytes } => Ok(Question::Set {
            oid: *oid,
            bytes: bytes.copied(alloc)?,
        }),
    }
}

/// The act of a line of which `sent` packets are sent.
fn act_of_line(alloc: Global, mac: &[u8; 6], sent: u16, line: &Line) -> Result<Act, OutOfMemory>
    requires { FitsLine line.now }
    ensures { IfOk result (λ act. act ≡ act_of_line mac.now sent line.now) }
{
    match line {
        Line::Send(bytes) => Ok(Act::Do(Command::Send(packet(alloc, bytes)?))),
        Line::Burst { count: _, length } => {
            Ok(Act::Do(Command::Send(burst_packet(alloc, mac, sent, *length)?)))
        }
        Line::Ask(asked) => Ok(Act::Do(Command::Ask(question(alloc, asked)?))),
        Line::Await(what) => Ok(Act::Do(Command::Await(*what))),
        Line::Hold => Ok(Act::Finish),
        Line::Release => Ok(Act::Finish),
    }
}

/// The act of the line in front, of which `sent` packets are sent.
pub(crate) fn act_of(
    alloc: Global,
    mac: &[u8; 6],
    sent: u16,
    lines: &[Line],
) -> Result<Act, OutOfMemory>
    requires fit { AllByRecursion FitsLine lines.now }
    requires sent { InBurst sent lines.now }
    ensures { IfOk result (λ act. act ≡ act_of_steps (left mac.now sent lines.now)) }
{
    match lines {
        [] => Ok(Act::Finish),
        [first, ..] => act_of_line(alloc, mac, sent, first),
    }
}

/// Whether loans are held behind a line that says so.
fn holds_behind(line: &Line) -> Option<bool>
    ensures { result ≡ holds_behind line.now }
{
    match line {
        Line::Hold => Some(true),
        Line::Release => Some(false),
        Line::Send(_) | Line::Burst { .. } | Line::Ask(_) | Line::Await(_) => None,
    }
}

/// How many holds and releases in front take effect, up to where loans are due, and whether loans are
/// held there.
pub(crate) fn taking_effect(lines: &[Line], hold: bool, has: bool) -> (usize, bool)
    requires { AllByRecursion FitsLine lines.now }
    ensures passed { result.0 ≤ length lines.now }
    ensures effect { TakeEffect has hold lines.now result.0 result.1 }
{
    let mut holds = hold;
    for (passed, line) in lines.iter().enumerate() {
        match holds_behind(line) {
            None => return (passed, holds),
            Some(set) => {
                if !holds && has {
                    return (passed, holds);
                }
                holds = set;
            }
        }
    }
    (lines.len(), false)
}

/// How many packets of a line are sent when one more is; none where the line is done then.
fn more_of(line: &Line, sent: u16) -> Option<u16>
    requires { InBurst sent (line.now ∷ []) }
    ensures { MatchOption result (IsLast sent line.now) (λ more. HasMore sent line.now more) }
{
    match line {
        Line::Burst { count, .. } => {
            let count = *count;
            let more = sent + 1;
            if more < count { Some(more) } else { None }
        }
        Line::Send(_) | Line::Ask(_) | Line::Await(_) | Line::Hold | Line::Release => None,
    }
}

/// How many lines are done with the step in front, and how many packets of the burst in front then.
pub(crate) fn step_done(lines: &[Line], sent: u16) -> (usize, u16)
    requires fit { AllByRecursion FitsLine lines.now }
    requires sent { InBurst sent lines.now }
    ensures passed { result.0 ≤ length lines.now }
    ensures done { StepIsDone sent lines.now result.0 result.1 }
{
    match lines {
        [] => (0, 0),
        [first, ..] => match more_of(first, sent) {
            Some(more) => (0, more),
            None => (1, 0),
        },
    }
}

/// The same line.
fn copied_line(alloc: Global, line: &Line) -> Result<Line, OutOfMemory>
    ensures { IfOk result (λ l. l ≡ line.now) }
{
    match line {
        Line::Send(bytes) => Ok(Line::Send(bytes.copied(alloc)?)),
        Line::Burst { count, length } => Ok(Line::Burst {
            count: *count,
            length: *length,
        }),
        Line::Ask(asked) => Ok(Line::Ask(question(alloc, asked)?)),
        Line::Await(what) => Ok(Line::Await(*what)),
        Line::Hold => Ok(Line::Hold),
        Line::Release => Ok(Line::Release),
    }
}

/// The same lines.
pub(crate) fn copied_lines(alloc: Global, lines: &[Line]) -> Result<Vec<Line>, OutOfMemory>
    ensures { IfOk result (λ v. v.items ≡ lines.now) }
{
    let mut copies = Vec::new(alloc);
    for line in lines {
        copies.push(copied_line(alloc, line)?)?;
    }
    Ok(copies)
}
