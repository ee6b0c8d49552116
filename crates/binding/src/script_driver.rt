//! Drivers that follow a script.

ghost use Rattle.std.specs.Prelude.{◌≡◌, ◌<◌, length, IfOk, [], false};
ghost use Rattle.std.specs.List.{AllByRecursion};
ghost use Rattle.binding.specs.Steps.{front, past, behind, act_of_steps, is_due, has_any, at_first};
ghost use Rattle.driver_script.specs.Sound.{FitsLine, IsSound};
ghost use Rattle.binding.specs.Sections.{BeginsSection};

use crate::events::{Act, Command, Outcome};
use crate::packet::Loan;
use crate::protocol::Protocol;
use crate::section::{act_of, copied_lines, step_done, taking_effect};
use driver_script::{Line, Script};
use log_fields::Condition;
use nd_base::{BindingNo, OutOfMemory};
use std::alloc::Global;
use std::marker::Model;

/// Whether there is a loan.
fn has_any(loans: &Vec<Loan>) -> bool
    ensures { result ≡ has_any loans.now.items }
{
    match loans.as_slice() {
        [] => false,
        [_, ..] => true,
    }
}

/// A driver that follows a section of a script. Contracts see what is left of it.
pub struct ScriptDriver {
    alloc: Global,
    mac: [u8; 6],
    lines: Vec<Line>,
    at: usize,
    sent: u16,
    hold: bool,
    owing: bool,
    kept: Vec<Loan>,
}

impl Model for ScriptDriver {
    ghost use Rattle.std.specs.Prelude.{◌≤◌, drop};
    ghost use Rattle.std.specs.List.{AllByRecursion};
    ghost use Rattle.std.specs.Vec.{vec_len};
    ghost use Rattle.binding.specs.Steps.{Follower};
    ghost use Rattle.driver_script.specs.Sound.{FitsLine};
    ghost use Rattle.binding.specs.Bursts.{InBurst, left};

    ghost Value = { Follower };

    ghost view = { λ d. record { steps = left d.mac d.sent (drop d.at d.lines.items); hold = d.hold; owing = d.owing; kept = d.kept.items } };

    ghost invariant = { λ d. (d.at ≤ vec_len d.lines) × AllByRecursion FitsLine d.lines.items × InBurst d.sent (drop d.at d.lines.items) };
}

impl ScriptDriver {
    /// A driver of these lines, over an adapter with this station address.
    pub fn new(alloc: Global, mac: [u8; 6], lines: Vec<Line>) -> ScriptDriver
        requires { AllByRecursion FitsLine lines.items }
        ensures { result ≡ at_first mac lines.items }
    {
        let (at, hold) = taking_effect(lines.as_slice(), false, false);
        ScriptDriver {
            alloc,
            mac,
            lines,
            at,
            sent: 0,
            hold,
            owing: false,
            kept: Vec::new(alloc),
        }
    }

    /// The driver of a section of a script; its lines are copied.
    pub fn of_script(
        alloc: Global,
        script: &Script,
        driver: BindingNo,
    ) -> Result<ScriptDriver, OutOfMemory>
        requires sound { IsSound script.now }
        requires there { driver.0 < length script.now.drivers }
        ensures { IfOk result (λ d. BeginsSection script.now driver d) }
    {
        let adapter = script.drivers()[usize::from(driver.0)];
        let mac = script.adapters()[usize::from(adapter.0)].mac;
        let lines = copied_lines(alloc, script.section(driver))?;
        Ok(ScriptDriver::new(alloc, mac, lines))
    }

    /// Ends a driver that keeps no loan.
    pub fn close(self)
        requires { self.kept ≡ [] }
    {
        let ScriptDriver {
            alloc: _,
            mac: _,
            lines: _,
            at: _,
            sent: _,
            hold: _,
            owing: _,
            kept,
        } = self;
        kept.destroy_empty();
    }
}

impl ScriptDriver {
    /// Passes the holds and releases that take effect.
    fn pass(&mut self)
        ensures { self.new ≡ record self.old { steps = (front self.old).0; hold = (front self.old).1 } }
    {
        let has = has_any(&self.kept);
        let (passed, hold) = taking_effect(&self.lines.as_slice()[self.at..], self.hold, has);
        self.at += passed;
        self.hold = hold;
    }

    /// Passes the step in front.
    fn pass_step(&mut self)
        ensures { self.new ≡ record self.old { steps = behind self.old.steps } }
    {
        let (passed, sent) = step_done(&self.lines.as_slice()[self.at..], self.sent);
        self.at += passed;
        self.sent = sent;
    }

    /// The step in front is done.
    fn go_on(&mut self)
        ensures { self.new ≡ record self.old { steps = (past self.old).0; hold = (past self.old).1 } }
    {
        self.pass();
        self.pass_step();
        self.pass();
    }

    /// Passes all steps.
    fn pass_all(&mut self)
        ensures { self.new ≡ record self.old { steps = []; hold = false; owing = false } }
    {
        self.at = self.lines.len();
        self.sent = 0;
        self.hold = false;
        self.owing = false;
    }

    /// The act of the step in front.
    fn step_act(&self) -> Result<Act, OutOfMemory>
        ensures { IfOk result (λ act. act ≡ act_of_steps (front self.now).0) }
    {
        let has = has_any(&self.kept);
        let lines = &self.lines.as_slice()[self.at..];
        let (passed, _) = taking_effect(lines, self.hold, has);
        act_of(self.alloc, &self.mac, self.sent, &lines[passed..])
    }

    /// Whether a loan is returned before the next step.
    fn is_loan_due(&self) -> bool
        ensures { result ≡ is_due (has_any self.now.kept) (front self.now).1 }
    {
        let has = has_any(&self.kept);
        let (_, hold) = taking_effect(&self.lines.as_slice()[self.at..], self.hold, has);
        !hold && has
    }
}

impl Protocol for ScriptDriver {
    ghost use Rattle.binding.specs.Steps.{script_meaning};
    ghost use Rattle.binding.specs.StepLaws.{script_lawful};

    ghost meaning = { script_meaning };

    fn next(&mut self) -> Result<Act, OutOfMemory> {
        if self.owing {
            return Ok(Act::Do(Command::Await(Condition::Room)));
        }
        if self.is_loan_due() {
            let loan = self.kept.remove(0);
            return Ok(Act::Do(Command::Return(loan)));
        }
        self.step_act()
    }

    fn told(&mut self, outcome: Outcome) -> Result<(), Outcome> {
        if self.kept.reserve(1).is_err() {
            return Err(outcome);
        }
        match outcome {
            Outcome::Held(packet) => {
                drop(packet.spend());
                self.owing = true;
            }
            Outcome::Sent(_) | Outcome::Asked(_) => {
                self.owing = false;
                self.go_on();
            }
            Outcome::Met => {
                if self.owing {
                    self.owing = false;
                } else {
                    self.go_on();
                }
            }
            Outcome::Returned(_) | Outcome::AlreadyBack(_) => self.pass(),
            Outcome::Quiet => self.pass_all(),
            other => {
                if let Some(loan) = other.into_loan() {
                    self.kept.push_reserved(loan);
                }
            }
        }
        Ok(())
    }

    fn give_up(&mut self) -> Option<Loan> {
        if self.kept.is_empty() {
            return None;
        }
        Some(self.kept.remove(0))
    }

    ghost lawful = { script_lawful };
}
