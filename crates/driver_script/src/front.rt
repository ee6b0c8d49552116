//! Whether the lines so far begin a script.

ghost use Rattle.std.specs.Prelude.{◌≡◌, ◌∷◌, ◌++◌, ◌<◌, ◌-◌, ◌+◌, ◌^◌, ◌≤◌, length, Some, None, [], if◌then◌else◌, nat_lt, true};
ghost use Rattle.driver_script.specs.Reading.{Known, start, has, accepts, accepts_adapter, accepts_param, after, step, said, first_outside};
ghost use Rattle.driver_script.specs.Items.{Driver};
ghost use Rattle.driver_script.specs.Statements.{item_of};
ghost use Rattle.std.specs.Str.Lines.{lines};

use crate::statement::{Content, Statement, content_of};
use arrayvec::ArrayVec;
use nd_base::words::next_line;
use std::marker::Model;

/// What is known of the items so far.
#[derive(Drop)]
pub(crate) struct Front {
    ports: ArrayVec<u16, 4>,
    irqs: ArrayVec<u16, 4>,
    has_params: bool,
    drivers: u8,
}

impl Model for Front {
    ghost use Rattle.std.specs.Prelude.{◌≡◌, ◌≤◌};
    ghost use Rattle.arrayvec.specs.ArrayVec.{array_vec_len};
    ghost use Rattle.driver_script.specs.Reading.{Known};

    ghost Value = { Known };

    ghost view = { λ f. record { ports = f.ports.items; irqs = f.irqs.items; has_params = f.has_params; drivers = f.drivers } };

    ghost invariant = { λ f. (array_vec_len f.ports ≡ array_vec_len f.irqs) × (f.drivers ≤ 8) };
}

/// Whether a number is among these.
fn has(numbers: &[u16], number: u16) -> bool
    ensures { result ≡ has numbers.now number }
{
    numbers.iter().any(|other| *other == number)
}

impl Front {
    /// Nothing.
    fn new() -> Front
        ensures { result ≡ start }
    {
        Front {
            ports: ArrayVec::new(),
            irqs: ArrayVec::new(),
            has_params: false,
            drivers: 0,
        }
    }

    /// Whether an adapter goes on from here, which is then known.
    fn passes_adapter(&mut self, number: u8, port: u16, irq: u8) -> bool
        ensures value { result ≡ accepts_adapter self.old number port irq }
        ensures known { self.new ≡ (if result then record self.old { ports = self.old.ports ++ port ∷ []; irqs = self.old.irqs ++ irq ∷ [] } else self.old) }
    {
        let line = u16::from(irq);
        let fits = usize::from(number) == self.ports.len()
            && number < 4
            && !self.has_params
            && self.drivers == 0
            && !has(self.ports.as_slice(), port)
            && !has(self.irqs.as_slice(), line);
        if fits {
            self.ports.push(port);
            self.irqs.push(line);
        }
        fits
    }

    /// Whether a parameter of an adapter goes on from here, which is then known.
    fn passes_param(&mut self, adapter: u8) -> bool
        ensures value { result ≡ accepts_param self.old adapter }
        ensures known { self.new ≡ (if result then record self.old { has_params = true } else self.old) }
    {
        let fits = usize::from(adapter) < self.ports.len() && self.drivers == 0;
        if fits {
            self.has_params = true;
        }
        fits
    }

    /// Whether a driver on an adapter goes on from here, which is then known.
    fn passes_driver(&mut self, number: u8, adapter: u8) -> bool
        ensures value { result ≡ accepts self.old (Driver number adapter) }
        ensures known { self.new ≡ (if result then record self.old { drivers = self.old.drivers + 1 } else self.old) }
    {
        let fits = number == self.drivers && number < 8 && usize::from(adapter) < self.ports.len();
        if fits {
            self.drivers += 1;
        }
        fits
    }

    /// Whether a statement goes on from here, which is then known.
    fn passes_statement(&mut self, statement: &Statement<'_>) -> bool
        ensures value { result ≡ accepts self.old (item_of statement.now) }
        ensures known { self.new ≡ (if result then after self.old (item_of statement.now) else self.old) }
    {
        match *statement {
            Statement::Adapter {
                number,
                port,
                irq,
                ..
            } => self.passes_adapter(number, port, irq),
            Statement::Param { adapter, .. } => self.passes_param(adapter),
            Statement::Driver { number, adapter } => self.passes_driver(number, adapter),
            Statement::Does(_) => self.drivers > 0,
        }
    }

    /// Whether a line goes on from here, which is then known.
    fn passes(&mut self, line: &[u8]) -> bool
        ensures { step self.old (said line.now) ≡ (if result then Some self.new else None) }
    {
        match content_of(line) {
            Content::Nothing => true,
            Content::Says(statement) => self.passes_statement(&statement),
            Content::Outside => false,
        }
    }

    /// Whether there is an adapter.
    fn has_adapter(&self) -> bool
        ensures { result ≡ nat_lt 0 (length self.now.ports) }
    {
        !self.ports.is_empty()
    }
}

/// The number of the first line with which no script begins, or one more than the number of lines
/// where only an adapter is missing.
pub(crate) fn first_outside(text: &[u8]) -> Option<u64>
    requires { length text.now ≤ 2 ^ 20 }
    ensures { result ≡ first_outside 1 start (lines text.now) }
{
    let mut front = Front::new();
    let mut number = 1;
    let mut rest = text;
    while !rest.is_empty() {
        let (line, behind) = next_line(rest);
        if !front.passes(line) {
            return Some(number);
        }
        number += 1;
        rest = behind;
    }
    if front.has_adapter() {
        None
    } else {
        Some(number)
    }
}
