//! The world of a call.

ghost use Rattle.std.specs.Prelude.{◌≡◌, Some, IfOk, true};
ghost use Rattle.guest_world.specs.Worlds.{new_adapter, new_world, with_adapter};

use crate::adapters::{Adapter, Attributes, Hardware, Interrupt};
use crate::miniport::Miniport;
use crate::params::Params;
use crate::timer_functions::TimerFunctions;
use dp8390::Card;
use dpc_timer::Clock;
use irql_lock::Levels;
use nd_base::{AdapterNo, Layout, OutOfMemory};
use nd_mem::Memory;
use packet_pool::Pools;
use std::alloc::Global;

/// How many adapters there may be: they are numbered from 0.
pub const ADAPTERS: usize = 4;

/// What a call of an import may look at and change.
#[derive(Drop)]
pub struct World {
    pub memory: Memory,
    pub pools: Pools,
    pub levels: Levels,
    pub clock: Clock,
    pub layout: Layout,
    pub miniport: Option<Miniport>,
    pub timers: TimerFunctions,
    /// The adapters, by number.
    pub adapters: [Option<Adapter>; ADAPTERS],
}

impl Adapter {
    /// An adapter of which nothing was given yet, with a card that was never started.
    pub fn new(alloc: Global, hardware: Hardware, params: Params) -> Result<Adapter, OutOfMemory>
        ensures { IfOk result (λ adapter. adapter ≡ new_adapter hardware params) }
    {
        match Card::new(alloc, hardware.station) {
            Ok(card) => Ok(Adapter {
                hardware,
                params,
                card,
                attributes: None,
                interrupt: None,
                opened: false,
            }),
            Err(error) => Err(error),
        }
    }
}

impl World {
    /// A world without adapters, before the first call.
    pub fn new(alloc: Global, layout: Layout, memory: Memory) -> Result<World, OutOfMemory>
        ensures { IfOk result (λ world. world ≡ new_world layout memory) }
    {
        match Pools::new(alloc) {
            Ok(pools) => Ok(World {
                memory,
                pools,
                levels: Levels::new(alloc),
                clock: Clock::new(alloc),
                layout,
                miniport: None,
                timers: TimerFunctions::new(alloc),
                adapters: [None, None, None, None],
            }),
            Err(error) => Err(error),
        }
    }

    /// Keeps what NdisMSetAttributesEx gave of an adapter, if it is there.
    pub fn set_attributes(&mut self, a: AdapterNo, given: Attributes)
        ensures { self.new ≡ with_adapter self.old (Some a) (λ x. record x { attributes = Some given }) }
    {
        let place = usize::from(a.0);
        if place < ADAPTERS {
            if let Some(adapter) = &mut self.adapters[place] {
                adapter.attributes = Some(given);
            }
        }
    }

    /// Keeps what NdisMRegisterInterrupt gave of an adapter, or that it gave the interrupt back.
    pub fn set_interrupt(&mut self, a: AdapterNo, given: Option<Interrupt>)
        ensures { self.new ≡ with_adapter self.old (Some a) (λ x. record x { interrupt = given }) }
    {
        let place = usize::from(a.0);
        if place < ADAPTERS {
            if let Some(adapter) = &mut self.adapters[place] {
                adapter.interrupt = given;
            }
        }
    }

    /// Keeps that an adapter's configuration was opened.
    pub fn open_configuration(&mut self, a: AdapterNo)
        ensures { self.new ≡ with_adapter self.old (Some a) (λ x. record x { opened = true }) }
    {
        let place = usize::from(a.0);
        if place < ADAPTERS {
            if let Some(adapter) = &mut self.adapters[place] {
                adapter.opened = true;
            }
        }
    }
}
