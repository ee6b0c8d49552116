//! Parameters, found by the keyword that a driver names in guest memory.

ghost use Rattle.std.specs.Prelude.{◌≡◌, ◌/◌, ◌%◌, true, is_none};
ghost use Rattle.std.specs.Option.{option_map, option_and_then};
ghost use Rattle.std.specs.FinMap as map;
ghost use Rattle.nd_mem.specs.Space.{first_fault, Reading};
ghost use Rattle.inf_text.specs.Names as names;
ghost use Rattle.inf_file.specs.ByName as by_name;
ghost use Rattle.import_answers.specs.World.{cells};
ghost use Rattle.import_answers.specs.Outcomes.{can_read};
ghost use Rattle.import_answers.specs.Configuration as configuration;
ghost use Rattle.import_answers.specs.Configuration.{units_at};
ghost use Rattle.calls_setup.specs.Keywords.{counted_of};
ghost use Rattle.calls_setup.specs.Values.{read_in_some};

use crate::values::{Value, read_as};
use call_parts::half_at;
use call_replies::word_at;
use guest_world::World;
use inf_file::{Param, ParamValue};
use inf_text::is_same;
use nd_mem::{Memory, fault_laws, read_laws};

/// An NDIS_STRING: how many bytes its characters have, and where they stand.
#[derive(Clone, Copy)]
pub struct Counted {
    pub length: u16,
    pub characters: u32,
}

impl Counted {
    /// The one at an address.
    pub fn at(world: &World, at: u32) -> Counted
        requires { can_read world.now at 8 ≡ true }
        ensures { counted_of result ≡ configuration.counted_at (cells world.now) at }
    {
        fault_laws();
        read_laws();
        Counted {
            length: half_at(&world.memory, at),
            characters: word_at(world, at.wrapping_add(4)).unwrap_or(0),
        }
    }
}

/// Whether the keyword is this name, without regard to the case of ASCII letters.
fn is_named(memory: &Memory, keyword: Counted, name: &[u16]) -> bool
    requires even { keyword.length % 2 ≡ 0 }
    requires readable { is_none (first_fault Reading (map.get memory.now) keyword.characters keyword.length) ≡ true }
    ensures { result ≡ names.is_same (units_at (map.get memory.now) keyword.characters (keyword.length / 2)) name.now }
{
    fault_laws();
    read_laws();
    if usize::from(keyword.length) != 2 * name.len() {
        return false;
    }
    for k in 0..name.len() {
        let at = keyword.characters.wrapping_add(2 * k as u32);
        if !is_same(&[half_at(memory, at)], &[name[k]]) {
            return false;
        }
    }
    true
}

/// The value of the first parameter of the keyword's name.
fn value_of<'p>(memory: &Memory, keyword: Counted, params: &'p [Param]) -> Option<&'p ParamValue>
    requires even { keyword.length % 2 ≡ 0 }
    requires readable { is_none (first_fault Reading (map.get memory.now) keyword.characters keyword.length) ≡ true }
    ensures { option_map (λ v. v.now) result ≡ by_name.value_of (units_at (map.get memory.now) keyword.characters (keyword.length / 2)) params.entry.now }
{
    for param in params {
        if is_named(memory, keyword, param.name.as_slice()) {
            return Some(&param.value);
        }
    }
    None
}

/// What a parameter is read as that the keyword names.
pub fn asked_value<'p>(
    memory: &Memory,
    params: &'p [Param],
    keyword: Counted,
    kind: u32,
) -> Option<Value<'p>>
    requires even { keyword.length % 2 ≡ 0 }
    requires readable { is_none (first_fault Reading (map.get memory.now) keyword.characters keyword.length) ≡ true }
    ensures { read_in_some result ≡ option_and_then (configuration.read_as kind) (by_name.value_of (units_at (map.get memory.now) keyword.characters (keyword.length / 2)) params.entry.now) }
{
    match value_of(memory, keyword, params) {
        Some(value) => read_as(kind, value),
        None => None,
    }
}
