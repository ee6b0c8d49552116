//! The parameters that rows give, and their defaults.

ghost use Rattle.std.specs.Prelude.{◌≡◌, ◌++◌, [], map, IfOk, OnOk};
ghost use Rattle.std.specs.List.{fold, cons_option, filter_map};
ghost use Rattle.std.specs.Option.{option_copied};
ghost use Rattle.inf_file.specs.Keyed.{string_in};
ghost use Rattle.inf_file.specs.Earliest.{earlier_if, earliest};
ghost use Rattle.inf_file.specs.Rows.{with_param, with_default, set_by, default_by, set_some, setting, given_default, bad_saying, is_bad, params_of};
ghost use Rattle.inf_file.specs.Parameters.{unless_bad};
ghost use Rattle.nd_base.specs.Results.{Gives};

use crate::lines::earlier_if;
use crate::param::{Param, ParamRefusal, ParamValue};
use crate::row::{Saying, read_row};
use crate::source::Source;
use indexmap::IndexMap;
use inf_text::{Line, Name};
use nd_base::OutOfMemory;
use std::alloc::Global;
use std::marker::Model;

/// Parameters, each name once, in the order of their first places.
#[derive(Drop)]
pub struct Params {
    table: IndexMap<Name, ParamValue>,
}

impl Model for Params {
    ghost use Rattle.std.specs.Prelude.{List};
    ghost use Rattle.inf_file.specs.declared.param.Param.{Param as Parameter};

    ghost Value = { List Parameter };

    ghost use Rattle.inf_file.specs.Keyed.{params_in};

    ghost view = { λ p. params_in p.table.entries };
}

impl Params {
    /// No parameters.
    fn empty(alloc: Global) -> Params
        ensures { result ≡ [] }
    {
        Params {
            table: IndexMap::new(alloc),
        }
    }

    /// Sets a parameter: one that is there keeps its place and spelling and takes the value.
    #[tactic(auto, using(crate::proofs::ParamLists::inserted))]
    fn set(&mut self, param: Param) -> Result<(), OutOfMemory>
        ensures { OnOk result (self.new ≡ with_param self.old param) }
    {
        let Param { name, value } = param;
        self.table.insert(Name::new(name), value)?;
        Ok(())
    }

    /// Gives a parameter a value where it has none.
    #[tactic(auto, using(crate::proofs::ParamLists::default_new))]
    fn set_default(&mut self, param: Param) -> Result<(), OutOfMemory>
        ensures { OnOk result (self.new ≡ with_default self.old param) }
    {
        let Param { name, value } = param;
        let name = Name::new(name);
        if self.table.contains_key(&name) {
            return Ok(());
        }
        self.table.insert(name, value)?;
        Ok(())
    }

    /// The parameters in their order.
    fn into_list(self, alloc: Global) -> Result<Vec<Param>, OutOfMemory>
        ensures { IfOk result (λ v. v.items ≡ self) }
    {
        let Params { table } = self;
        let mut list = Vec::new(alloc);
        for (name, value) in table {
            let name = name.into_text();
            list.push(Param { name, value })?;
        }
        Ok(list)
    }
}

/// What rows said: the parameters that they set, and the defaults that they gave.
#[derive(Drop)]
struct Gathered {
    set: Params,
    defaults: Vec<Param>,
}

impl Gathered {
    /// What a row says is put to what those before it said. Gives whether its number is none.
    fn add(&mut self, said: Saying) -> Result<bool, OutOfMemory>
        ensures bad { IfOk result (λ b. b ≡ bad_saying said) }
        ensures set { OnOk result (self.new.set ≡ set_some self.old.set (set_by said)) }
        ensures defaults { OnOk result (self.new.defaults.items ≡ self.old.defaults.items ++ cons_option (default_by said) []) }
    {
        match said {
            Saying::Sets(param) => {
                self.set.set(param)?;
                Ok(false)
            }
            Saying::Defaults(param) => {
                self.defaults.push(param)?;
                Ok(false)
            }
            Saying::Nothing => Ok(false),
            Saying::Bad => Ok(true),
        }
    }

    /// Takes a row, behind the first one whose number is none. Gives the first that has none.
    #[tactic(auto, unfolding(crate::specs::Rows::is_bad))]
    fn add_row<'a>(
        &mut self,
        source: &Source,
        bad: Option<&'a Line>,
        row: &'a Line,
    ) -> Result<Option<&'a Line>, OutOfMemory>
        ensures set { OnOk result (self.new.set ≡ setting (string_in source.now.strings.now) self.old.set row.now) }
        ensures defaults { OnOk result (self.new.defaults.items ≡ self.old.defaults.items ++ cons_option (given_default (string_in source.now.strings.now) row.now) []) }
        ensures bad { IfOk result (λ l. option_copied l ≡ earlier_if (is_bad (string_in source.now.strings.now)) (option_copied bad.entry) row.now) }
    {
        let said = read_row(source, row)?;
        Ok(earlier_if(self.add(said)?, bad, row))
    }

    /// Takes rows. Gives the first whose number is none.
    #[tactic(auto, unfolding(crate::specs::Earliest::earliest))]
    fn add_rows<'a>(
        &mut self,
        source: &Source,
        rows: &[&'a Line],
    ) -> Result<Option<&'a Line>, OutOfMemory>
        ensures set { OnOk result (self.new.set ≡ fold (setting (string_in source.now.strings.now)) self.old.set (map (λ l. l.now) rows.now)) }
        ensures defaults { OnOk result (self.new.defaults.items ≡ self.old.defaults.items ++ filter_map (given_default (string_in source.now.strings.now)) (map (λ l. l.now) rows.now)) }
        ensures bad { IfOk result (λ l. option_copied l ≡ earliest (is_bad (string_in source.now.strings.now)) (map (λ l. l.now) rows.now)) }
    {
        let mut bad: Option<&Line> = None;
        for row in rows {
            bad = self.add_row(source, bad, row)?;
        }
        Ok(bad)
    }

    /// The parameters, with the defaults of those that have no value behind them.
    fn into_list(self, alloc: Global) -> Result<Vec<Param>, OutOfMemory>
        ensures { IfOk result (λ v. v.items ≡ fold with_default self.set self.defaults.items) }
    {
        let Gathered { set, defaults } = self;
        let mut params = set;
        for param in defaults {
            params.set_default(param)?;
        }
        params.into_list(alloc)
    }
}

/// The parameters that rows give, or the first row whose number is none.
#[tactic(auto, unfolding(crate::specs::Rows::params_of))]
pub fn params_of(source: &Source, rows: &[&Line]) -> Result<Vec<Param>, ParamRefusal>
    ensures { Gives ParamRefusal.OutOfMemory (λ v. v.items) result (unless_bad (earliest (is_bad (string_in source.now.strings.now)) (map (λ l. l.now) rows.now)) (params_of (string_in source.now.strings.now) (map (λ l. l.now) rows.now))) }
{
    let mut gathered = Gathered {
        set: Params::empty(source.alloc),
        defaults: Vec::new(source.alloc),
    };
    match gathered.add_rows(source, rows)? {
        Some(row) => Err(ParamRefusal::BadValue(row.number())),
        None => Ok(gathered.into_list(source.alloc)?),
    }
}
