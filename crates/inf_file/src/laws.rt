//! What holds of the parameters that a file gives, whatever order its checks have.

ghost use Rattle.std.specs.Prelude.{ℕ, List, Ok, Err, ◌≡◌, ◌++◌, ◌∷◌, map, reverse};
ghost use Rattle.std.specs.Option.{option_map, option_or};
ghost use Rattle.std.specs.List.{find, IsDistinct};
ghost use Rattle.inf_text.specs.Names.{is_same};
ghost use Rattle.inf_text.specs.Sections.{Line as InfLine, Section as InfSection, has_key, value_at};
ghost use Rattle.inf_file.specs.Strings.{Strings, HasNoPercent, meaning, replaced, strings_of};
ghost use Rattle.inf_file.specs.Parameters.{model_in, parameters_of};
ghost use Rattle.inf_file.specs.ByName.{models_in, lists_id, set_by_rows, defaults_by_rows, names, each_once, value_of, LacksNone, FirstLacking, BadNone, FirstBad};
ghost use Rattle.inf_file.specs.Earliest.{IsFirst};
ghost use Rattle.inf_file.specs.declared.param.Param.{Param as Parameter};
ghost use Rattle.inf_file.specs.declared.param.ParamRefusal.TheVariants.{NoString, BadValue};

/// No two parameters have one name. Their names are those that rows set, in the order of their
/// first rows, and behind them those that have only defaults.
#[tactic(auto, using(crate::proofs::ParamLaws::names_differ, crate::proofs::ParamLaws::names_order))]
pub fn each_name_comes_once()
    ensures differ { (ss : List InfSection) (id : List ℕ) (params : List Parameter) → parameters_of ss id ≡ Ok params → IsDistinct is_same (names params) }
    ensures order { (ss : List InfSection) (id : List ℕ) (params : List Parameter) → parameters_of ss id ≡ Ok params → names params ≡ each_once (names (set_by_rows ss id ++ defaults_by_rows ss id)) }
{}

/// The value of a name is that of the last row that sets it; where no row does, it is the first
/// default; and where there is no default either, there is no such parameter.
#[tactic(auto, using(crate::proofs::ParamLaws::value_last))]
pub fn last_row_counts()
    ensures { (ss : List InfSection) (id : List ℕ) (params : List Parameter) (name : List ℕ) → parameters_of ss id ≡ Ok params → value_of name params ≡ option_or (value_of name (reverse (set_by_rows ss id))) (value_of name (defaults_by_rows ss id)) }
{}

/// A key between two percent signs is replaced by what it means, once and from the left; a text
/// without percent signs and a lone percent sign stand for themselves. The string of a key is the
/// first value of the first line that has the key.
#[tactic(auto, using(crate::proofs::StringLaws::plain_stays, crate::proofs::StringLaws::lone_stays, crate::proofs::StringLaws::key_replaced, crate::proofs::StringLaws::first_counts))]
pub fn strings_are_replaced()
    ensures plain { (s : Strings) (text : List ℕ) → HasNoPercent text → replaced s text ≡ text }
    ensures lone { (s : Strings) (plain rest : List ℕ) → HasNoPercent plain → HasNoPercent rest → replaced s (plain ++ 37 ∷ rest) ≡ plain ++ 37 ∷ rest }
    ensures key { (s : Strings) (plain key rest : List ℕ) → HasNoPercent plain → HasNoPercent key → replaced s (plain ++ 37 ∷ (key ++ 37 ∷ rest)) ≡ plain ++ (meaning s key ++ replaced s rest) }
    ensures first { (lines : List InfLine) (key : List ℕ) → strings_of lines key ≡ option_map (value_at 0) (find (has_key key) lines) }
{}

/// The model line of a hardware id lists it and is the first of the file that does; there is none
/// only where no model line lists the id.
#[tactic(auto, using(crate::proofs::AnswerLaws::earliest_is_first))]
pub fn first_model_is_taken()
    ensures { (ss : List InfSection) (id : List ℕ) → IsFirst (lists_id ss id) (models_in ss) (model_in ss id) }
{}

/// A refusal names the first line of the file that is at fault: of the lines that are read one that
/// lacks a string, and else a row whose number is none. Where parameters are given, none is.
#[tactic(auto, using(crate::proofs::AnswerLaws::no_string, crate::proofs::AnswerLaws::bad_value, crate::proofs::AnswerLaws::no_fault))]
pub fn first_fault_is_named()
    ensures no_string { (ss : List InfSection) (id : List ℕ) (n : ℕ) → parameters_of ss id ≡ Err (NoString n) → FirstLacking ss id n }
    ensures bad_value { (ss : List InfSection) (id : List ℕ) (n : ℕ) → parameters_of ss id ≡ Err (BadValue n) → LacksNone ss id × FirstBad ss id n }
    ensures none { (ss : List InfSection) (id : List ℕ) (params : List Parameter) → parameters_of ss id ≡ Ok params → LacksNone ss id × BadNone ss id }
{}
