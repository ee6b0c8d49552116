//! The sections of an INF file.

ghost use Rattle.std.specs.Prelude.{ℕ, List, ◌≡◌, ◌<◌, ◌^◌, [], length, map, IfOk, OnOk, OnErr};
ghost use Rattle.std.specs.Map.Iter.{ShowsInOrder, deref};
ghost use Rattle.nd_base.specs.Results.{Gives};
ghost use Rattle.inf_text.specs.Reading.{with_entry, with_statement, with_joined, sections_of_lines, IsWithin};

use crate::joining::Joined;
use crate::line::Line;
use crate::name::{Name, is_word};
use crate::refusal::InfRefusal;
use crate::statement::{Statement, read_statement};
use indexmap::IndexMap;
use indexmap::map::Keys;
use nd_base::OutOfMemory;
use std::alloc::Global;
use std::marker::Model;

/// The sections of an INF file, each name once, in the order of their first headers.
#[derive(Drop)]
pub struct Inf {
    sections: IndexMap<Name, Vec<Line>>,
}

impl Model for Inf {
    ghost use Rattle.std.specs.Prelude.{List};
    ghost use Rattle.inf_text.specs.Sections.{Section as InfSection};

    ghost Value = { List InfSection };

    ghost use Rattle.inf_text.specs.Entries.{sections_in};

    ghost view = { λ i. sections_in i.sections.entries };
}

impl Inf {
    ghost use Rattle.inf_text.specs.Sections.{place_named, place_of, lines_at, lines_named, with_section, with_line};

    /// No sections.
    fn empty(alloc: Global) -> Inf
        ensures { result ≡ [] }
    {
        Inf {
            sections: IndexMap::new(alloc),
        }
    }

    /// The place of the section of a name. This takes no memory.
    pub fn place(&self, name: &Name) -> Option<usize>
        ensures { result ≡ place_named name.now self.now }
    {
        self.sections.get_index_of(name)
    }

    /// The names of the sections, in their order.
    pub fn names(&self) -> Keys<'_, Name, Vec<Line>>
        ensures rest { result ≡ map (λ s. s.name) self.now }
        ensures len { length result ≡ length self.now }
        ensures runs { ShowsInOrder (deref {X = List ℕ}) }
        ensures fits { length self.now < 2 ^ 63 }
    {
        self.sections.keys()
    }

    /// A header: the section of the name goes on, or begins. Gives its place.
    fn begin_section(&mut self, alloc: Global, name: Name) -> Result<usize, OutOfMemory>
        ensures place { IfOk result (λ place. place ≡ place_of name self.old) }
        ensures within { IfOk result (λ place. place < length self.new) }
        ensures ok { OnOk result (self.new ≡ with_section name self.old) }
    {
        if let Some(place) = self.sections.get_index_of(&name) {
            return Ok(place);
        }
        let (place, _) = self.sections.insert_full(name, Vec::new(alloc))?;
        Ok(place)
    }

    /// Puts a line behind the last one of the section at a place.
    fn add_line(&mut self, place: usize, line: Line) -> Result<(), OutOfMemory>
        requires { place < length self.old }
        ensures { OnOk result (self.new ≡ with_line place line self.old) }
    {
        self.sections[place].push(line)?;
        Ok(())
    }

    /// The lines of the section at a place.
    #[tactic(auto, unfolding(crate::specs::Sections::lines_at))]
    pub fn lines_at(&self, place: usize) -> &[Line]
        ensures { result.now ≡ lines_at self.now place }
    {
        match self.sections.get_index(place) {
            Some((_, lines)) => lines.as_slice(),
            None => &[],
        }
    }

    /// The lines of the section of a name of ASCII, none where there is no such section. This takes
    /// no memory, and time for each section.
    pub fn lines_named(&self, name: &[u8]) -> &[Line]
        ensures { result.now ≡ lines_named name.now self.now }
    {
        for (own, lines) in &self.sections {
            if is_word(own.as_slice(), name) {
                return lines.as_slice();
            }
        }
        &[]
    }

    /// Takes a line of the section at a place.
    fn take_entry(&mut self, place: Option<usize>, line: Line) -> Result<Option<usize>, InfRefusal>
        requires { IsWithin place self.old }
        ensures value { Gives InfRefusal.OutOfMemory (λ p. record { sections = self.new; place = p }) result (with_entry line self.old place) }
        ensures within { IfOk result (λ p. IsWithin p self.new) }
    {
        let Some(at) = place else {
            return Err(InfRefusal::Line(line.number()));
        };
        self.add_line(at, line)?;
        Ok(Some(at))
    }

    /// Takes what a line says, behind a header whose section is at a place. Gives the place of the
    /// last header's section.
    fn take(
        &mut self,
        alloc: Global,
        place: Option<usize>,
        said: Statement,
    ) -> Result<Option<usize>, InfRefusal>
        requires { IsWithin place self.old }
        ensures value { Gives InfRefusal.OutOfMemory (λ p. record { sections = self.new; place = p }) result (with_statement (record { sections = self.old; place = place }) said) }
        ensures within { IfOk result (λ p. IsWithin p self.new) }
    {
        match said {
            Statement::Nothing => Ok(place),
            Statement::Header(name) => Ok(Some(self.begin_section(alloc, name)?)),
            Statement::Entry(line) => self.take_entry(place, line),
        }
    }

    /// Takes a joined line.
    fn take_line(
        &mut self,
        alloc: Global,
        place: Option<usize>,
        line: &Joined,
    ) -> Result<Option<usize>, InfRefusal>
        requires { IsWithin place self.old }
        ensures value { Gives InfRefusal.OutOfMemory (λ p. record { sections = self.new; place = p }) result (with_joined (record { sections = self.old; place = place }) line.now) }
        ensures within { IfOk result (λ p. IsWithin p self.new) }
    {
        let said = read_statement(alloc, line)?;
        self.take(alloc, place, said)
    }

    /// The sections that joined lines say.
    pub(crate) fn of_lines(alloc: Global, lines: &[Joined]) -> Result<Inf, InfRefusal>
        ensures { Gives InfRefusal.OutOfMemory (λ i. i) result (sections_of_lines lines.now) }
    {
        let mut inf = Inf::empty(alloc);
        let mut place = None;
        for line in lines {
            place = inf.take_line(alloc, place, line)?;
        }
        Ok(inf)
    }
}
