ghost use Rattle.std.specs.Prelude.{◌≡◌, ◌∷◌, ◌++◌, [], OnOk, List};
ghost use Rattle.sr_names.specs.Entries.{Entries};

use crate::meaning::{Decl, Meaning, Sort};
use crate::members::Members;
use crate::predefined::Predefined;
use crate::spot::Spot;
use crate::spots::Spots;
use crate::table::Table;
use crate::visible::Visible;
use sr_value::{NoMemory, Row};
use std::alloc::Global;
use std::mem;

/// The scopes within a component that enclose a place: the innermost, and those around it from the outside in.
#[derive(Drop)]
pub struct Blocks {
    pub inner: Table,
    pub outer: Row<Table>,
}

impl Blocks {
    ghost use Rattle.sr_names.specs.Scopes.{no_blocks, opened, in_blocks};

    /// One scope that declares nothing. It takes no memory.
    pub fn new(alloc: Global) -> Self
        ensures { result ≡ no_blocks }
    {
        Blocks {
            inner: Table::new(alloc),
            outer: Row::new(alloc),
        }
    }

    /// Begins a scope within the innermost.
    pub fn open(&mut self, alloc: Global) -> Result<(), NoMemory>
        ensures { OnOk result (self.new ≡ opened self.old) }
    {
        let around = mem::replace(&mut self.inner, Table::new(alloc));
        self.outer.push(around)
    }

    /// Ends the innermost scope: the one around it is the innermost again. Where there is none around it nothing
    /// changes.
    pub fn close(&mut self)
        ensures unchanged { self.old.outer ≡ [] → self.new ≡ self.old }
        ensures closed { (inner : Entries) (outer : List Entries) → self.old.outer ≡ outer ++ inner ∷ [] → self.new ≡ record { inner = inner; outer = outer } }
    {
        if let Some(around) = self.outer.pop() {
            self.inner = around;
        }
    }

    /// What a name is declared as by the innermost of these scopes that declares it.
    pub fn get(&self, name: &[u8]) -> Option<Decl>
        ensures { result ≡ in_blocks self.now name.now }
    {
        if let Some(decl) = self.inner.get(name) {
            return Some(decl);
        }
        let mut found = None;
        for table in self.outer.as_slice() {
            found = table.get(name).or(found);
        }
        found
    }
}

/// A place in a program, as far as names are concerned: all components, and the scope of the component in which
/// it stands.
#[derive(Drop)]
pub struct Place {
    /// All components by their names.
    pub components: Table,
    /// The names of their specs.
    pub specs: Members,
    /// What this component declares, in its spec and its body.
    pub own: Table,
    /// The components whose names can be used: this one and those that it imports.
    pub visible: Visible,
    /// The constant or type of this component in whose declaration the place is.
    pub within: Option<Spot>,
}

/// How many imported components show a name.
#[derive(Drop)]
enum Shown {
    Nowhere,
    Once(Decl),
    Often,
}

impl Place {
    ghost use Rattle.std.specs.Prelude.{Some, None, map, length};
    ghost use Rattle.std.specs.List.{IsDistinct, filter_map};
    ghost use Rattle.std.specs.Option.{option_and_then};
    ghost use Rattle.sr_names.specs.Declarers.{AreDeclarers};
    ghost use Rattle.sr_names.specs.Scopes.{denotes, outside, visible_named, from_imports, ready, shown, shown_at, member, candidates};
    ghost use Rattle.sr_names.specs.Shown.{counted};
    ghost use Rattle.sr_names.specs.Spots.{same_spot};

    /// What a name means that is used at a spot: by the innermost scope that declares it, else by the component,
    /// else as the name of a component, else by the one imported component that shows it, else as predefined.
    pub fn denotes(&self, blocks: &Blocks, name: &[u8], spot: Spot) -> Option<Meaning>
        ensures { result ≡ denotes self.now blocks.now name.now spot }
    {
        match blocks.get(name) {
            Some(decl) => Some(Meaning::Declared(decl)),
            None => self.outside(name, spot),
        }
    }

    /// What a name of a component's spec means after the component's name and a point.
    pub fn member(&self, component: Decl, name: &[u8], spot: Spot) -> Option<Meaning>
        ensures { result ≡ member self.now component name.now spot }
    {
        let decl = self.shown(component, name)?;
        self.ready(decl, spot)
    }

    fn outside(&self, name: &[u8], spot: Spot) -> Option<Meaning>
        ensures { result ≡ outside self.now name.now spot }
    {
        match self.own.get(name) {
            Some(decl) => self.ready(decl, spot),
            None => match self.visible_named(name) {
                Some(component) => Some(Meaning::Declared(component)),
                None => self.imported(name, spot),
            },
        }
    }

    fn visible_named(&self, name: &[u8]) -> Option<Decl>
        ensures { result ≡ visible_named self.now name.now }
    {
        let component = self.components.get(name)?;
        self.visible.get(component.spot)
    }

    fn imported(&self, name: &[u8], spot: Spot) -> Option<Meaning>
        ensures { result ≡ from_imports self.now.within name.now spot (counted (candidates self.now.specs self.now.visible name.now)) }
    {
        match self.shown_by_imports(name) {
            Shown::Nowhere => Some(Meaning::Predefined(Predefined::named(name)?)),
            Shown::Once(decl) => self.ready(decl, spot),
            Shown::Often => None,
        }
    }

    /// A declaration, where it can be used at a spot.
    fn ready(&self, decl: Decl, spot: Spot) -> Option<Meaning>
        ensures { result ≡ ready self.now.within spot decl }
    {
        if decl.sort.needs_order()
            && (!decl.spot.is_before(spot) || self.within == Some(decl.spot))
        {
            return None;
        }
        Some(Meaning::Declared(decl))
    }

    /// What a component shows as a name to the others.
    fn shown(&self, component: Decl, name: &[u8]) -> Option<Decl>
        ensures { result ≡ shown self.now.specs component name.now }
    {
        let decl = self.specs.get(component.spot, name)?;
        if component.sort == Sort::Resource && decl.sort == Sort::Operation {
            return None;
        }
        Some(decl)
    }

    /// What a component shows as a name, if it is visible and known by a spot.
    fn shown_at(&self, spot: Spot, name: &[u8]) -> Option<Decl>
        ensures { result ≡ shown_at self.now.specs self.now.visible name.now spot }
    {
        self.shown(self.visible.get(spot)?, name)
    }

    /// How many visible components show a name. It looks through the visible components, or through those whose
    /// specs have the name, whichever are fewer.
    fn shown_by_imports(&self, name: &[u8]) -> Shown
        ensures { result ≡ counted (candidates self.now.specs self.now.visible name.now) }
    {
        match self.specs.declarers(name) {
            None => Shown::Nowhere,
            Some(declarers) => {
                if declarers.len() < self.visible.len() {
                    self.shown_by_declarers(declarers, name)
                } else {
                    self.shown_by_visible(name)
                }
            }
        }
    }

    fn shown_by_visible(&self, name: &[u8]) -> Shown
        ensures { result ≡ counted (candidates self.now.specs self.now.visible name.now) }
    {
        let mut shown = Shown::Nowhere;
        for index in 0..self.visible.len() {
            if shown.is_often() {
                return shown;
            }
            if let Some(component) = self.visible.at(index) {
                shown = shown.and(self.shown(component, name));
            }
        }
        shown
    }

    fn shown_by_declarers(&self, declarers: &Spots, name: &[u8]) -> Shown
        ensures { result ≡ counted (filter_map (shown_at self.now.specs self.now.visible name.now) declarers.now) }
    {
        let mut shown = Shown::Nowhere;
        for index in 0..declarers.len() {
            if shown.is_often() {
                return shown;
            }
            if let Some(spot) = declarers.at(index) {
                shown = shown.and(self.shown_at(spot, name));
            }
        }
        shown
    }
}

impl Shown {
    ghost use Rattle.sr_names.specs.Shown.{is_often, met};

    fn is_often(&self) -> bool
        ensures { result ≡ is_often self.now }
    {
        match self {
            Shown::Nowhere | Shown::Once(_) => false,
            Shown::Often => true,
        }
    }

    /// With what one more component shows.
    fn and(self, more: Option<Decl>) -> Shown
        ensures { result ≡ met self more }
    {
        match more {
            None => self,
            Some(decl) => match self {
                Shown::Nowhere => Shown::Once(decl),
                _ => Shown::Often,
            },
        }
    }
}
