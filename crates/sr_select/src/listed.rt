ghost use Rattle.std.specs.Prelude.{◌≡◌};
ghost use Rattle.std.specs.List.{list_any};
ghost use Rattle.sr_select.specs.Worlds.{arm_names_only, is_read, listed, reads_only, same_home};

use crate::allowed::{Allowed, maybe_allowed};
use sr_core::{Arm, Home, Leaf, Root, SharedRead, Site};

fn same_home(home: Home, other: Home) -> bool
    ensures { result ≡ same_home home other }
{
    home == other
}

/// Whether it is this variable.
fn is_read(home: Home, var: u32, read: SharedRead) -> bool
    ensures { result ≡ is_read home var read }
{
    same_home(home, read.home) && var == read.var
}

fn variable_listed(reads: &[SharedRead], home: Home, var: u32) -> bool
    ensures { result ≡ list_any (is_read home var) reads.now }
{
    for read in reads {
        if is_read(home, var, *read) {
            return true;
        }
    }
    false
}

fn operation_listed(site: &Site, op: u32) -> bool
    ensures { result ≡ (listed site.now).operation op }
{
    for other in site.counts.as_slice() {
        if op == *other {
            return true;
        }
    }
    false
}

/// What a statement lists.
#[derive(Clone, Copy)]
pub struct Listed<'a> {
    site: &'a Site,
}

impl<'a> Allowed for Listed<'a> {
    ghost use Rattle.sr_select.specs.Worlds.{leaf_within, root_within};

    ghost leaves = { λ names. leaf_within (listed names.site.now) };

    ghost roots = { λ names. root_within (listed names.site.now) };

    fn has_leaf(&self, leaf: &Leaf) -> bool {
        match leaf {
            Leaf::Count { op } => operation_listed(self.site, *op),
            _ => true,
        }
    }

    fn has_root(&self, root: Root) -> bool {
        match root {
            Root::Own(_) => true,
            Root::Shared { home, var } => variable_listed(self.site.reads.as_slice(), home, var),
        }
    }
}

fn arm_listed(site: &Site, arm: &Arm) -> bool
    ensures { result ≡ arm_names_only (listed site.now) arm.now }
{
    let allowed = Listed { site };
    maybe_allowed(&allowed, &arm.guard) && maybe_allowed(&allowed, &arm.by)
}

/// Whether the guards of a statement read and count no more than it lists.
pub fn names_listed(site: &Site) -> bool
    ensures { result ≡ reads_only (listed site.now) site.now }
{
    for arm in site.arms.as_slice() {
        if !arm_listed(site, arm) {
            return false;
        }
    }
    true
}
