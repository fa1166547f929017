ghost use Rattle.std.specs.Prelude.{◌≡◌};
ghost use Rattle.kmc_base.specs.Entries.{first_of_two, firing_of};
ghost use Rattle.process_queue.specs.LeadTree.{IsReal};

use kmc_base::{Entry, Firing, When};
use std::marker::Model;

/// A number that is the code of no instance: codes are below 2^65.
pub(crate) const NO_CODE: u128 = 0xffff_ffff_ffff_ffff_ffff_ffff_ffff_ffff;

/// A firing, or none. It takes 32 bytes, where an `Option<Firing>` takes 48.
#[derive(Debug, Drop)]
pub(crate) struct Lead {
    // Its code is `NO_CODE` where there is none.
    firing: Firing,
}

impl Model for Lead {
    ghost use Rattle.std.specs.Prelude.{◌==◌, Option, Some, None, if◌then◌else◌};
    ghost use Rattle.kmc_base.specs.declared.entry.Firing.{Firing};
    ghost use Rattle.process_queue.specs.declared.lead.TheConstants.{NO_CODE};

    ghost Value = { Option Firing };

    ghost view = { λ l. if l.firing.code == NO_CODE then None else Some l.firing };
}

impl Lead {
    pub(crate) fn new(firing: Option<Firing>) -> Lead
        requires { IsReal firing }
        ensures { result ≡ firing }
    {
        Lead {
            firing: firing.unwrap_or(Firing {
                time: 0,
                code: NO_CODE,
            }),
        }
    }

    pub(crate) fn get(&self) -> Option<Firing>
        ensures value { result ≡ self.now }
        ensures real { IsReal result }
    {
        if self.firing.code == NO_CODE {
            None
        } else {
            Some(self.firing)
        }
    }
}

/// The firing of an entry that has a time.
pub(crate) fn firing(entry: &Entry) -> Option<Firing>
    ensures { result ≡ firing_of entry.now }
{
    match entry.when {
        When::At(time) => Some(Firing {
            time,
            code: entry.code,
        }),
        When::Never => None,
    }
}

/// The one of two that comes first, if there is one.
pub(crate) fn first(a: Option<Firing>, b: Option<Firing>) -> Option<Firing>
    ensures { result ≡ first_of_two a b }
{
    match (a, b) {
        (None, b) => b,
        (a, None) => a,
        (Some(a), Some(b)) => Some(if b < a { b } else { a }),
    }
}
