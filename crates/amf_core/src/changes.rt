//! What was kept before steps, and what they changed of it.
ghost use Rattle.std.specs.Prelude.{◌≡◌};
ghost use Rattle.amf_core.specs.Changes.{changed, home_now};

use crate::{Amf, Link, Record};
use milenage::Home;
use std::marker::Model;

/// What was kept before: the AMF, and the home network.
#[derive(Drop)]
pub struct Before<'a> {
    pub amf: &'a Amf,
    pub home: &'a Home,
}

impl<'a> Model for Before<'a> {
    ghost use Rattle.amf_core.specs.Changes.{CoreState};

    ghost Value = { CoreState };

    ghost view = { λ b. record { amf = b.amf.now; home = b.home.now } };
}

/// What steps changed: records of subscribers and of links, the newest first, the next 5G-TMSI, 2^32 where none is left, and the home
/// network, if it changed. Its owner takes it over.
#[derive(Drop)]
pub struct Changes {
    pub(crate) subscribers: Vec<Record>,
    pub(crate) links: Vec<Link>,
    pub(crate) tmsi: u64,
    pub(crate) home: Option<Home>,
}

impl Model for Changes {
    ghost use Rattle.std.specs.Prelude.{◌≤◌, ◌^◌};
    ghost use Rattle.amf_core.specs.Changes.{ChangeLists};

    ghost Value = { ChangeLists };

    ghost view = { λ c. record { subscribers = c.subscribers.items; links = c.links.items; tmsi = c.tmsi; home = c.home } };

    ghost invariant = { λ c. c.tmsi ≤ 2 ^ 32 };
}

impl Changes {
    /// An AMF and its home network become what these changes make of them. It takes no memory, and costs a walk over the records.
    pub fn take_over(self, amf: &mut Amf, home: &mut Home)
        ensures amf { amf.new ≡ changed self amf.old }
        ensures home { home.new ≡ home_now self.home home.old }
    {
        amf.take_over(&self);
        take_home(home, self.home);
    }
}

// The home network becomes what it is by now.
fn take_home(home: &mut Home, after: Option<Home>)
    ensures { home.new ≡ home_now after home.old }
{
    if let Some(after) = after {
        *home = after;
    }
}
