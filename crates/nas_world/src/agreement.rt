//! Whether both ends agree on what they share.
ghost use Rattle.std.specs.Prelude.{◌≡◌, true};
ghost use Rattle.nas_base.specs.Branches.{per};
ghost use Rattle.nas_world.specs.Agree.{agree, both_agree, counts_fit, ends_agree, fits, guti_agrees, is_alone, is_kept, key_agrees, keys_agree};
ghost use Rattle.nas_world.specs.Taken.{is_same};

use crate::World;
use amf_core::NetView;
use nas_elements::Guti;
use nas_security::Context;
use ue_mm::UeView;

impl World {
    /// Whether both ends agree. The network's context in use is one that the handset took into use; where the handset's has the same
    /// ngKSI, it is the same one, and no end expects a count above the one that the other will use next. A registered handset has a
    /// 5G-GUTI, which is kept for its subscriber and for no other, and one alone once it is confirmed; for each subscriber at most two
    /// are kept.
    #[tactic(auto, unfolding(crate::specs::Agree::agree))]
    pub fn agree(&self) -> bool
        ensures { result ≡ agree self.now }
    {
        self.network.keeps_few();
        self.ends_agree()
    }

    // Both ends agree on what they share.
    #[tactic(auto, unfolding(crate::specs::Agree::ends_agree, nas_base::specs::Branches::per))]
    fn ends_agree(&self) -> bool
        ensures { result ≡ ends_agree self.now }
    {
        let ue = self.handset.view();
        match self.network.view(&self.supi) {
            None => !ue.registered,
            Some(net) => self.both_agree(&ue, &net),
        }
    }

    // What can be seen of both fits.
    fn both_agree(&self, ue: &UeView, net: &NetView) -> bool
        ensures { result ≡ both_agree ue.now net.now self.now }
    {
        self.keys_agree(ue, net) && (self.guti_agrees(ue, net) && is_alone(net))
    }

    // The keys fit.
    #[tactic(auto, unfolding(crate::specs::Agree::keys_agree, nas_base::specs::Branches::per))]
    fn keys_agree(&self, ue: &UeView, net: &NetView) -> bool
        ensures { result ≡ keys_agree ue.now net.now self.now }
    {
        match &net.in_use {
            None => true,
            Some(context) => self.key_agrees(&ue.current, context),
        }
    }

    // The network's context fits.
    fn key_agrees(&self, current: &Option<Context>, net: &Context) -> bool
        ensures { result ≡ key_agrees self.now.taken current.now net.now }
    {
        self.taken.has(net) && current_fits(current, net)
    }

    // The 5G-GUTI fits.
    #[tactic(auto, unfolding(crate::specs::Agree::guti_agrees, nas_base::specs::Branches::chosen, nas_base::specs::Branches::per))]
    fn guti_agrees(&self, ue: &UeView, net: &NetView) -> bool
        ensures { result ≡ guti_agrees ue.now net.now self.now }
    {
        if !ue.registered {
            return true;
        }
        match &ue.guti {
            None => false,
            Some(guti) => self.is_kept(net, guti),
        }
    }

    // A 5G-GUTI is kept for the handset's subscriber, and for no other.
    fn is_kept(&self, net: &NetView, guti: &Guti) -> bool
        ensures { result ≡ is_kept net.now self.now guti.now }
    {
        net.kept.has(guti) && !self.network.keeps_for_another(&self.supi, guti)
    }
}

// The handset's context, if it has one, fits the network's.
#[tactic(auto, unfolding(nas_base::specs::Branches::per))]
fn current_fits(current: &Option<Context>, net: &Context) -> bool
    ensures { result ≡ per current.now true (fits net.now) }
{
    match current {
        None => true,
        Some(own) => fits(net, own),
    }
}

#[tactic(auto, unfolding(nas_base::specs::Branches::chosen))]
fn fits(net: &Context, own: &Context) -> bool
    ensures { result ≡ fits net.now own.now }
{
    if own.ksi == net.ksi {
        is_same(own, net) && counts_fit(own, net)
    } else {
        true
    }
}

// The same context.
fn is_same(one: &Context, other: &Context) -> bool
    ensures { result ≡ is_same one.now other.now }
{
    one.challenge == other.challenge
        && (one.ksi == other.ksi
            && (one.kamf == other.kamf && (one.algs == other.algs && one.keys == other.keys)))
}

// No end expects a count above the one that the other will use next.
fn counts_fit(own: &Context, net: &Context) -> bool
    ensures { result ≡ counts_fit own.now net.now }
{
    net.up <= own.up && own.down <= net.down
}

// One alone is kept once it is confirmed.
#[tactic(auto, unfolding(nas_base::specs::Branches::chosen))]
fn is_alone(net: &NetView) -> bool
    ensures { result ≡ is_alone net.now }
{
    let kept = &net.kept;
    if net.completed {
        kept.items.len() == 1
    } else {
        true
    }
}
