//! The security contexts that the handset took into use, with an index of them.
ghost use Rattle.std.specs.Prelude.{◌≡◌, [], ◌∷◌, ◌++◌, OnOk, OnErr};
ghost use Rattle.nas_world.specs.Honest.{heard_up};
ghost use Rattle.nas_world.specs.Logs.{also};
ghost use Rattle.nas_world.specs.Taken.{Finds, taken_key, was_taken};
ghost use Rattle.nas_world.specs.contracts.taken.TakenKeyPartialEq.TheImpl as key;

use crate::TakenLog;
use crate::honesty::Judged;
use crate::passes::Heard;
use indexmap::IndexSet;
use nas_base::Memory;
use nas_security::Context;
use std::alloc::Global;
use std::marker::Model;

/// What a context is found by: its challenge, ngKSI, KAMF, algorithms and NAS keys.
#[derive(Clone, Copy, PartialEq, Eq, Hash)]
pub struct TakenKey {
    pub sqn: u64,
    pub rand: [u8; 16],
    pub ksi: u8,
    pub kamf: [u8; 32],
    pub nea: u8,
    pub nia: u8,
    pub enc: [u8; 16],
    pub int: [u8; 16],
}

/// The contexts, with their index.
#[derive(Drop)]
pub struct Taken {
    log: TakenLog,
    index: IndexSet<TakenKey>,
}

impl Model for Taken {
    ghost use Rattle.std.specs.Prelude.{List};
    ghost use Rattle.nas_security.specs.Contexts.{SecurityContext};
    ghost use Rattle.nas_world.specs.Taken.{Finds};
    ghost use Rattle.nas_world.specs.contracts.taken.TakenKeyPartialEq.TheImpl as key;

    ghost Value = { List SecurityContext };

    ghost view = { λ t. t.log };

    ghost invariant = { λ t. Finds key.ghosts.eq t.index t.log };
}

impl Taken {
    /// No context was taken into use.
    #[tactic(auto, using(crate::proofs::Finding::nothing_found))]
    pub fn new(alloc: Global) -> Taken
        ensures { result ≡ [] }
    {
        Taken {
            log: TakenLog {
                items: Vec::new(alloc),
            },
            index: IndexSet::new(alloc),
        }
    }

    /// The contexts in order.
    pub fn log(&self) -> &TakenLog
        ensures { result.now ≡ self.now }
    {
        &self.log
    }

    /// Whether one of them is the same as this one. It doesn't walk the log.
    pub fn has(&self, context: &Context) -> bool
        ensures { result ≡ was_taken context.now self.now }
    {
        self.index.contains(&key_of(context))
    }

    /// Octets reached the handset, which may have taken a context into use by them. All is logged or nothing.
    ///
    /// # Errors
    ///
    /// `Memory`; nothing then changes.
    pub fn hear(&mut self, alloc: Global, judged: &mut Judged, heard: Heard) -> Result<(), Memory>
        ensures ok { OnOk result ((self.new ≡ also self.old heard.took) × (judged.new ≡ heard_up heard judged.old)) }
        ensures err { OnErr result ((self.new ≡ self.old) × (judged.new ≡ judged.old)) }
    {
        let took = heard.took;
        match took {
            None => judged.hear_up(alloc, heard),
            Some(context) => {
                hear_taking(
                    alloc,
                    &mut self.log,
                    &mut self.index,
                    judged,
                    heard,
                    context,
                )?;
                Ok(())
            }
        }
    }
}

// Octets reached the handset, which took a context into use by them.
fn hear_taking(
    alloc: Global,
    log: &mut TakenLog,
    index: &mut IndexSet<TakenKey>,
    judged: &mut Judged,
    heard: Heard,
    context: Context,
) -> Result<(), Memory>
    requires { Finds key.ghosts.eq index.old log.old }
    ensures found { Finds key.ghosts.eq index.new log.new }
    ensures ok { OnOk result ((log.new ≡ log.old ++ context ∷ []) × (judged.new ≡ heard_up heard judged.old)) }
    ensures err { OnErr result ((log.new ≡ log.old) × (judged.new ≡ judged.old)) }
{
    let Ok(()) = log.items.reserve(1) else {
        return Err(Memory);
    };
    let Ok(()) = index.reserve(1) else {
        return Err(Memory);
    };
    judged.hear_up(alloc, heard)?;
    let Ok(_) = index.insert(key_of(&context)) else {
        unreachable!();
    };
    log.items.push_reserved(context);
    Ok(())
}

// What a context is found by.
fn key_of(context: &Context) -> TakenKey
    ensures { result ≡ taken_key context.now }
{
    let ksi = context.ksi;
    let algs = context.algs;
    TakenKey {
        sqn: context.challenge.sqn,
        rand: context.challenge.rand,
        ksi: ksi.0,
        kamf: context.kamf,
        nea: algs.nea,
        nia: algs.nia,
        enc: context.keys.enc,
        int: context.keys.int,
    }
}
