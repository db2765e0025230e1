//! One step of an AMF.
ghost use Rattle.std.specs.Prelude.{◌≡◌, OnOk};
ghost use Rattle.amf_core.specs.Events.{carried_down};
ghost use Rattle.amf_core.specs.Outcome.{Works};
ghost use Rattle.amf_core.specs.Step.{Follows, Steps, step_of, worked};
ghost use Rattle.amf_core.specs.Work.{by};

use crate::commands::unrefused;
use crate::draft::Draft;
use crate::framing::Framing;
use crate::work::Work;
use crate::{Amf, AmfInput, AmfOuts, AmfRefusal};
use milenage::Home;
use nas_base::{Memory, Moment, Octets, Psi, Supi};
use std::alloc::Global;

/// One step of an AMF: the row of an input at a moment; a challenge that starts in it has this RAND. `home` keeps each SUPI that `amf` keeps
/// (TS 24.501 clauses 4.4, 5 and 7, TS 33.501 clause 6). It costs the records that it changes, and a walk over those of the
/// subscribers to find one.
///
/// # Errors
///
/// Of the three commands alone: `UnknownSupi` exactly where the SUPI isn't kept; else `WrongState` exactly where the word isn't Registered
/// or a procedure is open; else, of `Authenticate`, `SqnSpent` exactly where SQN_HE is 2^48 - 1; else, of `Update`, in this order,
/// `Uncompleted` exactly where the last 5G-GUTI that was offered isn't confirmed, `Updated` exactly where the context in use has had an
/// update, `TmsiSpent` exactly where no 5G-TMSI is left. Or `Memory`. All is then as before.
pub fn step(
    alloc: Global,
    amf: &mut Amf,
    home: &mut Home,
    now: Moment,
    rand: &[u8; 16],
    input: &AmfInput,
) -> Result<AmfOuts, AmfRefusal>
    ensures { Steps amf.old amf.new home.old home.new result (step_of amf.old home.old now rand.now input.now) }
{
    let draft = Draft::new(alloc, amf, home);
    let (draft, outs) = follow(alloc, draft, now, rand, input)?;
    draft.changes().take_over(amf, home);
    Ok(outs)
}

/// The row of an input, as `step` says it, on what steps before it left. Its owner takes the changes over where all is done. After a
/// refusal nothing of the draft is of use.
///
/// # Errors
///
/// Those of `step`.
#[tactic(auto, unfolding(crate::specs::Step::ended))]
pub fn follow<'a>(
    alloc: Global,
    draft: Draft<'a>,
    now: Moment,
    rand: &[u8; 16],
    input: &AmfInput,
) -> Result<(Draft<'a>, AmfOuts), AmfRefusal>
    ensures { Follows draft.entry result (step_of draft.entry.amf draft.entry.home now rand.now input.now) }
{
    let mut work = Work::new(alloc, draft, now, rand);
    work.by_input(alloc, input)?;
    let (core, acts) = work.end();
    let mut framing = Framing::new(alloc, core);
    match framing.all(alloc, acts) {
        Ok(()) => Ok(framing.end()),
        Err(Memory) => Err(AmfRefusal::Memory),
    }
}

impl<'a> Work<'a> {
    // The row of an input.
    #[tactic(auto, unfolding(crate::specs::Step::worked))]
    fn by_input(&mut self, alloc: Global, input: &AmfInput) -> Result<(), AmfRefusal>
        ensures { Works self.old self.new result (worked input.now self.old.work) }
    {
        let done = match input {
            AmfInput::Authenticate(supi) => return self.authenticate(alloc, supi),
            AmfInput::Deregister(supi) => return self.deregister_by(supi),
            AmfInput::Update(supi) => return self.update(supi),
            AmfInput::Uplink {
                link,
                fresh,
                octets,
            } => self.bring_up(alloc, *link, *fresh, octets.as_slice()),
            AmfInput::Expired { supi, id } => self.expired(supi, id),
            AmfInput::Fence(supi) => self.fence(alloc, supi),
            AmfInput::Sessions { supi, status } => self.sessions_told(supi, *status),
            AmfInput::Down { supi, psi, frame } => self.copy_down(alloc, supi, *psi, frame),
            AmfInput::Dropped { link } => self.dropped(*link),
        };
        unrefused(done)
    }

    // A 5GSM message of the SMF, which stays its owner's.
    fn copy_down(
        &mut self,
        alloc: Global,
        supi: &Supi,
        psi: Psi,
        frame: &Octets,
    ) -> Result<(), Memory>
        ensures { OnOk result (self.new ≡ by (carried_down supi.now psi frame.now) self.old) }
    {
        match Octets::copy(alloc, frame.as_slice()) {
            Ok(frame) => self.carry_down(supi, psi, frame),
            Err(_) => Err(Memory),
        }
    }
}
