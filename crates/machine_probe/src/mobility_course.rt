//! A handset's 5GMM on its way through inputs.
ghost use Rattle.std.specs.Prelude.{◌≤◌, ◌^◌};

use crate::handset_texts::view_text;
use crate::mobility_inputs::Given;
use crate::mobility_texts::{outs_text, refusal_text};
use nas_base::Moment;
use nas_elements::Status;
use nas_security::Context;
use probe_words::{Refusal, push};
use std::alloc::Global;
use ue_mm::{Common, HandsetConfig, StepRefusal, UeInput, UeMm, step};

// How many counts there are.
const COUNTS: u32 = 0x0100_0000;

/// A handset's 5GMM, the sessions that it is given, and what it answered so far.
#[derive(Drop)]
pub struct Course {
    handset: UeMm,
    held: Status,
    pub told: String,
}

impl Course {
    /// A handset that was just made.
    pub fn new(alloc: Global, config: &HandsetConfig) -> Course {
        Course {
            handset: UeMm::new(config),
            held: Status::empty(),
            told: String::new(alloc),
        }
    }

    /// What comes of the next word.
    pub fn go(self, alloc: Global, given: Given) -> Result<Course, Refusal> {
        match given {
            Given::Held(held) => Ok(Course { held, ..self }),
            Given::Counts { up, down } => {
                if up > COUNTS || down > COUNTS {
                    return Err(Refusal::Unreadable);
                }
                let handset = with_counts(self.handset, up, down);
                Ok(Course { handset, ..self })
            }
            Given::Input(input) => self.step(alloc, input),
        }
    }

    // A step, and its answer behind the others.
    fn step(self, alloc: Global, input: UeInput) -> Result<Course, Refusal> {
        let Course {
            handset,
            held,
            mut told,
        } = self;
        let (handset, outs) = match step(alloc, handset, Moment(0), &held, input) {
            Ok((handset, outs)) => (handset, outs_text(alloc, &outs)?),
            Err((_, StepRefusal::Memory)) => return Err(Refusal::Memory),
            Err((handset, refusal)) => (handset, refusal_text(alloc, refusal)?),
        };
        let view = view_text(alloc, &handset.view())?;
        if !told.is_empty() {
            push(&mut told, " ")?;
        }
        push(&mut told, outs.as_str())?;
        push(&mut told, view.as_str())?;
        Ok(Course {
            handset,
            held,
            told,
        })
    }
}

// The handset with these next counts of the context in use, if there is one.
fn with_counts(handset: UeMm, up: u32, down: u32) -> UeMm
    requires { (up ≤ 2 ^ 24) × (down ≤ 2 ^ 24) }
{
    match handset {
        UeMm::Deregistered(common) => UeMm::Deregistered(counted(common, up, down)),
        UeMm::Registering(common, open) => UeMm::Registering(counted(common, up, down), open),
        UeMm::Registered(common) => UeMm::Registered(counted(common, up, down)),
        UeMm::Serving(common, open) => UeMm::Serving(counted(common, up, down), open),
        UeMm::Deregistering(common, open) => UeMm::Deregistering(counted(common, up, down), open),
    }
}

fn counted(common: Common, up: u32, down: u32) -> Common
    requires { (up ≤ 2 ^ 24) × (down ≤ 2 ^ 24) }
{
    let current = match common.current {
        Some(context) => Some(Context {
            up,
            down,
            ..context
        }),
        None => None,
    };
    Common { current, ..common }
}
