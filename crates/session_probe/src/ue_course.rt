//! A handset's sessions on their way through inputs.

use crate::ue_inputs::Given;
use crate::ue_texts::{outs_text, refusal_text, view_text};
use nas_base::Moment;
use nas_timers::Durations;
use probe_words::{Refusal, push};
use std::alloc::Global;
use ue_sm::{SmInput, SmStepRefusal, UeSm, step};

/// A handset's sessions, the moment, and what they answered so far.
#[derive(Drop)]
pub struct Course {
    state: UeSm,
    moment: Moment,
    pub told: String,
}

impl Course {
    /// The sessions of a handset that was just made.
    pub fn new(alloc: Global, durations: &Durations) -> Result<Course, Refusal> {
        let state = UeSm::new(alloc, durations)?;
        Ok(Course {
            state,
            moment: Moment(0),
            told: String::new(alloc),
        })
    }

    /// What comes of the next word.
    pub fn go(self, alloc: Global, given: Given) -> Result<Course, Refusal> {
        match given {
            Given::Now(moment) => Ok(Course { moment, ..self }),
            Given::Copy => {
                let state = self.state.copy(alloc)?;
                Ok(Course { state, ..self })
            }
            Given::Input(input) => self.step(alloc, input),
        }
    }

    // A step, and its answer behind the others.
    fn step(self, alloc: Global, input: SmInput) -> Result<Course, Refusal> {
        let Course {
            state,
            moment,
            mut told,
        } = self;
        let (state, came) = match step(alloc, state, moment, input) {
            Ok((state, outs)) => (state, outs_text(alloc, &outs)?),
            Err((_, SmStepRefusal::Memory)) => return Err(Refusal::Memory),
            Err((state, refusal)) => (state, refusal_text(alloc, refusal)?),
        };
        let view = view_text(alloc, &state)?;
        if !told.is_empty() {
            push(&mut told, " ")?;
        }
        push(&mut told, came.as_str())?;
        push(&mut told, view.as_str())?;
        Ok(Course {
            state,
            moment,
            told,
        })
    }
}
