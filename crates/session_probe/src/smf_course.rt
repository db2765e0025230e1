//! An SMF on its way through inputs.

use crate::smf_inputs::{Given, Whose};
use crate::smf_texts::{outs_text, refusal_text, view_text};
use nas_base::{Moment, Supi};
use probe_words::{Refusal, push};
use smf_core::{Smf, SmfConfig, SmfInput, SmfRefusal, step};
use std::alloc::Global;

/// An SMF, its two subscribers, the moment, and what it answered so far.
#[derive(Drop)]
pub struct Course {
    smf: Smf,
    one: Supi,
    other: Supi,
    moment: Moment,
    pub told: String,
}

impl Course {
    /// An SMF that was just made.
    pub fn new(alloc: Global, config: &SmfConfig) -> Result<Course, Refusal> {
        let [one, other] = config.subscribers.items.as_slice() else {
            return Err(Refusal::Unreadable);
        };
        let smf = Smf::new(alloc, config)?;
        Ok(Course {
            smf,
            one: one.supi.copy(),
            other: other.supi.copy(),
            moment: Moment(0),
            told: String::new(alloc),
        })
    }

    /// What comes of the next word.
    pub fn go(self, alloc: Global, given: Given) -> Result<Course, Refusal> {
        match given {
            Given::Now(moment) => Ok(Course { moment, ..self }),
            Given::Copy => {
                let smf = self.smf.copy(alloc)?;
                Ok(Course { smf, ..self })
            }
            Given::Input(whose, input) => self.step(alloc, whose, &input),
        }
    }

    // A step, and its answer behind the others.
    fn step(mut self, alloc: Global, whose: Whose, input: &SmfInput) -> Result<Course, Refusal> {
        let supi = match whose {
            Whose::One => self.one.copy(),
            Whose::Other => self.other.copy(),
        };
        let came = self.came(alloc, &supi, input)?;
        let one = view_text(alloc, &self.smf, &self.one)?;
        let other = view_text(alloc, &self.smf, &self.other)?;
        if !self.told.is_empty() {
            push(&mut self.told, " ")?;
        }
        push(&mut self.told, came.as_str())?;
        push(&mut self.told, one.as_str())?;
        push(&mut self.told, "/")?;
        push(&mut self.told, other.as_str())?;
        Ok(self)
    }

    // What comes of an input, with a comma behind each.
    fn came(&mut self, alloc: Global, supi: &Supi, input: &SmfInput) -> Result<String, Refusal> {
        if !self.smf.has(supi) {
            return Err(Refusal::Unreadable);
        }
        match step(alloc, &mut self.smf, self.moment, supi, input) {
            Ok(outs) => outs_text(alloc, &outs),
            Err(SmfRefusal::Memory) => Err(Refusal::Memory),
            Err(refusal) => refusal_text(alloc, refusal),
        }
    }
}
