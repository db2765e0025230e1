//! The messages of a configuration update.
ghost use Rattle.nas_layout.specs.Answers.{Lays};
ghost use Rattle.nas_layout.specs.ReadBack.{TableBack};
ghost use Rattle.nas_layout.specs.Table.{pieces};
ghost use Rattle.nas_layout.specs.Telling.{HearsAll};
ghost use Rattle.mm_messages.specs.ConfigurationUpdate.{configuration_update_command};

use nas_base::{Form, Reader, Row, Shape, walk};
use nas_elements::Guti;
use nas_layout::{BodyRefusal, Half, Pieces, element, fixed_row, iei, known, laws, tlve_row};

/// CONFIGURATION UPDATE COMMAND (TS 24.501 clause 8.2.19).
#[derive(Drop)]
pub struct ConfigurationUpdateCommand {
    pub indication: Option<Half>,
    pub guti: Option<Guti>,
}

impl ConfigurationUpdateCommand {
    // Reads what stands behind the head.
    #[tactic(auto, unfolding(crate::specs::ConfigurationUpdate::configuration_update_command))]
    pub(crate) fn read(reader: &mut Reader) -> Result<ConfigurationUpdateCommand, BodyRefusal>
        ensures { Lays result configuration_update_command 1 reader.old }
    {
        let found = walk(
            reader.left(),
            &Shape::from_slice(&[
                Row {
                    iei: iei::CONFIGURATION_UPDATE_INDICATION,
                    form: Form::Half,
                },
                tlve_row(iei::GUTI_5G),
                fixed_row(iei::LOCAL_TIME_ZONE, 2),
                fixed_row(iei::UNIVERSAL_TIME_AND_LOCAL_TIME_ZONE, 8),
            ])
            .unwrap(),
        );
        Ok(ConfigurationUpdateCommand {
            indication: known(iei::CONFIGURATION_UPDATE_INDICATION, &found),
            guti: known(iei::GUTI_5G, &found),
        })
    }

    // Tells what stands behind the head, piece by piece.
    #[tactic(auto, unfolding(crate::specs::ConfigurationUpdate::configuration_update_command))]
    pub(crate) fn tell<P: Pieces>(&self, to: &mut P) -> Result<(), P::Refusal>
        ensures { HearsAll P.with_piece P.refuses to.old to.new (pieces configuration_update_command self.now) result }
    {
        element(
            to,
            iei::CONFIGURATION_UPDATE_INDICATION,
            Form::Half,
            &self.indication,
        )?;
        element(to, iei::GUTI_5G, Form::Tlve, &self.guti)
    }

    // What is told is read back: this does nothing.
    #[tactic(auto, unfolding(crate::specs::ConfigurationUpdate::configuration_update_command))]
    pub(crate) fn is_read_back(&self)
        ensures { TableBack configuration_update_command self.now }
    {
        laws::half_element_is_read_back(iei::CONFIGURATION_UPDATE_INDICATION, &self.indication);
        laws::tlve_is_read_back(iei::GUTI_5G, &self.guti);
    }
}
