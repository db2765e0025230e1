//! How the program ended.

use std::marker::Model;

/// The status that the program ends with.
///
/// | status | comes |
/// |---|---|
/// | 0 | all was written |
/// | 2 | the words are of no form |
/// | 3 | the configuration is wrong |
/// | 4 | a line of the script is wrong |
/// | 5 | a file was refused |
/// | 6 | the output failed |
/// | 8 | memory was wanting |
/// | 11 | a file is too long, or the script has too many events |
/// | 13 | the octets to show are no message |
#[derive(Clone, Copy, Debug, PartialEq, Eq)]
pub struct ExitStatus(pub u8);

impl Model for ExitStatus {
    ghost use Rattle.std.specs.Prelude.{ℕ, ◌≡◌, true};
    ghost use Rattle.nas_cli.specs.Status.{is_status};

    ghost Value = { ℕ };

    ghost view = { λ s. s.0 };

    ghost invariant = { λ s. is_status s.0 ≡ true };

    ghost inverse = { λ n. record { 0 = n } };
}
