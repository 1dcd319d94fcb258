//! The causes of a refusal.

ghost use Rattle.std.specs.Prelude.{◌≡◌};

use rs_items::ItemFault;
use thiserror::Error;

/// The cause why the script engine or the source refuses a statement. The state does not change, unless the device
/// failed in a command: its step may have been applied then, and the source is closed.
#[derive(Clone, Copy, Debug, PartialEq, Eq, Error)]
pub enum Refusal {
    /// The line is no request: it has no known form, or its first field that is not lawful is a name, a hexadecimal
    /// text or a media type; or there is not enough memory for it.
    #[error("{0}")]
    Line(ItemFault),
    /// The line is longer than a line may be.
    #[error("the line is too long")]
    LongLine,
    /// The field of `at` is not 1 to 15 decimal digits, or is past the last moment.
    #[error("the field is no moment")]
    BadMoment,
    /// The group does not have 1 to 16 lines, or the input ends within it.
    #[error("the group has no known size, or lacks a line")]
    BadGroup,
    /// No document has the path, or the document of the path does not exist now.
    #[error("there is no such document")]
    NoSuchDocument,
    /// The source refuses the request.
    #[error("the source refuses")]
    Source(rs_store::Refusal),
}

impl From<ItemFault> for Refusal {
    ghost use Rattle.rs_script.specs.declared.refusal.Refusal.TheVariants.{Line};

    ghost from_gives = { λ fault refusal. refusal ≡ Line fault };

    fn from(fault: ItemFault) -> Refusal {
        Refusal::Line(fault)
    }
}
