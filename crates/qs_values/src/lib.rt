//! Values that every layer shares: places in a source, names, numbers, types, tapes and refusals.
#![tactic(auto)]

mod angle;
mod boxed;
mod kind;
mod laws;
mod list;
mod lowest;
mod name;
mod number;
mod refusal;
mod span;
mod stretch;
mod tape;
mod word;

pub use angle::to_angle;
pub use boxed::Boxed;
pub use kind::{Input, Kind, Out, Ty};
pub use laws::computed_once;
pub use list::List;
pub use name::Name;
pub use number::{AngleVal, Frac, Num};
pub use refusal::{Halt, Memory, NumRefusal, Refusal};
pub use span::Span;
pub use stretch::{Affine, Group, Part1, Row};
pub use tape::{FrameStart, Tape};
pub use word::{begins_word, continues_word, is_name, is_reserved};
