// Run sheets and their histories: the types, the readers of columns, lines and sheets, and the
// writer of history lines. In specs/ what a sheet is, when it is refused, and what it prints.
#![tactic(auto)]

pub mod columns;
pub mod events;
pub mod forms;
pub mod kept;
pub mod letters;
pub mod lines;

pub use events::{HistoryLine, SheetRefusal};
pub use lines::{FieldBounds, LetterRule, SheetLine};
