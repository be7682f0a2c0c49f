//! Text as it is printed: without characters that a terminal obeys, that aren't seen, or that change
//! the order in which others are seen.
//!
//! The layers above may rely on this: `shown_lines` and `shown_json` give exactly the text that
//! their definition says, or NoMemory alone. No character of it is one that isn't printed as it is,
//! but for the newlines that end lines, and a text that has none stays as it is. A backslash stays
//! as it is too: text that has the letters `\u{202e}` is shown as the character is that has this
//! number.
//!
//! That JSON means the same with these characters by their numbers no clause says.
#![tactic(auto)]

mod hidden;
mod json;
pub mod laws;
mod lines;

pub use hidden::is_hidden_character;
pub use json::shown_json;
pub use lines::{push_in_lines, shown_lines};
