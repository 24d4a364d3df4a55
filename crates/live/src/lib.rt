// The rows of a page that are live at a tick, and what is read from them: the test of refusal 26, true values, what an entry has to know.
// A page that a lookup or a plan meets is opened here, in the table; what is then read from it, is read from its own words.
#![tactic(auto)]

mod held;
mod live;
mod survey;
mod test;

pub use held::{ForTwo, read_page, read_page_for_two};
pub use survey::{Survey, survey_page, survey_sound};
