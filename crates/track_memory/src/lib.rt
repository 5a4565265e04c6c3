//! A track in its 33,856 lent bytes: the layout, which bytes are a track, what it holds, and a summary put in by its engine and model.
#![tactic(auto)]

mod formed;
pub mod layout;
pub mod summaries;
pub mod view;
