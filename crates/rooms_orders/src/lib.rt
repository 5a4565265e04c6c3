//! A list of calls in orders that are drawn at random, each on a fresh register and on a fresh track with its shelf: how many different
//! boards and how many different listings come out.
#![tactic(auto)]

mod leaving;
mod texts;
mod trying;

pub use trying::{DEFAULT_SEED, Outcome, calls_of, try_orders};
