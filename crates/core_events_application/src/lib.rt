// The application's events, kinds 7 to 13, each once it is granted: what document 01's table says that it does.
// Each asks that the rules do not refuse the event, and leaves what the rules leave.
// The lent parts come one by one and not as a `Lent`, so that those that an event leaves alone are borrowed shared.
#![tactic(auto)]

pub mod contexts;
pub mod pages;
